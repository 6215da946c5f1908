//! One program of a network, followed by where its units begin.

ghost use Rattle.std.specs.Prelude.{◌≡◌, ◌<◌, ◌≤◌, ◌+◌, ◌∷◌, ◌++◌, [], ℕ, List, length, slice_index_or, Option, Some, None};
ghost use Rattle.std.specs.Prelude.{option_map, true, OnOk, IfOk, IfErr, IfSome};
ghost use Rattle.arrayvec.specs.ArrayVec.{array_vec_len};
ghost use Rattle.ts_packet.specs.Fields.{on_one};
ghost use Rattle.pes_time.specs.Line.{ring_of};
ghost use Rattle.unit_stream.specs.Faults.{unit_fault};
ghost use Rattle.program_follower.specs.Program.{tables, Program, program_of, pids_of, known_pids, behind_head};
ghost use Rattle.program_follower.specs.Faults.{network_fault, unit_fault_at, pids_in};
ghost use Rattle.program_follower.specs.PidUses.{IsTablePid, HasPlacesElsewhere};
ghost use Rattle.program_follower.specs.Standing.{tables_left, lent_program};
ghost use Rattle.program_follower.specs.Streaming.{IsOfStarts, place_in, start_in};
ghost use Rattle.program_follower.specs.Following.{StartsStandFor, StartsShow, IsUnfollowed, OfStartPast, OfStreamPast, OfBegins};
ghost use Rattle.program_follower.specs.Following.{IsPartOf, StartsSince, grown, high_of, IsStartPlace, IsOfStartsAt, IsOnTables, streams_of_program};

use crate::follower::of_unit;
use crate::known::KnownProgram;
use crate::pid_uses::{PidUse, PidUses};
use crate::purpose::Purpose;
use crate::starts::{StartPacket, Starts, StreamPart, UnitStart, is_clear};
use crate::table_reader::{OnTables, TableReader, or_zero};
use crate::tables::Tables;
use arrayvec::ArrayVec;
use pes_time::Time33;
use psi_tables::{NetworkFault, Stream};
use ts_packet::{Packet, Pid};
use unit_stream::UnitFault;

/// What a packet is to the program that is followed, told by the begins of units alone.
#[derive(Clone, Copy, Debug, PartialEq, Eq)]
pub enum StartPlace {
    /// It is on the PID of the map, behind the PAT: [`StartFollower::tables`] lends the sections that it finishes.
    Map,
    /// It is on the PID of the cues, and not on that of the map.
    Cue,
    /// It is of the switched stream of this number in the order of the map, counted from 0, behind the head.
    Stream(usize, StartPacket),
    /// It is none of these: marked in error, of another PID, or of the head.
    Other,
}

impl StartPlace {
    ghost use Rattle.std.specs.Prelude.{false};
    ghost use Rattle.program_follower.specs.Program.{listed};
    ghost use Rattle.program_follower.specs.Following.{on_map, may_rise};

    /// It is on the PID of the map, behind the PAT.
    #[inline(always)]
    pub fn is_map(&self) -> bool
        ensures { (c : Purpose) (p : List ℕ) (past : List (List ℕ)) → IsStartPlace self.now c p past
            → result ≡ on_map (listed c.program past) p }
    {
        match self {
            StartPlace::Map => true,
            StartPlace::Cue | StartPlace::Stream(_, _) | StartPlace::Other => false,
        }
    }

    /// A unit of a switched stream begins with the packet, or it is on the PID of the map or on that of the cues. With each other one the
    /// greatest time stays.
    #[inline(always)]
    #[tactic(auto, using(crate::proofs::StillLemmas::still_other, crate::proofs::StillLemmas::rises_other, crate::proofs::StillLemmas::rises_map, crate::proofs::StillLemmas::rises_cue))]
    pub fn may_rise(&self) -> bool
        ensures exact { (c : Purpose) (p : List ℕ) (past : List (List ℕ)) → IsStartPlace self.now c p past
            → result ≡ may_rise c p past }
        ensures still { (c : Purpose) (p : List ℕ) (past : List (List ℕ)) → IsStartPlace self.now c p past
            → result ≡ false → high_of c.program (p ∷ past) ≡ high_of c.program past }
        ensures elsewhere { (c : Purpose) (p : List ℕ) (past : List (List ℕ)) → IsStartPlace self.now c p past
            → result ≡ false → on_map (listed c.program past) p ≡ false }
    {
        match self {
            StartPlace::Stream(_, part) => part.is_start(),
            StartPlace::Other => false,
            StartPlace::Map | StartPlace::Cue => true,
        }
    }
}

/// Follows one program of a network as [`crate::ProgramFollower`] does, and tells what each packet is, but of the packets of a stream only
/// which begin units. So it copies none but those. It takes no memory. It is not to be fed behind a fault.
#[derive(Drop)]
pub struct StartFollower {
    tables: TableReader,
    /// The switched streams, behind the head.
    streams: Option<Starts>,
    /// What the packets of each PID are to these two.
    uses: PidUses,
}

impl StartFollower {
    /// A follower that was fed no packet.
    pub fn new(purpose: Purpose) -> StartFollower
        ensures { StartsStandFor result purpose [] }
    {
        let uses = PidUses::new(or_zero(purpose.cue_pid));
        StartFollower {
            tables: TableReader::new(purpose),
            streams: None,
            uses,
        }
    }

    /// Begins anew: it was fed no packet, as [`StartFollower::new`] was not, and stays where it lies.
    pub fn begin_anew(&mut self, purpose: Purpose)
        ensures { StartsStandFor self.new purpose [] }
    {
        self.uses.begin_anew(or_zero(purpose.cue_pid));
        self.streams = None;
        self.tables = TableReader::new(purpose);
    }

    /// Takes the next packet of the network, and answers what it is.
    ///
    /// # Errors
    ///
    /// What is wrong with the packet behind those before it.
    #[inline(always)]
    pub fn feed(&mut self, packet: &Packet) -> Result<StartPlace, NetworkFault>
        ensures stands { OfStartPast self.old (λ c past. OnOk result (StartsStandFor self.new c (packet.now ∷ past))) }
        ensures shows { OfStartPast self.old (λ c past. OnOk result (StartsShow self.new c (packet.now ∷ past))) }
        ensures sound { OfStartPast self.old (λ c past. OnOk result (network_fault c packet.now past ≡ None)) }
        ensures place { OfStartPast self.old (λ c past. IfOk result (λ x. IsStartPlace x c packet.now past)) }
        ensures err { OfStartPast self.old (λ c past. IfErr result (λ f. network_fault c packet.now past ≡ Some f)) }
    {
        match self.uses.use_of(packet) {
            PidUse::Other => {
                self.tables.pass();
                Ok(StartPlace::Other)
            }
            PidUse::Stream(index) => self.feed_stream(index, packet),
            PidUse::Table => self.feed_tables(packet),
        }
    }

    /// What the next packet of the network is to the switched stream that it is of, where it has a payload and nothing is wrong with it: it is
    /// neither marked in error nor scrambled, and a unit that begins with it is at no fault. `None` where it is no such packet. It is not taken.
    #[inline(always)]
    pub fn goes_on(&self, packet: &Packet) -> Option<StreamPart>
        ensures below { IfSome result (λ of. of.stream < 8) }
        ensures goes_on { OfStartPast self.now (λ c past. IfSome result (λ of. IsPartOf c of packet.now past)) }
        ensures told { OfStartPast self.now (λ c past. (of : StreamPart) → IsPartOf c of packet.now past → result ≡ Some of) }
    {
        let index = match self.uses.use_of(packet) {
            PidUse::Stream(index) => index,
            PidUse::Table => return None,
            PidUse::Other => return None,
        };
        let Some(streams) = &self.streams else {
            return None;
        };
        if packet.error() || !is_clear(packet) {
            return None;
        }
        match streams.part_of(index, packet) {
            Some(part) => Some(StreamPart {
                stream: index,
                part,
            }),
            None => None,
        }
    }

    /// Takes the next packet of the network, which is this to its stream.
    #[inline(always)]
    pub fn go_on(&mut self, of: StreamPart, packet: &Packet)
        requires { of.stream < 8 }
        ensures stands { OfStartPast self.old (λ c past. IsPartOf c of packet.now past → StartsStandFor self.new c (packet.now ∷ past)) }
        ensures shows { OfStartPast self.old (λ c past. IsPartOf c of packet.now past → StartsShow self.new c (packet.now ∷ past)) }
    {
        self.tables.pass();
        if let Some(streams) = &mut self.streams {
            streams.go_on(of, packet);
        }
    }

    /// The greatest time behind the next packet of the network, which is this to its stream. It is not taken.
    pub fn high_behind(&self, of: StreamPart) -> Option<Time33>
        ensures { OfStartPast self.now (λ c past. (p : List ℕ) → IsPartOf c of p past
            → result ≡ option_map ring_of (high_of c.program (p ∷ past))) }
    {
        match &self.streams {
            None => None,
            Some(streams) => streams.high_behind(of),
        }
    }

    /// Takes a packet of a PID under which the switched stream of this number stands, and no table.
    #[inline(always)]
    fn feed_stream(&mut self, index: usize, packet: &Packet) -> Result<StartPlace, NetworkFault>
        requires { index < 8 }
        ensures stands { OfStreamPast self.old index packet.now (λ c past.
            OnOk result (StartsStandFor self.new c (packet.now ∷ past))) }
        ensures shows { OfStreamPast self.old index packet.now (λ c past.
            OnOk result (StartsShow self.new c (packet.now ∷ past))) }
        ensures sound { OfStreamPast self.old index packet.now (λ c past.
            OnOk result (network_fault c packet.now past ≡ None)) }
        ensures place { OfStreamPast self.old index packet.now (λ c past.
            IfOk result (λ x. IsStartPlace x c packet.now past)) }
        ensures err { OfStreamPast self.old index packet.now (λ c past.
            IfErr result (λ f. network_fault c packet.now past ≡ Some f)) }
    {
        self.tables.pass();
        if packet.error() {
            return Ok(StartPlace::Other);
        }
        let Some(streams) = &mut self.streams else {
            return Ok(StartPlace::Other);
        };
        match streams.feed_stream(index, packet) {
            Ok(part) => Ok(StartPlace::Stream(index, part)),
            Err(fault) => Err(of_unit(fault)),
        }
    }

    /// Takes a packet of a PID of tables or cues. It stands by itself so that no other packet pays for the room that it takes.
    #[cold]
    #[inline(never)]
    fn feed_tables(&mut self, packet: &Packet) -> Result<StartPlace, NetworkFault>
        ensures stands { OfStartPast self.old (λ c past. OnOk result (StartsStandFor self.new c (packet.now ∷ past))) }
        ensures shows { OfStartPast self.old (λ c past. OnOk result (StartsShow self.new c (packet.now ∷ past))) }
        ensures sound { OfStartPast self.old (λ c past. OnOk result (network_fault c packet.now past ≡ None)) }
        ensures place { OfStartPast self.old (λ c past. IfOk result (λ x. IsStartPlace x c packet.now past)) }
        ensures err { OfStartPast self.old (λ c past. IfErr result (λ f. network_fault c packet.now past ≡ Some f)) }
    {
        let on_tables = match self.tables.feed(packet) {
            Ok(on_tables) => on_tables,
            Err(fault) => {
                self.uses.watch_all(); // The streams of a map before the fault are followed from the next packet on.
                return Err(fault);
            }
        };
        self.uses.add_table(self.tables.map_pid());
        let known = self.tables.known();
        match follow_begins(&mut self.streams, &mut self.uses, known, packet) {
            Ok(of_stream) => Ok(start_place_of(on_tables, of_stream)),
            Err(fault) => Err(of_unit(fault)),
        }
    }

    /// What is wrong with the next packet of the network, behind those before it. It is not taken, and nothing changes.
    #[inline(always)]
    pub fn look(&self, packet: &Packet) -> Option<NetworkFault>
        ensures { OfStartPast self.now (λ c past. result ≡ network_fault c packet.now past) }
    {
        match self.uses.use_of(packet) {
            PidUse::Other => None,
            PidUse::Stream(index) => self.look_at_stream(index, packet),
            PidUse::Table => self.look_at_tables(packet),
        }
    }

    /// Looks at a packet of a PID under which the switched stream of this number stands, and no table.
    #[inline(always)]
    fn look_at_stream(&self, index: usize, packet: &Packet) -> Option<NetworkFault>
        requires { index < 8 }
        ensures { OfStreamPast self.now index packet.now (λ c past. result ≡ network_fault c packet.now past) }
    {
        let Some(streams) = &self.streams else {
            return None;
        };
        let is_marked = packet.error();
        if is_marked {
            return None;
        }
        match streams.look_at(index, packet) {
            None => None,
            Some(fault) => Some(of_unit(fault)),
        }
    }

    /// Looks at a packet of a PID of tables or cues.
    #[cold]
    #[inline(never)]
    fn look_at_tables(&self, packet: &Packet) -> Option<NetworkFault>
        ensures { OfStartPast self.now (λ c past. result ≡ network_fault c packet.now past) }
    {
        match self.tables.look(packet) {
            None => self.look_at_units(packet),
            Some(fault) => Some(fault),
        }
    }

    /// What is wrong with the unit that a packet is of.
    fn look_at_units(&self, packet: &Packet) -> Option<NetworkFault>
        ensures { OfStartPast self.now (λ c past. result ≡ unit_fault_at c packet.now past) }
    {
        let Some(streams) = &self.streams else {
            return None;
        };
        match streams.look(packet) {
            None => None,
            Some(fault) => Some(of_unit(fault)),
        }
    }

    /// The number of the switched stream that the packet is of, behind the head, counted from 0 in the order of the map; `None` where it is of
    /// none.
    pub fn stream_of(&self, packet: &Packet) -> Option<usize>
        ensures below { IfSome result (λ place. place < 8) }
        ensures place { OfStartPast self.now (λ c past. result ≡ place_in (pids_of (program_of c.program past)) packet.now) }
    {
        let Some(streams) = &self.streams else {
            return None;
        };
        streams.place_of(packet)
    }

    /// The unit that the next packet of the network, which is of the switched stream of this number, would begin there, scrambled or not;
    /// `None` where it begins none. It is not taken.
    pub fn start_at(&self, stream: usize, packet: &Packet) -> Option<UnitStart>
        requires { stream < 8 }
        ensures { OfStartPast self.now (λ c past. Some stream ≡ place_in (pids_of (program_of c.program past)) packet.now
            → result ≡ start_in (pids_of (program_of c.program past)) packet.now (behind_head c.program past)) }
    {
        let Some(streams) = &self.streams else {
            return None;
        };
        streams.start_at(stream, packet)
    }

    /// The sections that the last packet finished on the PID of the map, behind the PAT, in order; none where it was of another PID.
    pub fn tables(&self) -> Tables<'_>
        ensures { (c : Purpose) (p : List ℕ) (past : List (List ℕ)) → StartsStandFor self.now c (p ∷ past)
            → StartsShow self.now c (p ∷ past) → tables_left result ≡ tables c.program p past }
    {
        self.tables.tables()
    }

    /// The greatest time of the units that have begun behind the head, on the ring.
    #[inline(always)]
    pub fn high(&self) -> Option<Time33>
        ensures { OfStartPast self.now (λ c past. result ≡ option_map ring_of (high_of c.program past)) }
    {
        match &self.streams {
            None => None,
            Some(streams) => streams.high(),
        }
    }

    /// The switched streams in the order of the map; none in the head.
    pub fn streams(&self) -> &[Stream]
        ensures { OfStartPast self.now (λ c past. result.now ≡ streams_of_program (program_of c.program past)) }
    {
        match self.tables.known() {
            None => &[],
            Some(known) => known.streams.as_slice(),
        }
    }

    /// The PIDs that are known of the program: that of its map once the PAT gave it, and behind it those of the up to eight switched streams
    /// in the order of the map, once that came.
    pub fn pids(&self) -> ArrayVec<Pid, 9>
        ensures { OfStartPast self.now (λ c past. result.items ≡ known_pids c.program past) }
    {
        let mut pids = ArrayVec::new();
        if let Some(listed) = self.tables.listed() {
            pids.push(listed.pid);
        }
        if let Some(known) = self.tables.known() {
            add_pids(&mut pids, known.streams.as_slice());
        }
        pids
    }

    /// How many PIDs are known of the program.
    #[inline(always)]
    pub fn pid_count(&self) -> usize
        ensures { OfStartPast self.now (λ c past. result ≡ length (known_pids c.program past)) }
    {
        let streams = self.streams().len();
        match self.tables.listed() {
            None => streams,
            Some(_) => streams + 1,
        }
    }

    /// The packet is on one of the PIDs that are known of the program, and not marked in error. Most packets are told by one look-up.
    #[inline(always)]
    pub fn owns(&self, packet: &Packet) -> bool
        ensures { OfStartPast self.now (λ c past. result ≡ on_one (known_pids c.program past) packet.now) }
    {
        match self.uses.use_of(packet) {
            PidUse::Other => false,
            PidUse::Stream(_) => !packet.error(),
            PidUse::Table => self.has_pid_of(packet),
        }
    }

    /// Nothing of the program is on the PID, behind its PAT: neither its map nor a switched stream, nor the PAT, nor the cues. A packet of such
    /// a PID changes nothing.
    #[inline(always)]
    pub fn overlooks(&self, pid: Pid) -> bool
        ensures { OfStartPast self.now (λ c past. result ≡ true → IsUnfollowed c.program c.cue_pid pid past) }
    {
        self.tables.is_behind_pat() && self.uses.is_of_none(pid)
    }

    /// The same by a look at each of the PIDs, for a packet of a PID of tables or cues.
    #[cold]
    #[inline(never)]
    fn has_pid_of(&self, packet: &Packet) -> bool
        ensures { OfStartPast self.now (λ c past. result ≡ on_one (known_pids c.program past) packet.now) }
    {
        match self.tables.listed() {
            Some(listed) if packet.is_on(listed.pid) => true,
            Some(_) | None => is_on_stream(self.streams(), packet),
        }
    }
}

/// Puts the PIDs of streams behind those that are there.
fn add_pids(pids: &mut ArrayVec<Pid, 9>, streams: &[Stream])
    requires { array_vec_len pids.old + length streams.now ≤ 9 }
    ensures { pids.new.items ≡ pids.old.items ++ pids_in streams.now }
{
    for stream in streams {
        pids.push(stream.pid);
    }
}

/// The packet is on the PID of one of the streams, and not marked in error.
fn is_on_stream(streams: &[Stream], packet: &Packet) -> bool
    ensures { result ≡ on_one (pids_in streams.now) packet.now }
{
    for stream in streams {
        if packet.is_on(stream.pid) {
            return true;
        }
    }
    false
}

/// Takes a packet behind the head, and begins to follow the streams at the end of the head. `known` is what is known behind the packet.
#[inline(always)]
fn follow_begins(
    streams: &mut Option<Starts>,
    uses: &mut PidUses,
    known: Option<&KnownProgram>,
    packet: &Packet,
) -> Result<Option<(usize, StartPacket)>, UnitFault>
    ensures reads { OfBegins streams.old (lent_program known.entry) (λ r past.
        OnOk result (StartsSince streams.new (lent_program known.entry) (grown r packet.now past))) }
    ensures sound { OfBegins streams.old (lent_program known.entry) (λ r past.
        OnOk result (unit_fault (pids_of r) packet.now past ≡ None)) }
    ensures is { OfBegins streams.old (lent_program known.entry) (λ r past.
        IfOk result (λ x. IsOfStarts x (pids_of r) packet.now past)) }
    ensures err { OfBegins streams.old (lent_program known.entry) (λ r past.
        IfErr result (λ f. unit_fault (pids_of r) packet.now past ≡ Some f)) }
    ensures kept { (pid : ℕ) → IsTablePid (slice_index_or uses.old pid 0) → IsTablePid (slice_index_or uses.new pid 0) }
    ensures rest { (pid : ℕ) → slice_index_or uses.old pid 0 ≤ 8 → slice_index_or uses.new pid 0 ≤ 8 }
    ensures places { OfBegins streams.old (lent_program known.entry) (λ r past. HasPlacesElsewhere uses.old (pids_of r)
        → HasPlacesElsewhere uses.new (pids_of (lent_program known.entry))) }
{
    let Some(known) = known else {
        return Ok(None);
    };
    match streams {
        Some(streams) => match streams.feed(packet) {
            Ok(of_stream) => Ok(of_stream),
            Err(fault) => Err(fault),
        },
        None => {
            begin(streams, uses, known.streams.as_slice());
            Ok(None)
        }
    }
}

/// Begins to follow the streams, at the end of the head. It is called once in a run, and stands by itself so that no other packet pays
/// for the room that it takes.
#[cold]
#[inline(never)]
fn begin(streams: &mut Option<Starts>, uses: &mut PidUses, switched: &[Stream])
    requires { length switched.now ≤ 8 }
    ensures reads { (r : Program) → r.streams ≡ switched.now → StartsSince streams.new (Some r) [] }
    ensures kept { (pid : ℕ) → IsTablePid (slice_index_or uses.old pid 0) → IsTablePid (slice_index_or uses.new pid 0) }
    ensures rest { (pid : ℕ) → slice_index_or uses.old pid 0 ≤ 8 → slice_index_or uses.new pid 0 ≤ 8 }
    ensures places { HasPlacesElsewhere uses.old [] → HasPlacesElsewhere uses.new (pids_in switched.now) }
{
    *streams = Some(Starts::new(switched));
    uses.add_streams(switched);
}

/// What a packet is, by the PIDs of the tables that it is on and by the stream that it is of.
#[inline(always)]
fn start_place_of(on_tables: OnTables, of_stream: Option<(usize, StartPacket)>) -> StartPlace
    ensures { (c : Purpose) (p : List ℕ) (past : List (List ℕ)) → IsOnTables on_tables c p past
        → IsOfStartsAt of_stream c p past → IsStartPlace result c p past }
{
    match on_tables {
        OnTables::Map => StartPlace::Map,
        OnTables::Cue => StartPlace::Cue,
        OnTables::Neither => match of_stream {
            Some((index, part)) => StartPlace::Stream(index, part),
            None => StartPlace::Other,
        },
    }
}
