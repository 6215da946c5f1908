//! One program of a network, packet by packet.

ghost use Rattle.std.specs.Prelude.{◌≡◌, ◌≤◌, ◌∷◌, [], ℕ, List, length, Option, Some, None, option_map, is_some, true};
ghost use Rattle.std.specs.Prelude.{OnOk, IfOk, IfErr};
ghost use Rattle.pes_time.specs.Line.{ring_of};
ghost use Rattle.unit_stream.specs.Faults.{unit_fault};
ghost use Rattle.program_follower.specs.Program.{listed, tables, Program, program_of, known_map, pids_of};
ghost use Rattle.program_follower.specs.Faults.{network_fault, as_network};
ghost use Rattle.program_follower.specs.Standing.{tables_left, lent_program};
ghost use Rattle.program_follower.specs.Streaming.{IsOfStream};
ghost use Rattle.program_follower.specs.Following.{FollowerStandsFor, OfPast, OfStreams, StreamsSince, grown, high_of};
ghost use Rattle.program_follower.specs.Following.{IsPlace, IsSwitched, IsOnTables, IsNetwork, streams_of_program};

use crate::known::KnownProgram;
use crate::purpose::{Listed, Purpose};
use crate::streams::{StreamPacket, Streams};
use crate::table_reader::{OnTables, TableReader};
use crate::tables::Tables;
use pes_time::Time33;
use psi_tables::{NetworkFault, Stream};
use thiserror::Error;
use ts_packet::{Packet, Pid};
use unit_stream::UnitFault;

/// What a packet is to the program that is followed.
#[derive(Clone, Copy, Debug, PartialEq, Eq)]
pub enum Place {
    /// It is marked in error.
    Marked,
    /// It is on the PID of the cues, and not on that of the map.
    Cue,
    /// It is on the PID of the map, behind the PAT: [`ProgramFollower::tables`] lends the sections that it finishes.
    Map,
    /// It is of the switched stream of this number in the order of the map, counted from 0, behind the head.
    Stream(usize, StreamPacket),
    /// It is none of these: of another PID, or of the head.
    Other,
}

/// Why a follower answers no place.
#[derive(Clone, Copy, Debug, PartialEq, Eq, Drop, Error)]
pub enum FollowFault {
    /// The network is not one that can be worked on.
    #[error("{0}")]
    Network(NetworkFault),
    /// A fault was answered before.
    #[error("a fault was answered before")]
    Failed,
}

/// Follows one program of a network. It takes no memory.
#[derive(Drop)]
pub struct ProgramFollower {
    tables: TableReader,
    /// The switched streams, behind the head.
    streams: Option<Streams>,
    is_spent: bool,
}

impl ProgramFollower {
    /// A follower that was fed no packet.
    pub fn new(purpose: Purpose) -> ProgramFollower
        ensures { FollowerStandsFor result purpose [] }
    {
        ProgramFollower {
            tables: TableReader::new(purpose),
            streams: None,
            is_spent: false,
        }
    }

    /// Takes the next packet of the network, and answers what it is.
    ///
    /// # Errors
    ///
    /// `Network` with what is wrong with the packet behind those before it; `Failed` once a fault was answered.
    #[inline(always)]
    pub fn feed(&mut self, packet: &Packet) -> Result<Place, FollowFault>
        ensures stands { OfPast self.old (λ c past. OnOk result (FollowerStandsFor self.new c (packet.now ∷ past))) }
        ensures sound { OfPast self.old (λ c past. OnOk result (network_fault c packet.now past ≡ None)) }
        ensures place { OfPast self.old (λ c past. IfOk result (λ x. IsPlace x c packet.now past)) }
        ensures err { OfPast self.old (λ c past. IfErr result (λ f. IsNetwork f (network_fault c packet.now past))) }
        ensures spent { IfErr result (λ _. self.new.is_spent ≡ true) }
        ensures failed { self.old.is_spent ≡ true → result ≡ Err FollowFault.Failed }
    {
        if self.is_spent {
            return Err(FollowFault::Failed);
        }
        match self.take(packet) {
            Ok(place) => Ok(place),
            Err(fault) => {
                self.is_spent = true;
                Err(FollowFault::Network(fault))
            }
        }
    }

    /// The sections that the last packet finished on the PID of the map, behind the PAT, in order; none where it was of another PID.
    pub fn tables(&self) -> Tables<'_>
        ensures { (c : Purpose) (p : List ℕ) (past : List (List ℕ)) → FollowerStandsFor self.now c (p ∷ past)
            → tables_left result ≡ tables c.program p past }
    {
        self.tables.tables()
    }

    /// The greatest time of the units that have begun behind the head, on the ring.
    #[inline(always)]
    pub fn high(&self) -> Option<Time33>
        ensures { OfPast self.now (λ c past. result ≡ option_map ring_of (high_of c.program past)) }
    {
        match &self.streams {
            None => None,
            Some(streams) => streams.high(),
        }
    }

    /// The switched streams in the order of the map; none in the head.
    pub fn streams(&self) -> &[Stream]
        ensures { OfPast self.now (λ c past. result.now ≡ streams_of_program (program_of c.program past)) }
    {
        match self.tables.known() {
            None => &[],
            Some(known) => known.streams.as_slice(),
        }
    }

    /// The PID of the program's clock references; `None` in the head.
    pub fn pcr_pid(&self) -> Option<Pid>
        ensures { OfPast self.now (λ c past. result
            ≡ option_map (λ (r : Program). r.pcr_pid) (program_of c.program past)) }
    {
        match self.tables.known() {
            None => None,
            Some(known) => Some(known.pcr_pid),
        }
    }

    /// The program and the PID of its map; `None` before the PAT.
    pub fn listed(&self) -> Option<Listed>
        ensures { OfPast self.now (λ c past. result ≡ listed c.program past) }
    {
        self.tables.listed()
    }

    /// The head is over: a packet has finished the first map of the program.
    pub fn is_behind_head(&self) -> bool
        ensures { OfPast self.now (λ c past. result ≡ is_some (known_map c.program past)) }
    {
        self.tables.known().is_some()
    }

    /// Takes a packet, and answers what it is, or the first thing that is wrong with it.
    #[inline(always)]
    fn take(&mut self, packet: &Packet) -> Result<Place, NetworkFault>
        ensures stands { OfPast self.old (λ c past. OnOk result (FollowerStandsFor self.new c (packet.now ∷ past))) }
        ensures sound { OfPast self.old (λ c past. OnOk result (network_fault c packet.now past ≡ None)) }
        ensures place { OfPast self.old (λ c past. IfOk result (λ x. IsPlace x c packet.now past)) }
        ensures err { OfPast self.old (λ c past. IfErr result (λ f. network_fault c packet.now past ≡ Some f)) }
    {
        let on_tables = match self.tables.feed(packet) {
            Ok(on_tables) => on_tables,
            Err(fault) => return Err(fault),
        };
        match follow_streams(&mut self.streams, self.tables.known(), packet) {
            Ok(of_stream) => Ok(place_of(on_tables, of_stream, packet)),
            Err(fault) => Err(of_unit(fault)),
        }
    }
}

/// Takes a packet behind the head, and begins to follow the streams at the end of the head. `known` is what is known behind the packet.
#[inline(always)]
fn follow_streams(
    streams: &mut Option<Streams>,
    known: Option<&KnownProgram>,
    packet: &Packet,
) -> Result<Option<(usize, StreamPacket)>, UnitFault>
    ensures reads { OfStreams streams.old (lent_program known.entry) (λ r past.
        OnOk result (StreamsSince streams.new (lent_program known.entry) (grown r packet.now past))) }
    ensures sound { OfStreams streams.old (lent_program known.entry) (λ r past.
        OnOk result (unit_fault (pids_of r) packet.now past ≡ None)) }
    ensures is { OfStreams streams.old (lent_program known.entry) (λ r past.
        IfOk result (λ x. IsOfStream x (pids_of r) packet.now past)) }
    ensures err { OfStreams streams.old (lent_program known.entry) (λ r past.
        IfErr result (λ f. unit_fault (pids_of r) packet.now past ≡ Some f)) }
{
    let Some(known) = known else {
        return Ok(None);
    };
    match streams {
        Some(streams) => match streams.feed(packet) {
            Ok(of_stream) => Ok(of_stream),
            Err(fault) => Err(fault),
        },
        None => {
            begin(streams, known.streams.as_slice());
            Ok(None)
        }
    }
}

/// Begins to follow the streams, at the end of the head. It is called once in a run, and stands by itself so that no other packet pays
/// for the room that it takes.
#[cold]
#[inline(never)]
fn begin(streams: &mut Option<Streams>, switched: &[Stream])
    requires { length switched.now ≤ 8 }
    ensures { (r : Program) → r.streams ≡ switched.now → StreamsSince streams.new (Some r) [] }
{
    *streams = Some(Streams::new(switched));
}

/// What a packet is, by the stream that it is of.
#[inline(always)]
fn place_of(on_tables: OnTables, of_stream: Option<(usize, StreamPacket)>, packet: &Packet) -> Place
    ensures { (c : Purpose) (past : List (List ℕ)) → IsOnTables on_tables c packet.now past
        → IsSwitched of_stream c packet.now past → IsPlace result c packet.now past }
{
    match on_tables {
        OnTables::Map => return Place::Map,
        OnTables::Cue => return Place::Cue,
        OnTables::Neither => {}
    }
    if let Some((index, part)) = of_stream {
        return Place::Stream(index, part);
    }
    if packet.error() {
        return Place::Marked;
    }
    Place::Other
}

/// A fault of a unit, as one of the network.
pub(crate) fn of_unit(fault: UnitFault) -> NetworkFault
    ensures { as_network (Some fault) ≡ Some result }
{
    match fault {
        UnitFault::Scrambled => NetworkFault::Scrambled,
        UnitFault::HeaderSplit => NetworkFault::HeaderSplit,
        UnitFault::TimeJump => NetworkFault::TimeJump,
    }
}
