//! Where the units of the switched streams begin behind the head, and the greatest time of these.

ghost use Rattle.std.specs.Prelude.{◌≡◌, ◌<◌, ◌≤◌, ◌≢◌, ◌∷◌, [], ℕ, List, length, Option, Some, None, option_map};
ghost use Rattle.std.specs.Prelude.{OnOk, IfOk, IfErr, IfSome, is_some, is_none, slice_index_or, true};
ghost use Rattle.ts_packet.specs.Fields.{payload_on};
ghost use Rattle.pes_time.specs.Line.{ring_of};
ghost use Rattle.unit_stream.specs.Faults.{unit_fault};
ghost use Rattle.unit_stream.specs.Times.{high};
ghost use Rattle.unit_stream.specs.Starts.{ReadsStarts, IsBegin};
ghost use Rattle.unit_stream.specs.Clocks.{ClockAt};
ghost use Rattle.program_follower.specs.Faults.{pids_in};
ghost use Rattle.program_follower.specs.Streaming.{AllStartsRead, StartsRead, IsOne, begin_fault};
ghost use Rattle.program_follower.specs.Streaming.{is_clear, place_in, IsStartPacket, IsOfStarts, start_in};
ghost use Rattle.pes_time.specs.Stamps.{stamp_of};

use crate::places::StreamPlaces;
use pes_time::{PesHead, Time33};
use psi_tables::Stream;
use ts_packet::{Packet, Pid};
use unit_stream::{Begun, Clock, StartReader, UnitFault};

/// What a packet of a switched stream is, behind the head, to a reader of the begins of units alone.
#[derive(Clone, Copy, Debug, PartialEq, Eq)]
pub enum StartPacket {
    /// A unit begins. Its PTS, and how far that lies past the greatest time before it; `None` where it has no PTS.
    Start(Option<Begun>),
    /// No unit begins: the packet goes on with one, repeats the packet before it, stands before the first unit, or has no payload.
    NoStart,
}

impl StartPacket {
    ghost use Rattle.unit_stream.specs.Times.{begins};

    /// A unit begins with it.
    #[inline(always)]
    pub fn is_start(&self) -> bool
        ensures { (pids : List ℕ) (pid : ℕ) (p : List ℕ) (past : List (List ℕ)) → IsStartPacket self.now pids pid p past
            → result ≡ begins pid p past }
    {
        match self {
            StartPacket::Start(_) => true,
            StartPacket::NoStart => false,
        }
    }
}

/// What a packet of a switched stream is there.
#[derive(Clone, Copy, Debug, PartialEq, Eq)]
pub struct StreamPart {
    /// The number of the stream in the order of the map, counted from 0.
    pub stream: usize,
    /// What the packet is to it.
    pub part: StartPacket,
}

/// A unit that begins with a packet.
#[derive(Clone, Copy, Debug, PartialEq, Eq)]
pub struct UnitStart {
    /// Its PTS, where it has one that stands whole in the packet.
    pub pts: Option<Time33>,
}

/// Follows up to eight switched streams, and tells of their packets only which begin units.
#[derive(Drop)]
pub struct Starts {
    places: StreamPlaces,
    clock: Clock,
    readers: [StartReader; 8],
}

impl Starts {
    /// The streams at the end of the head.
    pub fn new(streams: &[Stream]) -> Starts
        requires { length streams.now ≤ 8 }
        ensures { StartsRead result (pids_in streams.now) [] }
    {
        Starts {
            places: StreamPlaces::new(streams),
            clock: Clock::new(),
            readers: readers_of(streams),
        }
    }

    /// The greatest time of the units that have begun; `None` where none with a PTS has.
    #[inline(always)]
    pub fn high(&self) -> Option<Time33>
        ensures { (pids : List ℕ) (past : List (List ℕ)) → StartsRead self.now pids past
            → result ≡ option_map ring_of (high pids past) }
    {
        self.clock.high()
    }

    /// Takes the next packet behind the head, of whatever PID: the number of its stream among these and what it is there, or `None`
    /// where it is of none.
    ///
    /// # Errors
    ///
    /// The first of `Scrambled`, `HeaderSplit` and `TimeJump` that applies.
    #[inline(always)]
    pub fn feed(&mut self, packet: &Packet) -> Result<Option<(usize, StartPacket)>, UnitFault>
        ensures reads { (pids : List ℕ) (past : List (List ℕ)) → StartsRead self.old pids past
            → OnOk result (StartsRead self.new pids (packet.now ∷ past)) }
        ensures ok { (pids : List ℕ) (past : List (List ℕ)) → StartsRead self.old pids past
            → OnOk result (unit_fault pids packet.now past ≡ None) }
        ensures is { (pids : List ℕ) (past : List (List ℕ)) → StartsRead self.old pids past
            → IfOk result (λ x. IsOfStarts x pids packet.now past) }
        ensures err { (pids : List ℕ) (past : List (List ℕ)) → StartsRead self.old pids past
            → IfErr result (λ f. unit_fault pids packet.now past ≡ Some f) }
    {
        let Some(index) = self.places.place_of(packet) else {
            return Ok(None);
        };
        match self.feed_stream(index, packet) {
            Ok(part) => Ok(Some((index, part))),
            Err(fault) => Err(fault),
        }
    }

    /// Takes the next packet behind the head, which has a payload, not scrambled, and is this to its stream.
    #[inline(always)]
    pub(crate) fn go_on(&mut self, of: StreamPart, packet: &Packet)
        requires { of.stream < 8 }
        ensures { (pids : List ℕ) (past : List (List ℕ)) → IsOfStarts (Some (of.stream, of.part)) pids packet.now past
            → is_clear packet.now ≡ true → StartsRead self.old pids past → StartsRead self.new pids (packet.now ∷ past) }
    {
        let _begun = feed_at(&mut self.readers, of.stream, packet);
        if of.part.is_start() {
            self.clock = passed(self.clock, of.part);
        }
    }

    /// The greatest time behind the next packet behind the head, which is this to its stream. It is not taken.
    pub(crate) fn high_behind(&self, of: StreamPart) -> Option<Time33>
        ensures { (pids : List ℕ) (p : List ℕ) (past : List (List ℕ)) → IsOfStarts (Some (of.stream, of.part)) pids p past
            → StartsRead self.now pids past → result ≡ option_map ring_of (high pids (p ∷ past)) }
    {
        passed(self.clock, of.part).high()
    }

    /// What the next packet behind the head, which is of the stream of this number and has a payload, not scrambled, is there; `None` where
    /// something is wrong with it. It is not taken.
    #[inline(always)]
    pub(crate) fn part_of(&self, index: usize, packet: &Packet) -> Option<StartPacket>
        requires { index < 8 }
        ensures is { (pids : List ℕ) (past : List (List ℕ)) → Some index ≡ place_in pids packet.now → is_clear packet.now ≡ true
            → StartsRead self.now pids past → IfSome result (λ part. IsOfStarts (Some (index, part)) pids packet.now past) }
        ensures told { (pids : List ℕ) (past : List (List ℕ)) → Some index ≡ place_in pids packet.now → is_clear packet.now ≡ true
            → StartsRead self.now pids past → is_some result ≡ is_none (unit_fault pids packet.now past) }
    {
        if !packet.unit_start() {
            return Some(StartPacket::NoStart);
        }
        match self.part_at(index, packet) {
            Ok(part) => Some(part),
            Err(_) => None,
        }
    }

    /// What the next packet behind the head, which is of the stream of this number and has a payload, not scrambled, is there. It is not taken. It
    /// stands by itself, as it reads the stamps of a unit.
    ///
    /// # Errors
    ///
    /// `HeaderSplit` or `TimeJump`, as for [`Starts::feed`].
    #[inline(never)]
    fn part_at(&self, index: usize, packet: &Packet) -> Result<StartPacket, UnitFault>
        requires { index < 8 }
        ensures ok { (pids : List ℕ) (past : List (List ℕ)) → Some index ≡ place_in pids packet.now → is_clear packet.now ≡ true
            → StartsRead self.now pids past → OnOk result (unit_fault pids packet.now past ≡ None) }
        ensures is { (pids : List ℕ) (past : List (List ℕ)) → Some index ≡ place_in pids packet.now → is_clear packet.now ≡ true
            → StartsRead self.now pids past → IfOk result (λ part. IsOfStarts (Some (index, part)) pids packet.now past) }
        ensures err { (pids : List ℕ) (past : List (List ℕ)) → Some index ≡ place_in pids packet.now → is_clear packet.now ≡ true
            → StartsRead self.now pids past → IfErr result (λ f. unit_fault pids packet.now past ≡ Some f) }
    {
        let mut clock = self.clock;
        match pass(&mut clock, self.readers[index].look(packet)) {
            Ok(part) => Ok(part),
            Err(fault) => Err(fault),
        }
    }

    /// Takes the next packet behind the head, which is of the stream of this number, and answers what it is there.
    ///
    /// # Errors
    ///
    /// As for [`Starts::feed`].
    #[inline(always)]
    pub(crate) fn feed_stream(
        &mut self,
        index: usize,
        packet: &Packet,
    ) -> Result<StartPacket, UnitFault>
        requires { index < 8 }
        ensures reads { (pids : List ℕ) (past : List (List ℕ)) → Some index ≡ place_in pids packet.now
            → StartsRead self.old pids past → OnOk result (StartsRead self.new pids (packet.now ∷ past)) }
        ensures ok { (pids : List ℕ) (past : List (List ℕ)) → Some index ≡ place_in pids packet.now
            → StartsRead self.old pids past → OnOk result (unit_fault pids packet.now past ≡ None) }
        ensures is { (pids : List ℕ) (past : List (List ℕ)) → Some index ≡ place_in pids packet.now
            → StartsRead self.old pids past → IfOk result (λ part. IsOfStarts (Some (index, part)) pids packet.now past) }
        ensures err { (pids : List ℕ) (past : List (List ℕ)) → Some index ≡ place_in pids packet.now
            → StartsRead self.old pids past → IfErr result (λ f. unit_fault pids packet.now past ≡ Some f) }
    {
        if !packet.has_payload() {
            return Ok(StartPacket::NoStart);
        }
        if packet.scrambled() {
            return Err(UnitFault::Scrambled);
        }
        let begun = feed_at(&mut self.readers, index, packet);
        match pass(&mut self.clock, begun) {
            Ok(part) => Ok(part),
            Err(fault) => Err(fault),
        }
    }
}

impl Starts {
    /// What is wrong with the next packet behind the head, of whatever PID. It is not taken.
    pub fn look(&self, packet: &Packet) -> Option<UnitFault>
        ensures { (pids : List ℕ) (past : List (List ℕ)) → StartsRead self.now pids past
            → result ≡ unit_fault pids packet.now past }
    {
        let Some(index) = self.places.place_of(packet) else {
            return None;
        };
        self.look_at(index, packet)
    }

    /// The number of the stream that the packet is of; `None` where it is of none of these.
    pub fn place_of(&self, packet: &Packet) -> Option<usize>
        ensures below { IfSome result (λ place. place < 8) }
        ensures place { (pids : List ℕ) (past : List (List ℕ)) → StartsRead self.now pids past
            → result ≡ place_in pids packet.now }
    {
        self.places.place_of(packet)
    }

    /// What is wrong with the next packet behind the head, which is of the stream of this number. It is not taken.
    #[inline(always)]
    pub(crate) fn look_at(&self, index: usize, packet: &Packet) -> Option<UnitFault>
        requires { index < 8 }
        ensures { (pids : List ℕ) (past : List (List ℕ)) → Some index ≡ place_in pids packet.now
            → StartsRead self.now pids past → result ≡ unit_fault pids packet.now past }
    {
        if !packet.has_payload() {
            return None;
        }
        if packet.scrambled() {
            return Some(UnitFault::Scrambled);
        }
        if !packet.unit_start() {
            return None;
        }
        match self.part_at(index, packet) {
            Ok(_) => None,
            Err(fault) => Some(fault),
        }
    }

    /// The unit that the next packet behind the head, which is of the stream of this number, would begin there, scrambled or not; `None` where
    /// it begins none. It is not taken.
    pub fn start_at(&self, index: usize, packet: &Packet) -> Option<UnitStart>
        requires { index < 8 }
        ensures { (pids : List ℕ) (past : List (List ℕ)) → Some index ≡ place_in pids packet.now
            → StartsRead self.now pids past → result ≡ start_in pids packet.now past }
    {
        if !packet.has_payload() {
            return None;
        }
        match self.readers[index].look(packet) {
            None => None,
            Some(payload) => Some(UnitStart {
                pts: stamp_in(payload),
            }),
        }
    }
}

/// The PTS of a unit with this payload in its first packet; `None` where it has none, or ends before the end of it.
fn stamp_in(payload: &[u8]) -> Option<Time33>
    ensures { result ≡ stamp_of payload.now }
{
    match PesHead::read(payload) {
        Ok(head) => head.pts(),
        Err(_) => None,
    }
}

/// The packet has a payload, which is not scrambled.
#[inline(always)]
pub(crate) fn is_clear(packet: &Packet) -> bool
    ensures { result ≡ is_clear packet.now }
{
    !packet.scrambled() && packet.has_payload()
}

/// The clock behind a packet that is this to its stream. It stands by itself, as few packets begin units.
#[tactic(auto, using(crate::proofs::PieceLemmas::high_start, crate::proofs::PieceLemmas::high_other))]
#[inline(never)]
fn passed(clock: Clock, part: StartPacket) -> Clock
    ensures { (pids : List ℕ) (pid : ℕ) (p : List ℕ) (past : List (List ℕ)) → IsOne pids pid p past
        → IsStartPacket part pids pid p past → ClockAt clock (high pids past) → ClockAt result (high pids (p ∷ past)) }
{
    let mut behind = clock;
    if let StartPacket::Start(begun) = part {
        behind.pass(begun);
    }
    behind
}

/// What a packet of a stream is, by the payload with which it begins a unit, if it begins one. The clock passes the begin.
#[tactic(auto, using(crate::proofs::PieceLemmas::high_start, crate::proofs::PieceLemmas::high_other, unit_stream::proofs::ClockLemmas::stamp_is, unit_stream::proofs::ClockLemmas::splits_is))]
#[inline(always)]
fn pass(clock: &mut Clock, begun: Option<&[u8]>) -> Result<StartPacket, UnitFault>
    ensures clock { (pids : List ℕ) (pid : ℕ) (p : List ℕ) (past : List (List ℕ)) → IsOne pids pid p past
        → ClockAt clock.old (high pids past) → IsBegin begun.entry pid p past
        → OnOk result (ClockAt clock.new (high pids (p ∷ past))) }
    ensures sound { (pids : List ℕ) (pid : ℕ) (p : List ℕ) (past : List (List ℕ)) → IsOne pids pid p past
        → ClockAt clock.old (high pids past) → IsBegin begun.entry pid p past
        → OnOk result (begin_fault pids pid p past ≡ None) }
    ensures is { (pids : List ℕ) (pid : ℕ) (p : List ℕ) (past : List (List ℕ)) → IsOne pids pid p past
        → ClockAt clock.old (high pids past) → IsBegin begun.entry pid p past
        → IfOk result (λ x. IsStartPacket x pids pid p past) }
    ensures err { (pids : List ℕ) (pid : ℕ) (p : List ℕ) (past : List (List ℕ)) → IsOne pids pid p past
        → ClockAt clock.old (high pids past) → IsBegin begun.entry pid p past
        → IfErr result (λ f. begin_fault pids pid p past ≡ Some f) }
{
    match begun {
        None => Ok(StartPacket::NoStart),
        Some(payload) => match clock.begin(payload) {
            Ok(start) => Ok(StartPacket::Start(start)),
            Err(fault) => Err(fault),
        },
    }
}

/// Feeds the reader of one stream a payload packet of it.
#[inline(always)]
fn feed_at<'a>(readers: &mut [StartReader; 8], index: usize, packet: &'a Packet) -> Option<&'a [u8]>
    requires { index < 8 }
    ensures others { (i : ℕ) (d : StartReader) → i ≢ index
        → slice_index_or readers.new i d ≡ slice_index_or readers.old i d }
    ensures reads { (d : StartReader) (pid : ℕ) (past : List (List ℕ)) → payload_on pid packet.now ≡ true
        → ReadsStarts (slice_index_or readers.old index d) pid past
        → ReadsStarts (slice_index_or readers.new index d) pid (packet.now ∷ past) }
    ensures begins { (d : StartReader) (pid : ℕ) (past : List (List ℕ)) → payload_on pid packet.now ≡ true
        → ReadsStarts (slice_index_or readers.old index d) pid past → IsBegin result pid packet.now past }
{
    readers[index].take(packet)
}

/// A reader for each stream.
fn readers_of(streams: &[Stream]) -> [StartReader; 8]
    requires { length streams.now ≤ 8 }
    ensures { AllStartsRead result (pids_in streams.now) [] }
{
    let mut readers = [StartReader::new(Pid::of_bits(0, 0)); 8];
    let mut index = 0;
    while index < streams.len() {
        readers[index] = StartReader::new(streams[index].pid);
        index += 1;
    }
    readers
}
