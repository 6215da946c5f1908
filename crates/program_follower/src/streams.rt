//! The switched streams behind the head: where their units begin, and the greatest time of these.

ghost use Rattle.std.specs.Prelude.{◌≡◌, ◌<◌, ◌≤◌, ◌≢◌, ◌∷◌, [], ℕ, List, length, Option, Some, None, option_map};
ghost use Rattle.std.specs.Prelude.{OnOk, IfOk, IfErr, slice_index_or, true};
ghost use Rattle.pes_time.specs.Line.{ring_of};
ghost use Rattle.ts_packet.specs.Fields.{payload_on};
ghost use Rattle.unit_stream.specs.Faults.{unit_fault};
ghost use Rattle.unit_stream.specs.Times.{high};
ghost use Rattle.unit_stream.specs.Pieces.{Reads, Brings};
ghost use Rattle.unit_stream.specs.Clocks.{ClockAt};
ghost use Rattle.program_follower.specs.Faults.{pids_in};
ghost use Rattle.program_follower.specs.Streaming.{AllRead, StreamsRead, IsOne, begin_fault, IsStreamPacket, IsOfStream};

use crate::places::StreamPlaces;
use pes_time::Time33;
use psi_tables::Stream;
use ts_packet::{Packet, Pid};
use unit_stream::{Begun, Clock, Piece, UnitFault, UnitReader};

/// What a packet of a switched stream is, behind the head.
#[derive(Clone, Copy, Debug, PartialEq, Eq)]
pub enum StreamPacket {
    /// A unit begins. Its PTS, and how far that lies past the greatest time before it; `None` where it has no PTS.
    Start(Option<Begun>),
    /// The unit that has begun last in the stream goes on.
    More,
    /// A duplicate of the stream's payload packet before it. It shares the fate of that one, and belongs to no unit.
    Repeat,
    /// A payload packet before the stream's first unit. It belongs to none.
    Lead,
    /// A packet without payload.
    NoPayload,
}

/// Follows the units of up to eight switched streams.
#[derive(Drop)]
pub struct Streams {
    places: StreamPlaces,
    clock: Clock,
    readers: [UnitReader; 8],
}

impl Streams {
    /// The streams at the end of the head.
    pub fn new(streams: &[Stream]) -> Streams
        requires { length streams.now ≤ 8 }
        ensures { StreamsRead result (pids_in streams.now) [] }
    {
        Streams {
            places: StreamPlaces::new(streams),
            clock: Clock::new(),
            readers: readers_of(streams),
        }
    }

    /// The greatest time of the units that have begun; `None` where none with a PTS has.
    #[inline(always)]
    pub fn high(&self) -> Option<Time33>
        ensures { (pids : List ℕ) (past : List (List ℕ)) → StreamsRead self.now pids past
            → result ≡ option_map ring_of (high pids past) }
    {
        self.clock.high()
    }

    /// Takes the next packet behind the head, of whatever PID: the number of its stream among these and what it is there, or `None`
    /// where it is of none.
    ///
    /// # Errors
    ///
    /// The first of `Scrambled`, `HeaderSplit` and `TimeJump` that applies.
    #[inline(always)]
    pub fn feed(&mut self, packet: &Packet) -> Result<Option<(usize, StreamPacket)>, UnitFault>
        ensures reads { (pids : List ℕ) (past : List (List ℕ)) → StreamsRead self.old pids past
            → OnOk result (StreamsRead self.new pids (packet.now ∷ past)) }
        ensures ok { (pids : List ℕ) (past : List (List ℕ)) → StreamsRead self.old pids past
            → OnOk result (unit_fault pids packet.now past ≡ None) }
        ensures is { (pids : List ℕ) (past : List (List ℕ)) → StreamsRead self.old pids past
            → IfOk result (λ x. IsOfStream x pids packet.now past) }
        ensures err { (pids : List ℕ) (past : List (List ℕ)) → StreamsRead self.old pids past
            → IfErr result (λ f. unit_fault pids packet.now past ≡ Some f) }
    {
        let Some(index) = self.places.place_of(packet) else {
            return Ok(None);
        };
        if packet.has_scrambled_payload() {
            return Err(UnitFault::Scrambled);
        }
        let piece = feed_at(&mut self.readers, index, packet);
        match stream_packet(&mut self.clock, piece) {
            Ok(part) => Ok(Some((index, part))),
            Err(fault) => Err(fault),
        }
    }
}

/// What a packet of a stream is, by what it brings to the stream's units. The clock passes the begin of a unit.
#[tactic(auto, using(crate::proofs::PieceLemmas::high_start, crate::proofs::PieceLemmas::high_other, unit_stream::proofs::ClockLemmas::begins_not, unit_stream::proofs::ClockLemmas::begins_repeat, unit_stream::proofs::ClockLemmas::begins_off, unit_stream::proofs::ClockLemmas::stamp_is, unit_stream::proofs::ClockLemmas::splits_is))]
#[inline(always)]
fn stream_packet(clock: &mut Clock, piece: Piece<'_>) -> Result<StreamPacket, UnitFault>
    ensures clock { (pids : List ℕ) (pid : ℕ) (p : List ℕ) (past : List (List ℕ)) → IsOne pids pid p past
        → ClockAt clock.old (high pids past) → Brings piece.entry pid p past
        → OnOk result (ClockAt clock.new (high pids (p ∷ past))) }
    ensures sound { (pids : List ℕ) (pid : ℕ) (p : List ℕ) (past : List (List ℕ)) → IsOne pids pid p past
        → ClockAt clock.old (high pids past) → Brings piece.entry pid p past
        → OnOk result (begin_fault pids pid p past ≡ None) }
    ensures is { (pids : List ℕ) (pid : ℕ) (p : List ℕ) (past : List (List ℕ)) → IsOne pids pid p past
        → ClockAt clock.old (high pids past) → Brings piece.entry pid p past
        → IfOk result (λ x. IsStreamPacket x pids pid p past) }
    ensures err { (pids : List ℕ) (pid : ℕ) (p : List ℕ) (past : List (List ℕ)) → IsOne pids pid p past
        → ClockAt clock.old (high pids past) → Brings piece.entry pid p past
        → IfErr result (λ f. begin_fault pids pid p past ≡ Some f) }
{
    match piece {
        Piece::Start { payload } => match clock.begin(payload) {
            Ok(begun) => Ok(StreamPacket::Start(begun)),
            Err(fault) => Err(fault),
        },
        Piece::More { .. } => Ok(StreamPacket::More),
        Piece::Duplicate => Ok(StreamPacket::Repeat),
        Piece::Lead => Ok(StreamPacket::Lead),
        Piece::NoPayload => Ok(StreamPacket::NoPayload),
        Piece::Error => Ok(StreamPacket::NoPayload),
    }
}

/// Feeds the reader of one stream.
#[inline(always)]
fn feed_at<'a>(readers: &mut [UnitReader; 8], index: usize, packet: &'a Packet) -> Piece<'a>
    requires { index < 8 }
    ensures others { (i : ℕ) (d : UnitReader) → i ≢ index
        → slice_index_or readers.new i d ≡ slice_index_or readers.old i d }
    ensures reads { (d : UnitReader) (pid : ℕ) (past : List (List ℕ))
        → Reads (slice_index_or readers.old index d) pid past
        → Reads (slice_index_or readers.new index d) pid (packet.now ∷ past) }
    ensures brings { (d : UnitReader) (pid : ℕ) (past : List (List ℕ))
        → Reads (slice_index_or readers.old index d) pid past → Brings result pid packet.now past }
{
    readers[index].feed(packet)
}

/// A reader for each stream.
fn readers_of(streams: &[Stream]) -> [UnitReader; 8]
    requires { length streams.now ≤ 8 }
    ensures { AllRead result (pids_in streams.now) [] }
{
    let mut readers = [UnitReader::new(Pid::of_bits(0, 0)); 8];
    let mut index = 0;
    while index < streams.len() {
        readers[index] = UnitReader::new(streams[index].pid);
        index += 1;
    }
    readers
}
