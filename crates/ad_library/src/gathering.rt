//! The units of a stream's first program, gathered packet by packet.

ghost use Rattle.std.specs.Prelude.{◌≡◌, ◌+◌, ◌∷◌, [], ℕ, List, Option, None, OnOk, IfOk, IfErr};
ghost use Rattle.std.specs.Prelude.{IfSome, IsSome, reverse, map, option_map, false};
ghost use Rattle.pes_time.specs.Line.{place};
ghost use Rattle.ts_packet.specs.Fields.{bytes};
ghost use Rattle.ts_packet.specs.Duplicates.{is_gap};
ghost use Rattle.unit_stream.specs.Times.{high};
ghost use Rattle.psi_tables.specs.declared.stream.Stream.{Stream};
ghost use Rattle.program_follower.specs.Faults.{pids_in};
ghost use Rattle.program_follower.specs.Program.{program_of};
ghost use Rattle.program_follower.specs.Streaming.{first_on, IsStreamPacket};
ghost use Rattle.program_follower.specs.Following.{FollowerStandsFor};
ghost use Rattle.ad_library.specs.Storing.{on_line};
ghost use Rattle.program_follower.specs.Purposes.{reading_advertisement};
ghost use Rattle.ad_library.specs.Faults.{ad_fault_at, IsWhatIsWrong, IsToldOf};
ghost use Rattle.ad_library.specs.Gathering.{Gathers, AllGathered, StreamsGathered, IsWholeStart, IsNearStart};
ghost use Rattle.ad_library.specs.Gathering.{HasWay, IsHeld, IsOfOne, StreamsStand, stream_in};

use crate::fault::{AdFault, of_follower};
use crate::gathered::Gathered;
use crate::line::pass;
use program_follower::{Place, ProgramFollower, Purpose, StreamPacket};
use psi_tables::Stream;
use std::alloc::{AllocError, Allocator};
use ts_packet::Packet;

/// How many packets an advertisement may have: the next one takes it past 67,108,864 bytes.
const MAX_PACKETS: u32 = 356_962;

/// Reads the first program of a stream, and keeps the units of its switched streams.
#[derive(Drop)]
pub struct Gathering<A: Allocator> {
    pub(crate) alloc: A,
    follower: ProgramFollower,
    /// The streams; none in the head.
    pub(crate) streams: Option<Vec<Gathered<A>, A>>,
    /// The greatest time of the units that have begun, 2^48 above the line.
    high: Option<u64>,
    packets: u32,
}

impl<A: Allocator + Copy> Gathering<A> {
    /// Nothing was read. It takes no memory.
    pub(crate) fn new(alloc: A) -> Gathering<A>
        ensures { Gathers result [] }
    {
        Gathering {
            alloc,
            follower: ProgramFollower::new(Purpose::advertisement()),
            streams: None,
            high: None,
            packets: 0,
        }
    }

    /// Takes the next packet.
    ///
    /// # Errors
    ///
    /// The first thing that is wrong with it; `OutOfMemory` only where nothing is.
    pub(crate) fn take(&mut self, packet: &Packet) -> Result<(), AdFault>
        requires { (past : List (List ℕ)) × Gathers self.old past }
        ensures ok { (past : List (List ℕ)) → Gathers self.old past
            → OnOk result (Gathers self.new (packet.now ∷ past)) }
        ensures sound { (past : List (List ℕ)) → Gathers self.old past
            → OnOk result (ad_fault_at packet.now past ≡ None) }
        ensures err { (past : List (List ℕ)) → Gathers self.old past
            → IfErr result (IsWhatIsWrong (ad_fault_at packet.now past)) }
    {
        if self.packets >= MAX_PACKETS {
            return Err(AdFault::Large);
        }
        self.packets += 1;
        let place = match self.follower.feed(packet) {
            Ok(place) => place,
            Err(fault) => return Err(of_follower(fault)),
        };
        match stream_of(&place) {
            Some((index, part)) => {
                match keep(&mut self.streams, &mut self.high, index, &part, packet) {
                    Ok(()) => Ok(()),
                    Err(fault) => Err(fault),
                }
            }
            None => match open(&mut self.streams, &self.follower, self.alloc) {
                Ok(()) => Ok(()),
                Err(fault) => Err(fault),
            },
        }
    }
}

/// Of which switched stream a packet is, where it is of one, and what it is there.
fn stream_of(place: &Place) -> Option<(usize, StreamPacket)>
    ensures { result ≡ stream_in place.now }
{
    match place {
        Place::Stream(index, part) => Some((*index, *part)),
        Place::Marked => None,
        Place::Cue => None,
        Place::Map => None,
        Place::Other => None,
    }
}

/// Takes a packet of the stream of this number.
fn keep<A: Allocator>(
    streams: &mut Option<Vec<Gathered<A>, A>>,
    high: &mut Option<u64>,
    index: usize,
    part: &StreamPacket,
    packet: &Packet,
) -> Result<(), AdFault>
    requires whole { IsWholeStart part.now (bytes packet.now) }
    requires near { IsNearStart part.now }
    requires way { IfSome high.old HasWay }
    ensures ok { (one : ℕ × ℕ) (ss : List Stream) (past : List (List ℕ))
        → IsOfOne streams.old high.old part.now index one ss packet.now past
        → OnOk result (StreamsStand streams.new high.new ss (packet.now ∷ past)) }
    ensures whole { (one : ℕ × ℕ) (ss : List Stream) (past : List (List ℕ))
        → IsOfOne streams.old high.old part.now index one ss packet.now past
        → OnOk result (is_gap one.1 packet.now past ≡ false) }
    ensures err { (one : ℕ × ℕ) (ss : List Stream) (past : List (List ℕ))
        → IsOfOne streams.old high.old part.now index one ss packet.now past
        → IfErr result (IsToldOf (is_gap one.1 packet.now past)) }
    ensures held { (count : ℕ) → IfSome high.old (IsHeld count) → IfSome high.new (IsHeld (count + 1)) }
{
    let time = pass(high, part);
    match streams {
        None => Ok(()),
        Some(streams) => match streams.get_mut(index) {
            None => Ok(()),
            Some(stream) => match stream.take(part, time, packet) {
                Ok(()) => Ok(()),
                Err(fault) => Err(fault),
            },
        },
    }
}

/// Begins to gather the switched streams, once the head is over.
fn open<A: Allocator + Copy>(
    streams: &mut Option<Vec<Gathered<A>, A>>,
    follower: &ProgramFollower,
    alloc: A,
) -> Result<(), AdFault>
    ensures same { IsSome streams.old → OnOk result (streams.new ≡ streams.old) }
    ensures opens { streams.old ≡ None → (past : List (List ℕ)) → FollowerStandsFor follower.now reading_advertisement past
        → OnOk result (StreamsGathered (option_map (λ v. v.items) streams.new) (program_of None past) []) }
    ensures err { IfErr result (λ f. f ≡ AdFault.OutOfMemory) }
{
    if streams.is_some() {
        return Ok(());
    }
    match begun(follower, alloc) {
        Ok(begun) => {
            *streams = begun;
            Ok(())
        }
        Err(_) => Err(AdFault::OutOfMemory),
    }
}

/// The switched streams, of which nothing was read; none in the head.
fn begun<A: Allocator + Copy>(
    follower: &ProgramFollower,
    alloc: A,
) -> Result<Option<Vec<Gathered<A>, A>>, AllocError>
    ensures { (past : List (List ℕ)) → FollowerStandsFor follower.now reading_advertisement past
        → IfOk result (λ s. StreamsGathered (option_map (λ v. v.items) s) (program_of None past) []) }
{
    if !follower.is_behind_head() {
        return Ok(None);
    }
    match none_of(follower.streams(), alloc) {
        Ok(none) => Ok(Some(none)),
        Err(refused) => Err(refused),
    }
}

/// Each of these streams, of which nothing was read.
fn none_of<A: Allocator + Copy>(
    switched: &[Stream],
    alloc: A,
) -> Result<Vec<Gathered<A>, A>, AllocError>
    ensures { IfOk result (λ v. (pids : List ℕ) → AllGathered v.items switched.now pids []) }
{
    let mut streams = Vec::new(alloc);
    for stream in switched {
        streams.push(Gathered::new(stream.kind, alloc))?;
    }
    Ok(streams)
}
