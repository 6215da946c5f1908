//! What was read of one switched stream.

ghost use Rattle.std.specs.Option.{option_or};
ghost use Rattle.std.specs.Prelude.{◌≡◌, ◌||◌, ℕ, List, [], ◌∷◌, Option, OnOk, IfErr, false};
ghost use Rattle.pes_time.specs.Stamps.{is_split};
ghost use Rattle.ts_packet.specs.Fields.{bytes};
ghost use Rattle.ts_packet.specs.Duplicates.{is_gap};
ghost use Rattle.ad_library.specs.Faults.{IsToldOf};
ghost use Rattle.ad_library.specs.Storing.{StoredUnit, Stores};
ghost use Rattle.ad_library.specs.Gathering.{added, IsWholeStart, IsGathered, GathersStream, is_next, is_repeat};

use crate::fault::AdFault;
use crate::store::UnitStore;
use program_follower::StreamPacket;
use std::alloc::{AllocError, Allocator};
use ts_packet::Packet;

/// The units of one switched stream, and where its counter stands.
#[derive(Drop)]
pub struct Gathered<A: Allocator> {
    /// `stream_type`.
    pub(crate) kind: u8,
    /// The continuity_counter of the last payload packet behind the head.
    pub(crate) counter: Option<u8>,
    pub(crate) store: UnitStore<A>,
}

impl<A: Allocator + Copy> Gathered<A> {
    /// Nothing was read of it. It takes no memory.
    pub(crate) fn new(kind: u8, alloc: A) -> Gathered<A>
        ensures stands { (pids : List ℕ) (pid : ℕ) → GathersStream result pids pid [] }
        ensures kind { result.kind ≡ kind }
    {
        Gathered {
            kind,
            counter: None,
            store: UnitStore::new(alloc),
        }
    }
}

impl<A: Allocator> Gathered<A> {
    /// Takes a packet of the stream; a unit that begins has this time of its own.
    ///
    /// # Errors
    ///
    /// `Loss` where a packet is missing before it, else `OutOfMemory`.
    pub(crate) fn take(
        &mut self,
        part: &StreamPacket,
        time: Option<u64>,
        packet: &Packet,
    ) -> Result<(), AdFault>
        requires { IsWholeStart part.now (bytes packet.now) }
        ensures kind { self.new.kind ≡ self.old.kind }
        ensures ok { (pids : List ℕ) (pid : ℕ) (past : List (List ℕ)) → GathersStream self.old pids pid past
            → IsGathered part.now time pids pid packet.now past → OnOk result (GathersStream self.new pids pid (packet.now ∷ past)) }
        ensures whole { (pids : List ℕ) (pid : ℕ) (past : List (List ℕ)) → GathersStream self.old pids pid past
            → IsGathered part.now time pids pid packet.now past → OnOk result (is_gap pid packet.now past ≡ false) }
        ensures err { (pids : List ℕ) (pid : ℕ) (past : List (List ℕ)) → GathersStream self.old pids pid past
            → IsGathered part.now time pids pid packet.now past
            → IfErr result (IsToldOf (is_gap pid packet.now past)) }
    {
        let Some(payload) = packet.payload() else {
            return Ok(());
        };
        let is_whole = goes_on(part, self.counter, packet.counter());
        self.counter = Some(packet.counter());
        if !is_whole {
            return Err(AdFault::Loss);
        }
        match add(&mut self.store, part, time, packet.random_access(), payload) {
            Ok(()) => Ok(()),
            Err(_) => Err(AdFault::OutOfMemory),
        }
    }
}

/// No packet is missing before one with this counter.
fn goes_on(part: &StreamPacket, last: Option<u8>, counter: u8) -> bool
    ensures { result ≡ (is_repeat part.now || is_next last counter) }
{
    is_repeat(part) || is_next(last, counter)
}

/// A duplicate, which is no packet of its own.
fn is_repeat(part: &StreamPacket) -> bool
    ensures { result ≡ is_repeat part.now }
{
    match part {
        StreamPacket::Repeat => true,
        StreamPacket::Start(_) => false,
        StreamPacket::More => false,
        StreamPacket::Lead => false,
        StreamPacket::NoPayload => false,
    }
}

/// No packet is missing between those with these counters.
fn is_next(last: Option<u8>, counter: u8) -> bool
    ensures { result ≡ is_next last counter }
{
    match last {
        None => true,
        Some(last) => u16::from(counter) == (u16::from(last) + 1) % 16,
    }
}

/// Adds a packet's payload to the units of its stream.
fn add<A: Allocator>(
    store: &mut UnitStore<A>,
    part: &StreamPacket,
    time: Option<u64>,
    random_access: bool,
    payload: &[u8],
) -> Result<(), AllocError>
    requires { IsWholeStart part.now payload.now }
    ensures { (us : List StoredUnit) → Stores store.old us
        → OnOk result (Stores store.new (added part.now time random_access payload.now us)) }
{
    match part {
        StreamPacket::Start(_) => match first_of(time, store.last_time()) {
            None => Ok(()),
            Some(time) => store.begin(time, random_access, payload),
        },
        StreamPacket::More => store.go_on(payload),
        StreamPacket::Lead => store.go_on(payload),
        StreamPacket::Repeat => Ok(()),
        StreamPacket::NoPayload => Ok(()),
    }
}

/// The first time that is there.
fn first_of(time: Option<u64>, before: Option<u64>) -> Option<u64>
    ensures { result ≡ option_or time before }
{
    match time {
        Some(time) => Some(time),
        None => before,
    }
}
