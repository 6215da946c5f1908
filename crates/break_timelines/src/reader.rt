//! The timeline of a program, read packet by packet.

ghost use Rattle.std.specs.Prelude.{◌≡◌, ◌∷◌, ◌++◌, [], ℕ, ℤ, List, Option, Some, None, OnOk, IfOk, IfErr, option_map, ◌||◌};
ghost use Rattle.std.specs.Option.{option_to_list};
ghost use Rattle.pes_time.specs.Line.{ring_of};
ghost use Rattle.program_follower.specs.Faults.{network_fault};
ghost use Rattle.program_follower.specs.Following.{IsStartPlace, high_of};
ghost use Rattle.break_timelines.specs.Line.{tick_of, IsPast, Follows};
ghost use Rattle.break_timelines.specs.Timelines.{planning, timed_at, has_place, is_of, first_with};
ghost use Rattle.break_timelines.specs.Timelines.{begun_with, begun_of, begun_at, risen};
ghost use Rattle.break_timelines.specs.Standing.{ReaderStandsFor, ReaderMeets, IsRise, SaysOf, IsTimelineOf};

use crate::cleaning::{clean, lesser_of};
use crate::line::{TooLong, risen, time_of};
use crate::pictures::{BegunPicture, Pictures};
use crate::timeline::Timeline;
use crate::video::{Video, video_of};
use break_choices::Mark;
use pes_time::Time33;
use program_follower::{Purpose, StartFollower, StartPacket, StartPlace};
use psi_tables::NetworkFault;
use random_access::{Marks, VideoCoding};
use std::alloc::{AllocError, Global};
use thiserror::Error;
use ts_packet::Packet;

/// Why a network has no timeline.
#[derive(Clone, Copy, Debug, PartialEq, Eq, Drop, Error)]
pub enum TimelineFault {
    /// What is wrong with its program.
    #[error("{0}")]
    Network(NetworkFault),
    /// A time or the number of its packets is none of 64 bits.
    #[error("the network is too long")]
    Long,
    /// Memory was refused.
    #[error("memory was refused")]
    OutOfMemory,
}

/// Reads the timeline of a program.
#[derive(Drop)]
pub struct TimelineReader {
    follower: StartFollower,
    /// How many packets were fed.
    packets: u64,
    /// The greatest time so far.
    high: Option<u64>,
    /// The earliest of the first times of the streams so far.
    first: Option<u64>,
    /// The numbers of the streams in which a unit with a time has begun.
    begun: Vec<usize>,
    pictures: Pictures,
    marks: Vec<Mark>,
}

impl TimelineReader {
    /// Of the program of this number, before any packet. It takes no memory.
    pub fn new(alloc: Global, program: u16) -> TimelineReader
        ensures { ReaderStandsFor result program [] }
    {
        let purpose = Purpose {
            program: Some(program),
            cue_pid: None,
            writes_cues: false,
        };
        TimelineReader {
            follower: StartFollower::new(purpose),
            packets: 0,
            high: None,
            first: None,
            begun: Vec::new(alloc),
            pictures: Pictures::new(alloc),
            marks: Vec::new(alloc),
        }
    }

    /// Takes the next packet of the network.
    ///
    /// # Errors
    ///
    /// What is wrong with it; `Long`; or `OutOfMemory` where the allocator refused memory. No packet is to be fed behind a fault.
    pub fn feed(&mut self, packet: &Packet) -> Result<(), TimelineFault>
        ensures stands { (program : ℕ) (past : List (List ℕ)) → ReaderStandsFor self.old program past
            → OnOk result (ReaderStandsFor self.new program (packet.now ∷ past)) }
        ensures sound { (program : ℕ) (past : List (List ℕ)) → ReaderStandsFor self.old program past
            → OnOk result (network_fault (planning program) packet.now past ≡ None) }
        ensures err { (program : ℕ) (past : List (List ℕ)) → ReaderStandsFor self.old program past
            → IfErr result (λ f. SaysOf f (network_fault (planning program) packet.now past)) }
    {
        let earlier = self.follower.high();
        let place = match self.follower.feed(packet) {
            Ok(place) => place,
            Err(fault) => return Err(TimelineFault::Network(fault)),
        };
        let Ok(timed) = timed_at(place, self.high) else {
            return Err(TimelineFault::Long);
        };
        let Ok(rise) = self.rise(earlier) else {
            return Err(TimelineFault::Long);
        };
        let begun = self.begun_at(timed, packet);
        match self.take(timed, packet, begun, rise) {
            Ok(()) => Ok(()),
            Err(_) => Err(TimelineFault::OutOfMemory),
        }
    }

    /// The picture that begins with a packet that the follower was fed, where this unit does.
    fn begun_at(&self, timed: Option<Timed>, packet: &Packet) -> Option<BegunPicture>
        ensures { (program : ℕ) (past : List (List ℕ)) → ReaderMeets self.now program packet.now past
            → timed ≡ timed_at program packet.now past → result ≡ begun_at program packet.now past }
    {
        let video = video_of(self.follower.streams());
        begun_of(video, timed, packet, self.packets)
    }

    /// What a packet that the follower was fed is to the greatest time, whose stamp before it this was.
    fn rise(&self, earlier: Option<Time33>) -> Result<Rise, TooLong>
        ensures { (program : ℕ) (p : List ℕ) (past : List (List ℕ)) → ReaderMeets self.now program p past
            → earlier ≡ option_map ring_of (high_of (Some program) past)
            → IfOk result (λ rise. IsRise rise program p past) }
    {
        let Some(packets) = self.packets.checked_add(1) else {
            return Err(TooLong);
        };
        match risen(self.high, earlier, self.follower.high()) {
            Ok(high) => Ok(Rise {
                packets,
                high,
                mark: mark_of(self.high, high, packets),
            }),
            Err(TooLong) => Err(TooLong),
        }
    }

    /// Takes a packet that the follower was fed, and what it is.
    fn take(
        &mut self,
        timed: Option<Timed>,
        packet: &Packet,
        begun: Option<BegunPicture>,
        rise: Rise,
    ) -> Result<(), AllocError>
        ensures { (program : ℕ) (past : List (List ℕ)) → ReaderMeets self.old program packet.now past
            → timed ≡ timed_at program packet.now past → begun ≡ begun_at program packet.now past
            → IsRise rise program packet.now past → OnOk result (ReaderStandsFor self.new program (packet.now ∷ past)) }
    {
        self.pictures.feed(packet, begun)?;
        add_mark(&mut self.marks, rise.mark)?;
        self.first = first_with(timed, self.begun.as_slice(), self.first);
        add_begun(&mut self.begun, timed)?;
        self.packets = rise.packets;
        self.high = rise.high;
        Ok(())
    }

    /// The timeline of all packets that were fed.
    ///
    /// # Errors
    ///
    /// `OutOfMemory` where the allocator refused memory.
    pub fn finish(self) -> Result<Timeline, TimelineFault>
        ensures ok { (program : ℕ) (past : List (List ℕ)) → ReaderStandsFor self program past
            → IfOk result (λ timeline. IsTimelineOf timeline program past) }
        ensures err { IfErr result (λ fault. fault ≡ TimelineFault.OutOfMemory) }
    {
        let Ok(mut pictures) = self.pictures.finish() else {
            return Err(TimelineFault::OutOfMemory);
        };
        clean(pictures.as_mut_slice());
        Ok(Timeline {
            follower: self.follower,
            first: self.first,
            pictures,
            marks: self.marks,
        })
    }
}

/// What a packet is to the greatest time.
#[derive(Clone, Copy, Debug, PartialEq, Eq)]
struct Rise {
    /// How many packets were fed, with this one.
    packets: u64,
    /// The greatest time behind it.
    high: Option<u64>,
    /// The mark, where that is another one than before.
    mark: Option<Mark>,
}

/// A unit with a time that begins in a switched stream.
#[derive(Clone, Copy, Debug, PartialEq, Eq)]
struct Timed {
    /// The number of the stream in the order of the map, from 0.
    index: usize,
    /// Its time.
    time: u64,
}

/// The unit with a time that begins with a packet, by what that is to the follower, at a greatest time.
fn timed_at(place: StartPlace, high: Option<u64>) -> Result<Option<Timed>, TooLong>
    ensures { (program : ℕ) (p : List ℕ) (past : List (List ℕ)) → IsStartPlace place (planning program) p past
        → high ≡ option_map tick_of (high_of (Some program) past) → IsPast (high_of (Some program) past)
        → IfOk result (λ x. x ≡ timed_at program p past) }
{
    match place {
        StartPlace::Map => Ok(None),
        StartPlace::Cue => Ok(None),
        StartPlace::Other => Ok(None),
        StartPlace::Stream(_, StartPacket::NoStart) => Ok(None),
        StartPlace::Stream(_, StartPacket::Start(None)) => Ok(None),
        StartPlace::Stream(index, StartPacket::Start(Some(begun))) => match time_of(high, begun) {
            Some(time) => Ok(Some(Timed { index, time })),
            None => Err(TooLong),
        },
    }
}

/// Whether a unit with a time has begun in the stream of this number.
fn has_place(begun: &[usize], place: usize) -> bool
    ensures { result ≡ has_place place begun.now }
{
    let mut rest = begun;
    while let Some((one, behind)) = rest.split_first() {
        if *one == place {
            return true;
        }
        rest = behind;
    }
    false
}

/// The first time, with a unit that begins.
fn first_with(timed: Option<Timed>, begun: &[usize], first: Option<u64>) -> Option<u64>
    ensures { result ≡ first_with timed (λ place. has_place place begun.now) first }
{
    match timed {
        None => first,
        Some(timed) => {
            if has_place(begun, timed.index) {
                first
            } else {
                Some(lesser_of(first, timed.time))
            }
        }
    }
}

/// Notes that a unit with a time has begun.
fn add_begun(begun: &mut Vec<usize>, timed: Option<Timed>) -> Result<(), AllocError>
    ensures { OnOk result ((place : ℕ) → has_place place begun.new.items ≡ is_of place timed || has_place place begun.old.items) }
{
    let Some(timed) = timed else {
        return Ok(());
    };
    if !has_place(begun.as_slice(), timed.index) {
        begun.push(timed.index)?;
    }
    Ok(())
}

/// The picture that begins with a packet before which so many stand, where this unit does, if it is of the video.
fn begun_of(
    video: Option<Video>,
    timed: Option<Timed>,
    packet: &Packet,
    before: u64,
) -> Option<BegunPicture>
    ensures { result ≡ begun_of video timed packet.now before }
{
    match video {
        None => None,
        Some(video) => match timed {
            None => None,
            Some(timed) => {
                if video.index == timed.index {
                    Some(begun_with(video.coding, before, packet, timed.time))
                } else {
                    None
                }
            }
        },
    }
}

/// The picture of a coding that begins with a packet before which so many stand.
fn begun_with(coding: VideoCoding, before: u64, packet: &Packet, time: u64) -> BegunPicture
    ensures { result ≡ begun_with coding before packet.now time }
{
    BegunPicture {
        coding,
        time,
        packet: before,
        is_random_access: Marks::of(packet).mark_for(Some(coding)).is_some(),
    }
}

/// The mark before the packet behind which so many were fed, where the greatest time is another one there.
fn mark_of(before: Option<u64>, after: Option<u64>, packets: u64) -> Option<Mark>
    ensures { (earlier later : Option ℤ) → before ≡ option_map tick_of earlier → after ≡ option_map tick_of later
        → IsPast earlier → Follows earlier later → option_to_list result ≡ risen earlier later packets }
{
    let high = after?;
    match before {
        Some(before) if high <= before => None,
        _ => Some(Mark {
            packet: packets,
            high,
        }),
    }
}

/// Puts a mark behind others, where there is one.
fn add_mark(marks: &mut Vec<Mark>, mark: Option<Mark>) -> Result<(), AllocError>
    ensures { OnOk result (marks.new.items ≡ marks.old.items ++ option_to_list mark) }
{
    if let Some(mark) = mark {
        marks.push(mark)?;
    }
    Ok(())
}
