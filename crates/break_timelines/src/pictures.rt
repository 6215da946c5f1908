//! The pictures of a video, and by the bytes of its unit whether each is an entry picture.

ghost use Rattle.std.specs.Prelude.{◌≡◌, ◌∷◌, ◌++◌, [], ℕ, List, Option, Some, None, OnOk, IfOk, take};
ghost use Rattle.ts_packet.specs.Fields.{pid_of, bytes};
ghost use Rattle.ts_packet.specs.Duplicates.{original};
ghost use Rattle.break_timelines.specs.Timelines.{looked_at, judged, begun_at, pictures_of, pictures_behind};
ghost use Rattle.break_timelines.specs.Pictures.{FollowsUnit, OfUnit, with_open, ArePictures};

use break_choices::Picture;
use random_access::{VideoCoding, continues};
use std::alloc::{AllocError, Global};
use ts_packet::{Follower, Packet, Pid};

/// How many bytes of a unit are looked at.
const LOOKED_AT: usize = 1 << 16;

/// A picture, as far as the first packet of its unit tells.
#[derive(Clone, Copy, Debug, PartialEq, Eq)]
pub(crate) struct BegunPicture {
    /// How it is coded.
    pub(crate) coding: VideoCoding,
    /// When it is shown.
    pub(crate) time: u64,
    /// How many packets stand before that packet.
    pub(crate) packet: u64,
    /// It is a random access picture.
    pub(crate) is_random_access: bool,
}

impl BegunPicture {
    /// The picture, by the bytes of its unit.
    fn judged(&self, unit: &[u8]) -> Picture
        ensures { result ≡ judged self.now unit.now }
    {
        let front = &unit[..LOOKED_AT.min(unit.len())];
        Picture {
            time: self.time,
            packet: self.packet,
            is_entry: self.is_random_access && !continues(self.coding, front),
            is_clean: false,
        }
    }
}

/// The unit of a random access picture, from its first packet on.
#[derive(Clone, Copy, Debug)]
struct OpenUnit {
    picture: BegunPicture,
    /// That of its packets.
    pid: Pid,
    follower: Follower,
    /// The last payload packet on that PID.
    last: Packet,
}

impl OpenUnit {
    /// The unit of the picture that begins with this packet.
    fn new(picture: BegunPicture, packet: &Packet) -> OpenUnit
        ensures picture { result.picture ≡ picture }
        ensures follows { FollowsUnit result (pid_of packet.now) (packet.now ∷ []) }
    {
        let mut unit = OpenUnit {
            picture,
            pid: packet.pid(),
            follower: Follower::new(packet.pid()),
            last: Packet::null(),
        };
        let _ = unit.is_original(packet);
        unit
    }

    /// Takes the next packet, of whatever PID, and answers whether it is a payload packet of the unit's PID and no duplicate.
    fn is_original(&mut self, packet: &Packet) -> bool
        ensures picture { self.new.picture ≡ self.old.picture }
        ensures follows { OfUnit self.old (λ pid since. FollowsUnit self.new pid (packet.now ∷ since)) }
        ensures answer { OfUnit self.old (λ pid since. result ≡ original pid packet.now since) }
    {
        let is_original = self.follower.feed(packet, &self.last);
        if packet.has_payload_on(self.pid) {
            self.last = *packet;
        }
        is_original
    }
}

/// The pictures of a video, in the order of the stream.
#[derive(Drop)]
pub(crate) struct Pictures {
    /// Those of which it is known whether they are entry pictures.
    settled: Vec<Picture>,
    /// The unit of the one behind these.
    unfinished: Option<OpenUnit>,
    /// The bytes of that unit, as far as they are looked at.
    unit: Vec<u8>,
}

impl Pictures {
    /// None yet. It takes no memory.
    pub(crate) fn new(alloc: Global) -> Pictures
        ensures { (program : ℕ) → ArePictures result program [] }
    {
        Pictures {
            settled: Vec::new(alloc),
            unfinished: None,
            unit: Vec::new(alloc),
        }
    }

    /// Takes the next packet of the network, and the picture that begins with it.
    ///
    /// # Errors
    ///
    /// Where the allocator refused memory. No packet is to be fed behind that.
    pub(crate) fn feed(
        &mut self,
        packet: &Packet,
        begun: Option<BegunPicture>,
    ) -> Result<(), AllocError>
        ensures { (program : ℕ) (past : List (List ℕ)) → ArePictures self.old program past → begun ≡ begun_at program packet.now past
            → OnOk result (ArePictures self.new program (packet.now ∷ past)) }
    {
        match begun {
            None => self.go_on(packet),
            Some(picture) => {
                self.settle()?;
                self.begin(picture, packet)
            }
        }
    }

    /// Takes a packet with which no picture begins.
    fn go_on(&mut self, packet: &Packet) -> Result<(), AllocError>
        ensures { (program : ℕ) (past : List (List ℕ)) → ArePictures self.old program past → None ≡ begun_at program packet.now past
            → OnOk result (ArePictures self.new program (packet.now ∷ past)) }
    {
        let Some(open) = &mut self.unfinished else {
            return Ok(());
        };
        if !open.is_original(packet) {
            return Ok(());
        }
        if packet.unit_start() {
            return self.settle();
        }
        hold(&mut self.unit, packet)
    }

    /// The unit that was open has ended.
    fn settle(&mut self) -> Result<(), AllocError>
        ensures open { OnOk result (self.new.unfinished ≡ None) }
        ensures settled { OnOk result (self.new.settled.items
            ≡ with_open self.old.settled.items self.old.unfinished self.old.unit.items) }
    {
        if let Some(open) = &self.unfinished {
            self.settled
                .push(open.picture.judged(self.unit.as_slice()))?;
            self.unfinished = None;
        }
        Ok(())
    }

    /// The picture begins with this packet, and no unit is open.
    fn begin(&mut self, picture: BegunPicture, packet: &Packet) -> Result<(), AllocError>
        ensures { (program : ℕ) (past : List (List ℕ)) → self.old.unfinished ≡ None
            → ((after : List (List ℕ)) → pictures_behind program past (packet.now ∷ after) ≡ self.old.settled.items)
            → Some picture ≡ begun_at program packet.now past
            → OnOk result (ArePictures self.new program (packet.now ∷ past)) }
    {
        if !picture.is_random_access {
            self.settled.push(picture.judged(&[]))?;
            return Ok(());
        }
        self.unit.clear();
        hold(&mut self.unit, packet)?;
        self.unfinished = Some(OpenUnit::new(picture, packet));
        Ok(())
    }

    /// The pictures of all packets that were fed.
    ///
    /// # Errors
    ///
    /// Where the allocator refused memory.
    pub(crate) fn finish(mut self) -> Result<Vec<Picture>, AllocError>
        ensures { (program : ℕ) (past : List (List ℕ)) → ArePictures self program past
            → IfOk result (λ v. v.items ≡ pictures_of program past) }
    {
        self.settle()?;
        Ok(self.settled)
    }
}

/// Puts the payload of a packet behind the bytes of its unit, where those are not yet all that are looked at.
fn hold(unit: &mut Vec<u8>, packet: &Packet) -> Result<(), AllocError>
    ensures { OnOk result ((more : List ℕ) → take looked_at (unit.new.items ++ more)
        ≡ take looked_at (unit.old.items ++ (bytes packet.now ++ more))) }
{
    if unit.len() >= LOOKED_AT {
        return Ok(());
    }
    match packet.payload() {
        Some(payload) => unit.extend_from_slice(payload),
        None => Ok(()),
    }
}
