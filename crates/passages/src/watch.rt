//! What a run with `--verbose` tells of a stream: how far it went, and the units of the PID in it.

ghost use Rattle.std.specs.Prelude.{◌≡◌, Some};
ghost use Rattle.ts_packet.specs.Fields.{pid_of};
ghost use Rattle.passages.specs.Watching.{with_stamp, nothing_seen, with_packet, with_begun, without_packet, last_number};

use pes_time::{PesHead, Time33};
use std::fmt;
use ts_packet::{
    GatheringSink, Packet, PacketSink, PacketSource, PausingPackets, Pid, PutFault, ReadFault,
};
use unit_stream::{Piece, UnitReader};

/// The least and the greatest time stamp of some units, on the line through any number of wraps of the clock.
#[derive(Clone, Copy, Debug, PartialEq, Eq)]
pub struct StampRange {
    least: Time33,
    greatest: Time33,
}

impl StampRange {
    /// The range after one more stamp.
    fn with(range: Option<StampRange>, pts: Time33) -> StampRange
        ensures { result ≡ with_stamp range pts }
    {
        let Some(range) = range else {
            return StampRange {
                least: pts,
                greatest: pts,
            };
        };
        StampRange {
            least: if pts.signed_from(range.least) < 0 {
                pts
            } else {
                range.least
            },
            greatest: if pts.signed_from(range.greatest) > 0 {
                pts
            } else {
                range.greatest
            },
        }
    }
}

impl fmt::Display for StampRange {
    fn fmt<W: fmt::Write>(&self, f: &mut fmt::Formatter<W>) -> fmt::Result {
        let (least, greatest) = (self.least.ticks(), self.greatest.ticks());
        write!(f, "{least} to {greatest}")
    }
}

/// What was seen of a stream.
#[derive(Clone, Copy, Debug)]
pub struct Watch {
    packets: u64,
    last: Option<Pid>,
    was_refused: bool,
    units: u64,
    stamps: Option<StampRange>,
}

impl Watch {
    /// Nothing was seen.
    pub fn new() -> Watch
        ensures { result ≡ nothing_seen }
    {
        Watch {
            packets: 0,
            last: None,
            was_refused: false,
            units: 0,
            stamps: None,
        }
    }

    /// Sees this packet go by.
    fn see(&mut self, packet: &Packet)
        ensures { self.new ≡ with_packet (pid_of packet.now) self.old }
    {
        self.packets = self.packets.saturating_add(1);
        self.last = Some(packet.pid());
    }

    /// Sees a unit begin with this payload.
    fn see_unit(&mut self, payload: &[u8])
        ensures { self.new ≡ with_begun payload.now self.old }
    {
        self.units = self.units.saturating_add(1);
        if let Ok(head) = PesHead::read(payload)
            && let Some(pts) = head.pts()
        {
            self.stamps = Some(StampRange::with(self.stamps, pts));
        }
    }

    /// Sees that what comes next is no packet.
    fn refuse(&mut self)
        ensures { self.new ≡ without_packet self.old }
    {
        self.last = None;
        self.was_refused = true;
    }

    /// How many packets went by.
    pub fn packets(&self) -> u64
        ensures { result ≡ self.now.packets }
    {
        self.packets
    }

    /// How many units of the PID have begun in them.
    pub fn units(&self) -> u64
        ensures { result ≡ self.now.units }
    {
        self.units
    }

    /// The time stamps of these units.
    pub fn stamps(&self) -> Option<StampRange>
        ensures { result ≡ self.now.stamps }
    {
        self.stamps
    }

    /// The number, from 0, of the last packet, or of what was no packet behind it.
    pub fn last_packet(&self) -> u64
        ensures { result ≡ last_number self.now }
    {
        if self.was_refused {
            self.packets
        } else {
            self.packets.saturating_sub(1)
        }
    }

    /// The PID of the last packet, where it was one.
    pub fn last_pid(&self) -> Option<Pid>
        ensures { result ≡ self.now.last }
    {
        self.last
    }
}

/// A source or a sink whose packets are watched.
#[derive(Drop)]
pub struct Watched<'a, D> {
    inner: &'a mut D,
    units: UnitReader,
    watch: Watch,
}

impl<'a, D> Watched<'a, D> {
    /// Watches the units of this PID.
    pub fn new(inner: &'a mut D, pid: Pid) -> Watched<'a, D>
        ensures same { result.inner.ghost_name ≡ inner.entry.ghost_name }
        ensures inner { result.inner.now ≡ inner.old }
        ensures watch { result.watch ≡ nothing_seen }
    {
        Watched {
            inner,
            units: UnitReader::new(pid),
            watch: Watch::new(),
        }
    }

    /// Sees this packet go by.
    fn see(&mut self, packet: &Packet)
        ensures inner { self.new.inner ≡ self.old.inner }
        ensures packets { self.new.watch.packets ≡ (with_packet (pid_of packet.now) self.old.watch).packets }
        ensures last { self.new.watch.last ≡ Some (pid_of packet.now) }
        ensures refused { self.new.watch.was_refused ≡ self.old.watch.was_refused }
    {
        self.watch.see(packet);
        if let Piece::Start { payload } = self.units.feed(packet) {
            self.watch.see_unit(payload);
        }
    }

    /// What was seen so far.
    pub fn seen(&self) -> Watch
        ensures { result ≡ self.now.watch }
    {
        self.watch
    }
}

impl<P: PacketSource> PacketSource for Watched<'_, P> {
    ghost use Rattle.std.specs.Prelude.{◌≡◌};
    ghost use Rattle.std.proofs.Common.{refl, ◌∙◌};

    ghost left = { λ w. P.left w.inner.now };

    ghost counts = { λ w. P.counts w.inner.now };

    ghost given = { λ w. P.given w.inner.now };

    ghost is_broken = { λ w. P.is_broken w.inner.now };

    ghost has_ended = { λ w. P.has_ended w.inner.now };

    ghost leads = { λ v w. (w.inner.ghost_name ≡ v.inner.ghost_name) × P.leads v.inner.now w.inner.now };

    ghost falls_short = { λ v w. P.falls_short v.inner.now w.inner.now };

    ghost most_calls = { λ v w. P.most_calls v.inner.now w.inner.now };

    ghost is_spent = { λ w. P.is_spent w.inner.now };

    ghost leads_refl = { λ s. (refl, P.leads_refl s.inner.now) };

    ghost leads_trans = { λ s t u h k. (k.0 ∙ h.0, P.leads_trans s.inner.now t.inner.now u.inner.now h.1 k.1) };

    fn read_packet(&mut self, packet: &mut Packet) -> Result<bool, ReadFault> {
        match self.inner.read_packet(packet) {
            Ok(true) => {
                self.see(packet);
                Ok(true)
            }
            Ok(false) => Ok(false),
            Err(ReadFault::Failed) => Err(ReadFault::Failed),
            Err(fault) => {
                self.watch.refuse();
                Err(fault)
            }
        }
    }
}

impl<P: PausingPackets> PausingPackets for Watched<'_, P> {
    ghost next_may_wait = { λ w. P.next_may_wait w.inner.now };

    fn next_may_wait(&self) -> bool {
        self.inner.next_may_wait()
    }
}

impl<K: PacketSink> PacketSink for Watched<'_, K> {
    ghost use Rattle.std.specs.Prelude.{◌≡◌, true};
    ghost use Rattle.std.proofs.Common.{refl, ap, ◌∙◌};

    ghost holds = { λ w start ps. K.holds w.inner.now start ps };

    ghost fails = { λ w start ps p f. K.fails w.inner.now start ps p f };

    ghost is_broken = { λ w. K.is_broken w.inner.now };

    ghost counts = { λ w. K.counts w.inner.now };

    ghost is_full = { λ w. K.is_full w.inner.now };

    ghost leads = { λ v w. (w.inner.ghost_name ≡ v.inner.ghost_name) × K.leads v.inner.now w.inner.now
        × (K.is_broken v.inner.now ≡ true → w ≡ v) };

    ghost leads_refl = { λ s. (refl, K.leads_refl s.inner.now, λ b. refl) };

    ghost leads_trans = { λ s t u h k. (
      k.0 ∙ h.0,
      K.leads_trans s.inner.now t.inner.now u.inner.now h.1 k.1,
      λ b. k.2 (ap (λ w. K.is_broken w.inner.now) (h.2 b) ∙ b) ∙ h.2 b,
    ) };

    ghost leads_later = { λ s t h. K.leads_later s.inner.now t.inner.now h.1 };

    ghost leads_full = { λ s t h. K.leads_full s.inner.now t.inner.now h.1 };

    ghost leads_spent = { λ s t h. h.2 };

    fn put(&mut self, packet: &Packet) -> Result<(), PutFault> {
        match self.inner.put(packet) {
            Ok(()) => {
                self.see(packet);
                Ok(())
            }
            Err(fault) => Err(fault),
        }
    }
}

impl<K: GatheringSink> GatheringSink for Watched<'_, K> {
    ghost has_sent = { λ w. K.has_sent w.inner.now };

    ghost fails_to_send = { λ w start ps f. K.fails_to_send w.inner.now start ps f };

    fn send(&mut self) -> Result<(), PutFault> {
        self.inner.send()
    }
}
