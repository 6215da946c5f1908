//! Packets that are passed on unjudged: they are read as ones that are marked in error (ISO/IEC 13818-1, 2.4.3.3, transport_error_indicator),
//! of which nothing is relied on, and go out as they came.

ghost use Rattle.std.specs.Prelude.{◌≡◌, ℕ, List, [], ◌∷◌, ◌++◌, Option, OnOk, IfErr};
ghost use Rattle.ts_packet.specs.Fields.{marked};
ghost use Rattle.ts_packet.specs.Sinks.{Blamed};
ghost use Rattle.ts_packet.specs.Transfers.{WentWell};
ghost use Rattle.program_follower.specs.declared.purpose.Purpose.{Purpose as FollowedFor};
ghost use Rattle.injector.specs.Injecting.{InjectorStandsFor};
ghost use Rattle.injector.specs.Steps.{Step, Packet as PacketStep};
ghost use Rattle.ad_library.specs.Library.{held};
ghost use Rattle.splice_plans.specs.Adverts.{setting_of};
ghost use Rattle.splice_plans.specs.Stepping.{Journey, puts_beside, journey_beside};
ghost use Rattle.splice_switch.specs.Standing.{SwitchFollows, SwitchStandsAt};
ghost use Rattle.chain_engine.specs.Airing.{Aired, unjudged};
ghost use Rattle.chain_engine.specs.Chained.{ServiceAirs, PassedOnAir};

use crate::faults::put_fault;
use crate::service::{Service, of_bytes};
use ad_library::AdLibrary;
use psi_tables::Config;
use splice_switch::Switch;
use ts_packet::{Packet, PacketSink, PutFault};

/// The packet, marked in error.
pub(crate) fn marked(packet: &Packet) -> Packet
    ensures { result ≡ marked packet.now }
{
    let mut marked = *packet;
    marked.mark_in_error();
    marked
}

/// A sink that puts a packet as it came in the place of one that is marked in error.
#[derive(Drop)]
pub(crate) struct Restoring<'a, K: PacketSink> {
    pub(crate) packet: &'a Packet,
    pub(crate) out: &'a mut K,
}

impl<K: PacketSink> PacketSink for Restoring<'_, K> {
    ghost use Rattle.std.specs.Prelude.{◌≡◌, true};
    ghost use Rattle.std.proofs.Common.{refl, ap, ◌∙◌};
    ghost use Rattle.chain_engine.specs.Unjudged.{RestoringHolds, RestoringFails};

    ghost holds = { λ g start ps. RestoringHolds K.holds g.packet.now g.out.now start ps };

    ghost fails = { λ g start ps p f. RestoringFails K.fails g.packet.now g.out.now start ps p f };

    ghost is_broken = { λ g. K.is_broken g.out.now };

    ghost counts = { λ g. K.counts g.out.now };

    ghost is_full = { λ g. K.is_full g.out.now };

    ghost leads = { λ g h. (h.out.ghost_name ≡ g.out.ghost_name) × (h.packet.now ≡ g.packet.now) × K.leads g.out.now h.out.now
        × (K.is_broken g.out.now ≡ true → h ≡ g) };

    ghost leads_refl = { λ s. (refl, refl, K.leads_refl s.out.now, λ b. refl) };

    ghost leads_trans = { λ s t u h k. (
      k.0 ∙ h.0,
      k.1 ∙ h.1,
      K.leads_trans s.out.now t.out.now u.out.now h.2 k.2,
      λ b. k.3 (ap (λ w. K.is_broken w.out.now) (h.3 b) ∙ b) ∙ h.3 b,
    ) };

    ghost leads_later = { λ s t h. K.leads_later s.out.now t.out.now h.2 };

    ghost leads_full = { λ s t h. K.leads_full s.out.now t.out.now h.2 };

    ghost leads_spent = { λ s t h. h.3 };

    fn put(&mut self, packet: &Packet) -> Result<(), PutFault> {
        if packet.error() {
            self.out.put(self.packet)
        } else {
            self.out.put(packet)
        }
    }
}

/// Has the switch pass on a packet unjudged. On the PID of a switched stream its counter goes on as that of a packet that is kept.
pub(crate) fn put_unjudged<K: PacketSink>(
    switch: &mut Switch,
    packet: &Packet,
    library: &AdLibrary,
    out: &mut K,
) -> Result<(), PutFault>
    ensures leads { K.leads out.old out.new }
    ensures well { OnOk result (WentWell (K.counts out.old) (K.counts out.new)) }
    ensures blamed { IfErr result (λ f. Blamed f (K.counts out.old) (K.counts out.new) (K.is_full out.new)) }
    ensures follows { (c : FollowedFor) (past : List (List ℕ)) → SwitchFollows switch.old c past
        → OnOk result (SwitchFollows switch.new c (marked packet.now ∷ past)) }
    ensures goes_on { (c : Config) (x : Journey) → SwitchStandsAt switch.old c (held library.now) x
        → OnOk result (SwitchStandsAt switch.new c (held library.now) (journey_beside (setting_of c (held library.now)) x packet.now)) }
    ensures puts { (c : Config) (x : Journey) (start : Option (List ℕ)) (ps : List (List ℕ)) → SwitchStandsAt switch.old c (held library.now) x
        → K.holds out.old start ps
        → OnOk result (K.holds out.new start (ps ++ puts_beside (setting_of c (held library.now)) x packet.now ∷ [])) }
{
    match switch.stream_of(packet) {
        Some(stream) => match switch.follow(&marked(packet)) {
            Ok(()) => switch.put_beside(stream, packet, out),
            Err(_) => Err(PutFault::Failed),
        },
        None => {
            let mut restoring = Restoring { packet, out };
            match switch.feed_with_same(&marked(packet), library, &mut restoring) {
                Ok(()) => Ok(()),
                Err(fault) => Err(put_fault(fault)),
            }
        }
    }
}

/// A sink that feeds a switch, and has it pass on a packet unjudged in the place of one that is marked in error. It says nothing of a put
/// that fails.
#[derive(Drop)]
pub(crate) struct Beside<'a, K: PacketSink> {
    pub(crate) switch: &'a mut Switch,
    pub(crate) config: &'a Config,
    pub(crate) packet: &'a Packet,
    pub(crate) library: &'a AdLibrary,
    pub(crate) out: &'a mut K,
    pub(crate) is_broken: bool,
}

impl<K: PacketSink> PacketSink for Beside<'_, K> {
    ghost use Rattle.std.specs.Prelude.{◌≡◌, true};
    ghost use Rattle.std.proofs.Common.{refl, ap, ◌∙◌};
    ghost use Rattle.ad_library.specs.Library.{held};
    ghost use Rattle.chain_engine.specs.Airing.{unjudged};
    ghost use Rattle.chain_engine.specs.Chained.{fed_as};
    ghost use Rattle.chain_engine.specs.Nested.{FeedingHolds};

    ghost holds = { λ g start ps. FeedingHolds K.holds (fed_as (unjudged g.packet.now)) g.switch.now g.config.now (held g.library.now)
        g.out.now start ps };

    ghost fails = { λ g start ps p f. Unit {0} };

    ghost is_broken = { λ g. g.is_broken };

    ghost counts = { λ g. K.counts g.out.now };

    ghost is_full = { λ g. K.is_full g.out.now };

    ghost leads = { λ g h. (h.switch.ghost_name ≡ g.switch.ghost_name) × (h.out.ghost_name ≡ g.out.ghost_name)
        × (h.library.now ≡ g.library.now) × (h.config.now ≡ g.config.now) × (h.packet.now ≡ g.packet.now)
        × K.leads g.out.now h.out.now × (g.is_broken ≡ true → h ≡ g) };

    ghost leads_refl = { λ s. (refl, refl, refl, refl, refl, K.leads_refl s.out.now, λ b. refl) };

    ghost leads_trans = { λ s t u h k. (
      k.0 ∙ h.0,
      k.1 ∙ h.1,
      k.2 ∙ h.2,
      k.3 ∙ h.3,
      k.4 ∙ h.4,
      K.leads_trans s.out.now t.out.now u.out.now h.5 k.5,
      λ b. k.6 (ap (λ w. w.is_broken) (h.6 b) ∙ b) ∙ h.6 b,
    ) };

    ghost leads_later = { λ s t h. K.leads_later s.out.now t.out.now h.5 };

    ghost leads_full = { λ s t h. K.leads_full s.out.now t.out.now h.5 };

    ghost leads_spent = { λ s t h. h.6 };

    fn put(&mut self, packet: &Packet) -> Result<(), PutFault> {
        if self.is_broken {
            return Err(PutFault::Failed);
        }
        let put = if packet.error() {
            put_unjudged(self.switch, self.packet, self.library, self.out)
        } else {
            match self.switch.feed_with_same(packet, self.library, self.out) {
                Ok(()) => Ok(()),
                Err(fault) => Err(put_fault(fault)),
            }
        };
        self.is_broken = put.is_err();
        put
    }
}

impl Service {
    /// Has the injector pass on a packet unjudged to the switch, with the cues that are due before it, and the switch pass it on.
    ///
    /// # Errors
    ///
    /// The sink's.
    pub fn pass_unjudged<K: PacketSink>(
        &mut self,
        packet: &Packet,
        library: &AdLibrary,
        out: &mut K,
    ) -> Result<(), PutFault>
        ensures leads { K.leads out.old out.new }
        ensures config { self.new.config ≡ self.old.config }
        ensures injector { (c : Config) (steps : List Step) → InjectorStandsFor self.old.injector c steps
            → OnOk result (InjectorStandsFor self.new.injector c (PacketStep (marked packet.now) ∷ steps)) }
        ensures airs { (c : Config) (steps : List Step) (fed : List Aired) (start : Option (List ℕ)) (ps : List (List ℕ))
            → ServiceAirs self.old c (held library.now) steps fed → K.holds out.old start ps
            → OnOk result (PassedOnAir self.new c (held library.now) (unjudged packet.now) steps fed
            (λ qs. K.holds out.new start (ps ++ qs))) }
    {
        let read = marked(packet);
        of_bytes(&read);
        let mut beside = Beside {
            switch: &mut self.switch,
            config: &self.config,
            packet,
            library,
            out,
            is_broken: false,
        };
        match self.injector.feed(&read, &mut beside) {
            Ok(()) => Ok(()),
            Err(fault) => Err(put_fault(fault)),
        }
    }
}
