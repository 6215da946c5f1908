//! One switched stream on its way out.

ghost use Rattle.std.specs.Prelude.{◌≡◌, ◌<◌, ◌++◌, ◌∷◌, [], ℕ, List, Option, is_some, true, false, OnOk, IfErr};
ghost use Rattle.ts_packet.specs.Fields.{payload, pcr, pid_of, renumbered, with_number};
ghost use Rattle.ts_packet.specs.Numbering.{Step, Kept, Counts, moved, number_out};
ghost use Rattle.ts_packet.specs.Sinks.{Blamed};
ghost use Rattle.ts_packet.specs.Transfers.{WentWell};
ghost use Rattle.output_laws.specs.Output.{clock_alone};
ghost use Rattle.splice_plans.specs.Counting.{left_steps, steps_behind, left_place};

use ts_packet::pcr_only::pcr_only;
use ts_packet::{Counter, Packet, PacketSink, PutFault};

/// What is known of a switched stream behind the head.
#[derive(Clone, Copy, Debug, PartialEq, Eq, Drop)]
pub struct SwitchedStream {
    /// Numbers the packets that go out.
    pub counter: Counter,
    /// The unit that has begun last lies in a played event.
    pub is_leaving: bool,
}

impl SwitchedStream {
    /// A stream of which nothing has gone out.
    pub fn new() -> SwitchedStream
        ensures counter { Counts result.counter [] }
        ensures leaving { result.is_leaving ≡ false }
    {
        SwitchedStream {
            counter: Counter::new(),
            is_leaving: false,
        }
    }

    /// Puts a packet that is kept, with its counter moved.
    ///
    /// # Errors
    ///
    /// The sink's, at this packet, which is counted all the same.
    #[inline(always)]
    pub fn keep<S: PacketSink>(&mut self, packet: &Packet, sink: &mut S) -> Result<(), PutFault>
        ensures leads { S.leads sink.old sink.new }
        ensures ok { (start : Option (List ℕ)) (ps : List (List ℕ)) (steps : List Step) → S.holds sink.old start ps →
            Counts self.old.counter steps →
            OnOk result (S.holds sink.new start (ps ++ renumbered (moved steps) packet.now ∷ [])) }
        ensures counts { (steps : List Step) → Counts self.old.counter steps →
            Counts self.new.counter (Kept packet.now ∷ steps) }
        ensures leaving { self.new.is_leaving ≡ self.old.is_leaving }
        ensures err { (start : Option (List ℕ)) (ps : List (List ℕ)) (steps : List Step) → S.holds sink.old start ps →
            Counts self.old.counter steps →
            IfErr result (λ f. S.fails sink.new start ps (renumbered (moved steps) packet.now) f) }
        ensures well { OnOk result (WentWell (S.counts sink.old) (S.counts sink.new)) }
        ensures blamed { IfErr result (λ f. Blamed f (S.counts sink.old) (S.counts sink.new) (S.is_full sink.new)) }
    {
        let _bytes = packet.as_bytes();
        let number = self.counter.kept(packet);
        if number == packet.counter() {
            return sink.put(packet);
        }
        put_renumbered(packet, number, sink)
    }

    /// Leaves out a packet, and puts its clock reference alone, where it has one. A packet without payload is kept, and a duplicate that is
    /// left out is not counted.
    ///
    /// # Errors
    ///
    /// The sink's, at the packet that was to go out. The stream has counted then as if it were out.
    pub fn leave<S: PacketSink>(
        &mut self,
        packet: &Packet,
        is_repeat: bool,
        sink: &mut S,
    ) -> Result<(), PutFault>
        ensures leads { S.leads sink.old sink.new }
        ensures ok { (start : Option (List ℕ)) (ps : List (List ℕ)) (steps : List Step) → S.holds sink.old start ps →
            Counts self.old.counter steps → OnOk result (S.holds sink.new start (ps ++ left_place is_repeat packet.now steps)) }
        ensures counts { (steps : List Step) → Counts self.old.counter steps →
            Counts self.new.counter (steps_behind is_repeat packet.now steps) }
        ensures leaving { self.new.is_leaving ≡ self.old.is_leaving }
        ensures err { (start : Option (List ℕ)) (ps : List (List ℕ)) (steps : List Step) → S.holds sink.old start ps →
            Counts self.old.counter steps →
            IfErr result (λ f. (q : List ℕ) × (left_place is_repeat packet.now steps ≡ q ∷ []) × S.fails sink.new start ps q f) }
        ensures well { OnOk result (WentWell (S.counts sink.old) (S.counts sink.new)) }
        ensures blamed { IfErr result (λ f. Blamed f (S.counts sink.old) (S.counts sink.new) (S.is_full sink.new)) }
    {
        if !packet.has_payload() {
            return self.keep(packet, sink);
        }
        let number = self.number_left(packet, is_repeat);
        if packet.pcr().is_none() {
            return Ok(());
        }
        put_clock(packet, number, sink)
    }

    /// Counts a payload packet that is left out: the counter of what goes out in its place.
    fn number_left(&mut self, packet: &Packet, is_repeat: bool) -> u8
        requires { is_some (payload packet.now) ≡ true }
        ensures counts { (steps : List Step) → Counts self.old.counter steps →
            Counts self.new.counter (left_steps is_repeat packet.now steps) }
        ensures number { (steps : List Step) → Counts self.old.counter steps →
            result ≡ number_out packet.now (left_steps is_repeat packet.now steps) }
        ensures below { result < 16 }
        ensures leaving { self.new.is_leaving ≡ self.old.is_leaving }
    {
        if is_repeat {
            let mut counter = self.counter;
            return counter.kept(packet);
        }
        self.counter.dropped(packet)
    }
}

/// Puts the packet with another continuity_counter. It stands by itself, so that a packet whose counter stays does not pay for the room of
/// the copy.
#[inline(never)]
fn put_renumbered<S: PacketSink>(packet: &Packet, number: u8, sink: &mut S) -> Result<(), PutFault>
    requires { number < 16 }
    ensures leads { S.leads sink.old sink.new }
    ensures ok { (start : Option (List ℕ)) (ps : List (List ℕ)) → S.holds sink.old start ps →
        OnOk result (S.holds sink.new start (ps ++ with_number number packet.now ∷ [])) }
    ensures err { (start : Option (List ℕ)) (ps : List (List ℕ)) → S.holds sink.old start ps →
        IfErr result (λ f. S.fails sink.new start ps (with_number number packet.now) f) }
    ensures well { OnOk result (WentWell (S.counts sink.old) (S.counts sink.new)) }
    ensures blamed { IfErr result (λ f. Blamed f (S.counts sink.old) (S.counts sink.new) (S.is_full sink.new)) }
{
    sink.put(&packet.with_counter(number))
}

/// Puts the packet's clock reference alone, where it has one, with this continuity_counter. It stands by itself, so that a packet without
/// one does not pay for the room of that packet.
#[inline(never)]
fn put_clock<S: PacketSink>(packet: &Packet, number: u8, sink: &mut S) -> Result<(), PutFault>
    requires { number < 16 }
    ensures leads { S.leads sink.old sink.new }
    ensures ok { (start : Option (List ℕ)) (ps : List (List ℕ)) → S.holds sink.old start ps →
        OnOk result (S.holds sink.new start (ps ++ clock_alone (pid_of packet.now) number (pcr packet.now))) }
    ensures err { (start : Option (List ℕ)) (ps : List (List ℕ)) → S.holds sink.old start ps →
        IfErr result (λ f. (q : List ℕ) × (clock_alone (pid_of packet.now) number (pcr packet.now) ≡ q ∷ [])
        × S.fails sink.new start ps q f) }
    ensures well { OnOk result (WentWell (S.counts sink.old) (S.counts sink.new)) }
    ensures blamed { IfErr result (λ f. Blamed f (S.counts sink.old) (S.counts sink.new) (S.is_full sink.new)) }
{
    match pcr_only(packet, number) {
        None => Ok(()),
        Some(clock) => sink.put(&clock),
    }
}
