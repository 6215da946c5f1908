//! Packets in memory.

ghost use Rattle.std.specs.Prelude.{◌≤◌, vec_len, vec_capacity};

use crate::gathering::GatheringSink;
use crate::packet::Packet;
use crate::sink::{PacketSink, PutFault};
use std::alloc::{AllocError, Allocator, Global};

/// Keeps packets, up to a number of them. The put that finds it full answers `Stuck`, and those after it `Failed`.
#[derive(Drop)]
pub struct PacketList<A: Allocator = Global> {
    items: Vec<Packet, A>,
    room: usize,
    is_broken: bool,
    ghost fits: { vec_len items ≤ room },
    ghost has_room: { room ≤ vec_capacity items },
}

impl PacketList<Global> {
    ghost use Rattle.std.specs.Prelude.{◌≡◌, [], IfOk, false};

    /// An empty list with room for this many packets.
    ///
    /// # Errors
    ///
    /// Where the allocator refused memory.
    pub fn new(alloc: Global, room: usize) -> Result<PacketList<Global>, AllocError>
        ensures { IfOk result (λ l. (l.items.items ≡ []) × (l.room ≡ room) × (l.is_broken ≡ false)) }
    {
        PacketList::new_in(alloc, room)
    }
}

impl<A: Allocator> PacketList<A> {
    ghost use Rattle.std.specs.Prelude.{◌≡◌, [], IfOk, false};

    /// An empty list with room for this many packets, in the allocator's memory.
    ///
    /// # Errors
    ///
    /// As for [`PacketList::new`].
    pub fn new_in(alloc: A, room: usize) -> Result<PacketList<A>, AllocError>
        ensures { IfOk result (λ l. (l.items.items ≡ []) × (l.room ≡ room) × (l.is_broken ≡ false)) }
    {
        Ok(PacketList {
            items: Vec::with_capacity(alloc, room)?,
            room,
            is_broken: false,
        })
    }

    /// The packets put so far, in order.
    pub fn packets(&self) -> &[Packet]
        ensures { result.now ≡ self.now.items.items }
    {
        self.items.as_slice()
    }
}

impl<A: Allocator> PacketSink for PacketList<A> {
    ghost use Rattle.std.specs.Prelude.{◌≡◌, ◌∷◌, [], ◌++◌, ℕ, List, Option, true, false};
    ghost use Rattle.std.specs.Prelude.{Ok, Err, nat_le, nat_lt, vec_len, OnOk, IfErr, is_err, ◌<◌};
    ghost use Rattle.ts_packet.specs.declared.sink.PutFault.TheVariants.{Failed, Stuck};
    ghost use Rattle.ts_packet.specs.Transfers.{no_tally, WentWell};
    ghost use Rattle.ts_packet.specs.Sinks.{Blamed, Later-refl};
    ghost use Rattle.std.proofs.Common.{refl, ap, ◌∙◌};

    ghost holds = { λ l start ps. (l.is_broken ≡ false) × (l.items.items ≡ ps) };

    ghost fails = { λ l start ps p f. (l.is_broken ≡ true) × (f ≡ Stuck) × (l.items.items ≡ ps) };

    ghost is_broken = { λ l. l.is_broken };

    ghost counts = { λ l. no_tally };

    ghost is_full = { λ l. nat_le l.room (vec_len l.items) };

    ghost leads = { λ s t. (t.room ≡ s.room) × (nat_le s.room (vec_len s.items) ≡ true → nat_le t.room (vec_len t.items) ≡ true)
        × (s.is_broken ≡ true → t ≡ s) };

    ghost leads_refl = { λ s. (refl, λ e. e, λ b. refl) };

    ghost leads_trans = { λ s t u h k. (k.0 ∙ h.0, λ e. k.1 (h.1 e), λ b. k.2 (ap (λ l. l.is_broken) (h.2 b) ∙ b) ∙ h.2 b) };

    ghost leads_later = { λ s t h. Later-refl no_tally };

    ghost leads_full = { λ s t h. h.1 };

    ghost leads_spent = { λ s t h. h.2 };

    fn put(&mut self, packet: &Packet) -> Result<(), PutFault>
        ensures leads { (self.new.room ≡ self.old.room) × (nat_le self.old.room (vec_len self.old.items) ≡ true →
            nat_le self.new.room (vec_len self.new.items) ≡ true)
            × (self.old.is_broken ≡ true → self.new ≡ self.old) }
        ensures ok { (start : Option (List ℕ)) (ps : List (List ℕ))
            → (self.old.is_broken ≡ false) × (self.old.items.items ≡ ps) →
            OnOk result ((self.new.is_broken ≡ false) × (self.new.items.items ≡ ps ++ packet.now ∷ [])) }
        ensures err { (start : Option (List ℕ)) (ps : List (List ℕ))
            → (self.old.is_broken ≡ false) × (self.old.items.items ≡ ps) →
            IfErr result (λ f. (self.new.is_broken ≡ true) × (f ≡ PutFault.Stuck) × (self.new.items.items ≡ ps)) }
        ensures blamed { IfErr result (λ f. Blamed f no_tally no_tally
            (nat_le self.new.room (vec_len self.new.items))) }
        ensures room { self.old.is_broken ≡ false → vec_len self.old.items < self.old.room → result ≡ Ok tt }
        ensures well { OnOk result (WentWell no_tally no_tally) }
        ensures kept { IfErr result (λ _. self.new.items.items ≡ self.old.items.items) }
        ensures broken { self.new.is_broken ≡ is_err result }
        ensures spent { self.old.is_broken ≡ true → (result ≡ Err PutFault.Failed) × (self.new ≡ self.old) }
    {
        if self.is_broken {
            return Err(PutFault::Failed);
        }
        if self.items.len() < self.room && self.items.push(*packet).is_ok() {
            return Ok(());
        }
        self.is_broken = true;
        Err(PutFault::Stuck)
    }
}

impl<A: Allocator> GatheringSink for PacketList<A> {
    ghost use Rattle.std.specs.Prelude.{⊤};
    ghost use Rattle.ts_packet.specs.declared.sink.PutFault.TheVariants.{Failed};

    ghost has_sent = { λ l. ⊤ };

    ghost fails_to_send = { λ l start ps f. ⊥ };

    /// Keeps nothing back.
    fn send(&mut self) -> Result<(), PutFault> {
        if self.is_broken {
            return Err(PutFault::Failed);
        }
        Ok(())
    }
}
