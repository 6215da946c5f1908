//! A sink that takes packets and puts them nowhere.

use ts_packet::{Packet, PacketSink, PutFault};

/// Takes every packet, and puts it nowhere: what a service sends for the packets of others.
#[derive(Drop)]
pub struct Nowhere;

impl PacketSink for Nowhere {
    ghost use Rattle.std.specs.Prelude.{false};
    ghost use Rattle.ts_packet.specs.Transfers.{no_tally};
    ghost use Rattle.ts_packet.proofs.CountLemmas.{well-later, well-refl};

    ghost holds = { λ s start ps. Unit {0} };

    ghost fails = { λ s start ps p f. ⊥ };

    ghost is_broken = { λ s. false };

    ghost counts = { λ s. no_tally };

    ghost is_full = { λ s. false };

    ghost leads = { λ s t. Unit {0} };

    ghost leads_refl = { λ s. tt };

    ghost leads_trans = { λ s t u h k. tt };

    ghost leads_later = { λ s t h. well-later no_tally no_tally (well-refl no_tally) };

    ghost leads_full = { λ s t h b. b };

    ghost leads_spent = { λ s t h b. absurd (cc) };

    #[inline(always)]
    fn put(&mut self, _packet: &Packet) -> Result<(), PutFault> {
        Ok(())
    }
}
