//! A cut as a stage of a run: the packets that stay go out.

ghost use Rattle.std.specs.Prelude.{◌≡◌};

use crate::cutter::Cutter;
use packet_runs::{Stage, StageFault};
use ts_packet::{Packet, PacketSink, PutFault};
use unit_stream::UnitFault;

/// A cut on its way. It has the PID's last payload packet kept for it, and sends each packet that stays.
#[derive(Drop)]
pub(crate) struct Cutting {
    cutter: Cutter,
}

impl Cutting {
    /// A cut that this cutter makes.
    pub(crate) fn new(cutter: Cutter) -> Cutting
        ensures { result.cutter ≡ cutter }
    {
        Cutting { cutter }
    }
}

impl Stage for Cutting {
    ghost use Rattle.std.specs.Prelude.{⊤, ◌≡◌, ◌∷◌, [], false};
    ghost use Rattle.unit_stream.specs.Faults.{unit_fault};
    ghost use Rattle.unit_cut.specs.Runs.{HasCut, AddsOne, cut_of};

    type Refusal = UnitFault;

    type Report = ();

    ghost refusal = { λ first s. unit_fault (first.cutter.pid ∷ []) s.packet s.past };

    ghost sends = { λ first ps qs kept now. HasCut first.cutter ps qs kept now.cutter };

    ghost refuses = { λ first ps qs p now. qs ≡ cut_of first.cutter ps };

    ghost breaks = { λ first ps next qs q now. AddsOne first.cutter ps next qs q };

    ghost ends = { λ first ps qs report now. qs ≡ cut_of first.cutter ps };

    ghost leads = { λ s t. ⊤ };

    ghost puts_rest = { false };

    ghost leads_refl = { λ s. tt };

    ghost leads_trans = { λ s t u h k. tt };

    #[inline(always)]
    fn step<K: PacketSink>(
        &mut self,
        packet: &mut Packet,
        kept: &Packet,
        out: &mut K,
    ) -> Result<bool, StageFault<UnitFault>> {
        let is_last = self.cutter.is_payload_on_pid(packet);
        match self.cutter.feed(packet, kept) {
            Ok(true) => match out.put(packet) {
                Ok(()) => Ok(is_last),
                Err(fault) => Err(StageFault::Sink(fault)),
            },
            Ok(false) => Ok(is_last),
            Err(fault) => Err(StageFault::Packet(fault)),
        }
    }

    /// Nothing is left at the end.
    #[inline(always)]
    fn finish<K: PacketSink>(&mut self, _out: &mut K) -> Result<(), PutFault> {
        Ok(())
    }
}
