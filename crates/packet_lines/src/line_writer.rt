//! Packets to lines.

ghost use Rattle.std.specs.Prelude.{◌≡◌, ℕ, ◌<◌, length, slice_index};
ghost use Rattle.packet_lines.specs.Lines.{line_of};

use crate::line_reader::{LINE_DIGITS, LINE_END};
use hex_digits::spell;
use ts_packet::transfer::write_whole;
use ts_packet::{GatheringSink, GatheringTarget, Packet, PacketSink, PutFault, Target};

/// Spells a packet's line: its digits and the line's end.
fn spell_line(line: &mut [u8; 377], packet: &[u8; 188])
    ensures line { line.new ≡ line_of packet.now }
    ensures size { length line.new ≡ 377 }
{
    spell(line, 0, packet);
    line[LINE_DIGITS] = LINE_END;
}

/// Writes each packet as a line of 376 upper case hexadecimal digits with its end. After a fault a front of the line is out, and
/// from then on it answers `Failed` and writes nothing.
#[derive(Drop)]
pub struct LineWriter<'a, W: Target> {
    target: &'a mut W,
    is_broken: bool,
}

impl<'a, W: Target> LineWriter<'a, W> {
    ghost use Rattle.std.specs.Prelude.{◌≡◌, false};

    /// A writer of lines to this device.
    pub fn new(target: &'a mut W) -> LineWriter<'a, W>
        ensures same { result.target.ghost_name ≡ target.entry.ghost_name }
        ensures target { result.target.now ≡ target.old }
        ensures whole { result.is_broken ≡ false }
    {
        LineWriter {
            target,
            is_broken: false,
        }
    }
}

impl<W: Target> PacketSink for LineWriter<'_, W> {
    ghost use Rattle.std.specs.Prelude.{◌≡◌, ◌∷◌, [], ◌++◌, ℕ, ◌+◌, ◌^◌, ◌≤◌, List, Option, true, false, OnOk, IfErr, Err, is_err};
    ghost use Rattle.ts_packet.specs.Transfers.{WentWell};
    ghost use Rattle.ts_packet.specs.Sinks.{Later, Later-refl, Later-trans, Blamed};
    ghost use Rattle.packet_lines.specs.Texts.{HasWrittenLines, HasFailedInLine};
    ghost use Rattle.std.proofs.Common.{refl, ap, ◌∙◌};

    ghost holds = { λ w start ps. HasWrittenLines w.is_broken (W.contents w.target.now) start ps };

    ghost fails = { λ w start ps p f. HasFailedInLine w.is_broken f (W.contents w.target.now) start ps p };

    ghost is_broken = { λ w. w.is_broken };

    ghost counts = { λ w. W.counts w.target.now };

    ghost is_full = { λ w. false };

    ghost leads = { λ v w. (w.target.ghost_name ≡ v.target.ghost_name) × Later (W.counts v.target.now) (W.counts w.target.now)
        × (v.is_broken ≡ true → w ≡ v) };

    ghost leads_refl = { λ s. (refl, Later-refl _, λ b. refl) };

    ghost leads_trans = { λ s t u h k. (k.0 ∙ h.0, Later-trans _ _ _ h.1 k.1, λ b. k.2 (ap (λ w. w.is_broken) (h.2 b) ∙ b) ∙ h.2 b) };

    ghost leads_later = { λ s t h. h.1 };

    ghost leads_full = { λ s t h e. e };

    ghost leads_spent = { λ s t h. h.2 };

    fn put(&mut self, packet: &Packet) -> Result<(), PutFault>
        ensures leads { (self.new.target.ghost_name ≡ self.old.target.ghost_name)
            × Later (W.counts self.old.target.now) (W.counts self.new.target.now)
            × (self.old.is_broken ≡ true → self.new ≡ self.old) }
        ensures ok { (start : Option (List ℕ)) (ps : List (List ℕ)) →
            HasWrittenLines self.old.is_broken (W.contents self.old.target.now) start ps →
            OnOk result (HasWrittenLines self.new.is_broken (W.contents self.new.target.now) start
            (ps ++ packet.now ∷ [])) }
        ensures err { (start : Option (List ℕ)) (ps : List (List ℕ)) →
            HasWrittenLines self.old.is_broken (W.contents self.old.target.now) start ps →
            IfErr result (λ f. HasFailedInLine self.new.is_broken f
            (W.contents self.new.target.now) start ps packet.now) }
        ensures well { OnOk result (WentWell (W.counts self.old.target.now) (W.counts self.new.target.now)) }
        ensures blamed { IfErr result (λ f. Blamed f (W.counts self.old.target.now)
            (W.counts self.new.target.now) false) }
        ensures broken { self.new.is_broken ≡ is_err result }
        ensures spent { self.old.is_broken ≡ true → (result ≡ Err PutFault.Failed) × (self.new ≡ self.old) }
        ensures few { (W.counts self.new.target.now).calls ≤ (W.counts self.old.target.now).calls + 2 ^ 20 }
    {
        if self.is_broken {
            return Err(PutFault::Failed);
        }
        self.is_broken = true;
        let mut line = [LINE_END; 377];
        spell_line(&mut line, packet.as_bytes());
        match write_whole(self.target, &line) {
            Ok(()) => {
                self.is_broken = false;
                Ok(())
            }
            Err(fault) => Err(fault),
        }
    }
}

impl<W: GatheringTarget> GatheringSink for LineWriter<'_, W> {
    ghost use Rattle.std.specs.Prelude.{[], ◌≡◌};
    ghost use Rattle.packet_lines.specs.Texts.{HasFailedToSendLines};

    ghost has_sent = { λ w. W.gathered w.target.now ≡ [] };

    ghost fails_to_send = { λ w start ps f. HasFailedToSendLines w.is_broken f (W.contents w.target.now) start ps };

    fn send(&mut self) -> Result<(), PutFault> {
        let has_failed = self.is_broken;
        self.is_broken = has_failed || !self.target.send();
        match self.is_broken {
            false => Ok(()),
            true if has_failed => Err(PutFault::Failed),
            true => Err(PutFault::Io),
        }
    }
}
