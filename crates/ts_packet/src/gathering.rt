//! Targets and sinks that may gather what they take, and send it when they are told to.

use crate::device::Target;
use crate::sink::{PacketSink, PutFault};

/// What bytes are written to that may keep them back until it is told to send them.
pub trait GatheringTarget: Target {
    ghost use Rattle.std.specs.Prelude.{◌≡◌, ℕ, List, [], Option};
    ghost use Rattle.std.specs.Bool.{OnTrue, OnFalse};
    ghost use Rattle.std.specs.Io.KnownBytes.{Keeps, append_known};
    ghost use Rattle.ts_packet.specs.Transfers.{WentWell, LastFailed};

    /// The bytes that it has sent, where they are known.
    ghost sent: { Self → Option (List ℕ) };

    /// Those that it keeps back.
    ghost gathered: { Self → List ℕ };

    /// Sends what it keeps back, and answers whether all of it is out. Else a front of it is.
    fn send(&mut self) -> bool
        ensures bytes { Keeps (Self.contents self.old) (Self.contents self.new) }
        ensures all { OnTrue result (gathered self.new ≡ []) }
        ensures well { OnTrue result (WentWell (Self.counts self.old) (Self.counts self.new)) }
        ensures failed { OnFalse result (LastFailed (Self.counts self.old) (Self.counts self.new)) };

    ghost parts: { (s : Self) → Self.contents s ≡ append_known (sent s) (gathered s) };
}

/// A sink that may keep packets back until it is told to send them.
pub trait GatheringSink: PacketSink {
    ghost use Rattle.std.specs.Prelude.{◌≡◌, ℕ, List, Option, true, Err, OnOk, IfErr, is_err};
    ghost use Rattle.ts_packet.specs.declared.sink.PutFault.{PutFault};
    ghost use Rattle.ts_packet.specs.declared.sink.PutFault.TheVariants.{Failed};
    ghost use Rattle.ts_packet.specs.Transfers.{WentWell};
    ghost use Rattle.ts_packet.specs.Sinks.{Blamed};

    /// All that it has taken is out.
    ghost has_sent: { Self → Type 0 };

    /// It stood for this list, and sending what it kept back of it failed so: a front of it is out.
    ghost fails_to_send: { Self → Option (List ℕ) → List (List ℕ) → PutFault → Type 0 };

    /// Sends what it keeps back.
    fn send(&mut self) -> Result<(), PutFault>
        ensures leads { Self.leads self.old self.new }
        ensures ok { (start : Option (List ℕ)) (ps : List (List ℕ)) → Self.holds self.old start ps
            → OnOk result (Self.holds self.new start ps) }
        ensures all { OnOk result (has_sent self.new) }
        ensures err { (start : Option (List ℕ)) (ps : List (List ℕ)) → Self.holds self.old start ps
            → IfErr result (λ f. fails_to_send self.new start ps f) }
        ensures well { OnOk result (WentWell (Self.counts self.old) (Self.counts self.new)) }
        ensures blamed { IfErr result (λ f. Blamed f (Self.counts self.old) (Self.counts self.new) (Self.is_full self.new)) }
        ensures broken { Self.is_broken self.new ≡ is_err result }
        ensures spent { Self.is_broken self.old ≡ true → (result ≡ Err Failed) × (self.new ≡ self.old) };
}
