//! The laws of the faults of cued streams, each on a function of its own.

ghost use Rattle.cued_laws.specs.Laws.{CuedIsFaultless, InjectedIsFaultless, NoneSentIsAtFault};

/// A network without fault for those who write cues, with packets of the cue PID in front of its packets and the entry for cues in its
/// maps, is without fault for those who read cues.
pub fn cued_is_faultless()
    ensures { CuedIsFaultless }
{}

/// So is all that an injector sends for a history of messages and packets.
pub fn injected_is_faultless()
    ensures { InjectedIsFaultless }
{}

/// And at each front of what it sends for one packet the next packet is without fault.
pub fn none_sent_is_at_fault()
    ensures { NoneSentIsAtFault }
{}
