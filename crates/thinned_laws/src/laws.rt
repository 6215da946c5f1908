//! What holds of runs that differ in nothing but their cues, each law on a function of its own.

ghost use Rattle.thinned_laws.specs.Laws.{SameEventsSameOutput, SameEventsSameNetwork};
ghost use Rattle.thinned_laws.specs.Laws.{LeftIsFaultless, LostCuesLeaveNoTrace, ThinnedCuesLeaveNoTrace};

/// Two runs that have the same packets but for cues, and whose events agree with each packet of a switched stream where they are
/// reached, have the same output.
pub fn same_events_same_output()
    ensures { SameEventsSameOutput }
{}

/// Where in the end all events agree that are not cancelled, the whole outputs are the same bytes, and the reports count the same events.
pub fn same_events_same_network()
    ensures { SameEventsSameNetwork }
{}

/// A network without fault, with what is left of an injector's cues, has none for those who read the cues.
pub fn left_is_faultless()
    ensures { LeftIsFaultless }
{}

/// Where enough of an injector's cues is left, the spliced network is byte for byte that of the cued stream itself, and the report counts
/// the same events as played, not fitted and unconditioned.
pub fn lost_cues_leave_no_trace()
    ensures { LostCuesLeaveNoTrace }
{}

/// So it is with the injector's packets of which some are left out, and some doubled on the spot, where one that is a duplicate of the packet
/// left before it tells the same again, of the same event.
pub fn thinned_cues_leave_no_trace()
    ensures { ThinnedCuesLeaveNoTrace }
{}
