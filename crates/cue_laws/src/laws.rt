//! Laws, each the contract of a function that does nothing.

ghost use Rattle.cue_laws.specs.Laws.{UncancelledEventsAgree, CuedIsSound, TableIsJudged, Settlement, LostCues, LostCuesAtTheEnd};
ghost use Rattle.cue_laws.specs.Laws.{CuePath, CuePathAtTheEnd, CuePathHolders};
ghost use Rattle.cue_laws.specs.Laws.{NothingLostIsEnough, RepeatsLoseNothing, Invariant, NoStartRefused, ThinnedIsChosen, CuedGrows};
ghost use Rattle.cue_laws.specs.Tables.{ForgettingIsSafe};
ghost use Rattle.cue_laws.specs.Needed.{OrderIsNeeded, EndsAreNeeded, CancelsAreNeeded};

/// Which uncancelled events hold a time that the greatest one has reached does not change any more, on either side.
pub fn settlement()
    ensures { Settlement }
{}

/// At every front of a stream of cues, the uncancelled events that have begun are the same with cues lost as without.
pub fn lost_cues()
    ensures { LostCues }
{}

/// At its end, all uncancelled events are the same with cues lost as without.
pub fn lost_cues_at_the_end()
    ensures { LostCuesAtTheEnd }
{}

/// Behind each packet of a run, injector and splicer have the same uncancelled events that have begun, whatever cues were lost.
pub fn cue_path()
    ensures { CuePath }
{}

/// Behind the last packet of a run, they have the same uncancelled events.
pub fn cue_path_at_the_end()
    ensures { CuePathAtTheEnd }
{}

/// Behind each packet of a run, a time that is reached is held by the same events on both sides.
pub fn cue_path_holders()
    ensures { CuePathHolders }
{}

/// The premise of thinning holds of every run where nothing is lost.
pub fn nothing_lost_is_enough()
    ensures { NothingLostIsEnough }
{}

/// A choice that keeps enough of a run's cues still does where it leaves out more, if all of that is told again.
pub fn repeats_lose_nothing()
    ensures { RepeatsLoseNothing }
{}

/// A stream is a thinned one exactly where some choice of copies leaves it.
pub fn thinned_is_chosen()
    ensures { ThinnedIsChosen }
{}

/// What went over the cue path stays.
pub fn cued_grows()
    ensures { CuedGrows }
{}

/// Without the first sending of an early end a splicer can refuse a start that was accepted, also where the ended event is cancelled.
pub fn ends_are_needed()
    ensures { EndsAreNeeded }
{}

/// Without a cancel a splicer can keep an event that was cancelled.
pub fn cancels_are_needed()
    ensures { CancelsAreNeeded }
{}

/// Behind each packet of a run, each event of the splicer is one of the injector, with the same end in force.
pub fn invariant()
    ensures { Invariant }
{}

/// A splicer refuses no start cue, neither for room nor for an id nor for a meeting.
pub fn no_start_refused()
    ensures { NoStartRefused }
{}

/// A table that forgets judges every turn as one that does not.
pub fn forgetting_is_safe()
    ensures { ForgettingIsSafe }
{}

/// Behind each packet, the table of a splicer that lost cues and forgets answers for a time reached what the whole run does.
pub fn table_is_judged()
    ensures { TableIsJudged }
{}

/// Every cue of a run may come where nothing is lost.
pub fn cued_is_sound()
    ensures { CuedIsSound }
{}

/// Behind the last packet of a run, the uncancelled events of injector and splicer, in order of their starts, are one list.
pub fn uncancelled_events_agree()
    ensures { UncancelledEventsAgree }
{}

/// Cues of one piece go out in order of acceptance: in another order a splicer refuses a start, though nothing is lost.
pub fn order_is_needed()
    ensures { OrderIsNeeded }
{}
