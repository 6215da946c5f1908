//! What holds of every switch, over the definitions alone.

ghost use Rattle.splice_plans.specs.Laws.{SwitchGrows, PutsAtUnitStarts, SentGrows};
ghost use Rattle.splice_plans.specs.Histories.{EndsNeverRise, PlayedSettle, ArmedIsHistory};
ghost use Rattle.splice_plans.specs.Adverts.{LibrariesAreSteady};

/// What is out stays out, whatever comes behind it.
pub fn switch_grows()
    ensures { SwitchGrows }
{}

/// Units of advertisements are put in before packets that begin a unit, and before no others.
pub fn puts_at_unit_starts()
    ensures { PutsAtUnitStarts }
{}

/// The units of an event that are out stay out, in their order, also where its end comes earlier meanwhile.
pub fn sent_grows()
    ensures { SentGrows }
{}

/// Of an event that has begun in a stream the end in force never rises, and stays where the greatest time has come to it.
pub fn ends_never_rise()
    ensures { EndsNeverRise }
{}

/// Whether a played event has begun in a stream, and whether it is closed there, by what was known at the time is what the events of the
/// end say.
pub fn played_settle()
    ensures { PlayedSettle }
{}

/// The events that the cues of a network arm behind its head are such a history.
pub fn armed_is_history()
    ensures { ArmedIsHistory }
{}

/// What a library says of an event does not change with what becomes of the event.
pub fn libraries_are_steady()
    ensures { LibrariesAreSteady }
{}
