//! The laws of what is known, each on a function of its own.

ghost use Rattle.known_laws.specs.Laws.{UnswitchedChangeNothing, PacketsPass, StepsAreOfMoves, ReportsAreWhole, PlansTellCrossings};

/// A packet that is of no switched stream, as one with cues, changes nothing of the plans beside the events that stand; an event that it
/// arms has none of its units out.
pub fn unswitched_change_nothing()
    ensures { UnswitchedChangeNothing }
{}

/// Behind a packet that is none of the cues, what is known is what was known with it, and the events that are forgotten now count.
pub fn packets_pass()
    ensures { PacketsPass }
{}

/// Where all packets went through the switch, what goes out by the steps that its counters have counted is what goes out by its moves.
pub fn steps_are_of_moves()
    ensures { StepsAreOfMoves }
{}

/// The counts over the events that stand, on top of those that are forgotten, are the report of the whole network.
pub fn reports_are_whole()
    ensures { ReportsAreWhole }
{}

/// The plans beside the events say which of them a stream has crossed more than once.
pub fn plans_tell_crossings()
    ensures { PlansTellCrossings }
{}
