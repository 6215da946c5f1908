//! The laws of armed events, each on a function of its own.

ghost use Rattle.armed_laws.specs.Laws.{EventsGrow, EventsSettle, EventsNeverMeet};

/// With each packet an event stays as it is, or is cancelled before its start, or ends early, before its end; and those that are armed
/// are still to come.
pub fn events_grow()
    ensures { EventsGrow }
{}

/// So it is over any number of packets.
pub fn events_settle()
    ensures { EventsSettle }
{}

/// No two armed events ever have a time in common, those that are forgotten among them.
pub fn events_never_meet()
    ensures { EventsNeverMeet }
{}
