//! The laws of the cue path, each on a function of its own.

ghost use Rattle.path_laws.specs.Telling.{StartTells, EndTells, CancelTells};
ghost use Rattle.path_laws.specs.Packets.{SectionsReadBack, StreamArms, CuePathInPackets};
ghost use Rattle.path_laws.specs.Packets.{CuePathInPacketsAtTheEnd, CuedStreamBrings, CuedStreamArms};
ghost use Rattle.path_laws.specs.Thinning.{ThinnedBrings, ThinnedOfAll, ThinnedCuePath};
ghost use Rattle.path_laws.specs.Laws.{RequestsAreARun, CuesTellTheLine, CuePathOfEvents, CuePathOfEventsAtTheEnd};

/// The section that an injector writes for the start of an event reads back, and is taken by the switch as that event, at its time on the
/// line.
pub fn start_tells()
    ensures { StartTells }
{}

/// The section for an early end reads back, and is taken as the end of its event at that time.
pub fn end_tells()
    ensures { EndTells }
{}

/// The section for a cancel reads back, and is taken as the cancel of its event.
pub fn cancel_tells()
    ensures { CancelTells }
{}

/// The requests that an injector accepts are a run by the definitions on the line.
pub fn requests_are_a_run()
    ensures { RequestsAreARun }
{}

/// What an injector sends tells, on the line, the cues that its accepted requests make due, however often the ring turns.
pub fn cues_tell_the_line()
    ensures { CuesTellTheLine }
{}

/// Behind each packet, what is left of an injector's cues arms exactly the uncancelled events that it accepted and whose start is
/// reached.
pub fn cue_path_of_events()
    ensures { CuePathOfEvents }
{}

/// Behind the last packet it arms exactly the uncancelled events that were accepted.
pub fn cue_path_of_events_at_the_end()
    ensures { CuePathOfEventsAtTheEnd }
{}

/// A reader of the cue PID finds in the cued stream of a network without fault exactly the sections of the injector's cues, in order.
pub fn sections_read_back()
    ensures { SectionsReadBack }
{}

/// What a stream arms, in front of whose packets some of the cues stand, is what the path of these cues does.
pub fn stream_arms()
    ensures { StreamArms }
{}

/// Behind each packet of a network without fault, a switch that reads what is left of the cues has armed exactly the uncancelled events
/// that the injector has accepted and whose start is reached.
pub fn cue_path_in_packets()
    ensures { CuePathInPackets }
{}

/// The injector's own cued stream is such a stream, with one copy of each cue.
pub fn cued_stream_brings()
    ensures { CuedStreamBrings }
{}

/// Where a packet that is left of the injector's and is a duplicate of the payload packet left before it tells the same again, of the same
/// event, the reader finds of each cue the sections of its copies, and what it does not find of one it has found before.
pub fn thinned_brings()
    ensures { ThinnedBrings }
{}

/// The injector's own packets are those of which one copy each is left.
pub fn thinned_of_all()
    ensures { ThinnedOfAll }
{}

/// Behind the last packet it has armed exactly the uncancelled events that were accepted.
pub fn cue_path_in_packets_at_the_end()
    ensures { CuePathInPacketsAtTheEnd }
{}

/// Behind each packet it is so of the events whose start is reached, too, with the injector's packets of which some are left out and some
/// doubled, where one that is a duplicate of the packet left before it tells the same again, of the same event.
pub fn thinned_cue_path()
    ensures { ThinnedCuePath }
{}

/// Of the cued stream itself, behind each packet, a switch has armed exactly the uncancelled events that were accepted.
pub fn cued_stream_arms()
    ensures { CuedStreamArms }
{}
