//! What holds of the cues that go out and of the cued stream, over the definitions alone.

ghost use Rattle.injector.specs.Laws.{NoCueBetween, CuedIsWritten, CuedReadsAgain};

/// No cue goes out before a packet that leaves the greatest time as it was, where no request was accepted since the packet before it.
pub fn no_cue_between()
    ensures { NoCueBetween }
{}

/// What goes out for a history is the network of its packets, with its cues in front of them and an entry for cues in the maps.
pub fn cued_is_written()
    ensures { CuedIsWritten }
{}

/// Of a network without fault it has the PAT, the program and the units, and stripped again the sections.
pub fn cued_reads_again()
    ensures { CuedReadsAgain }
{}
