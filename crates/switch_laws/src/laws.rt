//! What holds of every spliced stream, over the definitions alone.

ghost use Rattle.switch_laws.specs.Laws.{MovesBringTheNetwork, RunsAreSettled, RowsArePlaced, RowsAreSpliced};
ghost use Rattle.switch_laws.specs.Laws.{RunsCarry, RunsHaveUnits, RunsKeepOthers, NothingPlayed};
ghost use Rattle.switch_laws.specs.Whole.{OutputIsInOrder, NothingIsPlayed, NoPacketChanges, NoProgram};
ghost use Rattle.switch_laws.specs.Whole.{RunsAreSound, StreamsGoByThemselves, PlacedIsCarried, StreamsStayGapless};
ghost use Rattle.switch_laws.specs.Standing.{PacketsStandAs, OthersStay, FaultlessIsSound};
ghost use Rattle.switch_laws.specs.Slices.{SlicesAreWhole, SlicesGoToAnEnd};
ghost use Rattle.switch_laws.specs.Clocks.{ClocksStay};
ghost use Rattle.switch_laws.specs.Sections.{SectionsStay, BytesGoOut};

/// What a switch does to a run has each packet of the run once, in order, kept or left out.
pub fn moves_bring_the_network()
    ensures { MovesBringTheNetwork }
{}

/// What a switch did by what was known of the events at each packet is what the events of the end say of it.
pub fn runs_are_settled()
    ensures { RunsAreSettled }
{}

/// Of a switched stream stand the packets before its first unit, and then its units outside all played events, each with its
/// packets, with all that goes out of each reached event before the first unit at or past its start.
pub fn rows_are_placed()
    ensures { RowsArePlaced }
{}

/// Where the network is conditioned at the starts, the units and the slices stand where their times say.
pub fn rows_are_spliced()
    ensures { RowsAreSpliced }
{}

/// On any network the output of a run carries, behind a switched stream's packets before its first unit, what is placed.
pub fn runs_carry()
    ensures { RunsCarry }
{}

/// Where the network is gapless on a switched PID, so is the output, and its units are what is placed.
pub fn runs_have_units()
    ensures { RunsHaveUnits }
{}

/// The packets of all but the switched PIDs, and those marked in error, are the same list, byte for byte.
pub fn runs_keep_others()
    ensures { RunsKeepOthers }
{}

/// Where no event is played, every packet is kept, and nothing is put in.
pub fn nothing_played()
    ensures { NothingPlayed }
{}

/// Across all PIDs, what stands for the packets of the network stands in their order, each behind what is put in before it.
pub fn output_is_in_order()
    ensures { OutputIsInOrder }
{}

/// Where no event is played, the output is the network without its cues and their entries.
pub fn nothing_is_played()
    ensures { NothingIsPlayed }
{}

/// Then every packet of another PID is the network's byte for byte, in order across all PIDs.
pub fn no_packet_changes()
    ensures { NoPacketChanges }
{}

/// Where no PAT lists the program, the output is the network without the packets of the cue PID.
pub fn no_program()
    ensures { NoProgram }
{}

/// Where the units of the advertisements are packed, so are all that are put in.
pub fn runs_are_sound()
    ensures { RunsAreSound }
{}

/// The payload packets of a switched PID are those of the head, and those of the run behind it, as if no other packet were there.
pub fn streams_go_by_themselves()
    ensures { StreamsGoByThemselves }
{}

/// On any network a switched stream of the output has the packets of the head, those before its first unit, and then carries what is placed.
pub fn placed_is_carried()
    ensures { PlacedIsCarried }
{}

/// Where a switched stream is gapless, with its head, so it is in the output, and its units behind the head are what is placed, if nothing
/// is put in before a payload packet of the stream has come behind the head.
pub fn streams_stay_gapless()
    ensures { StreamsStayGapless }
{}

/// For each packet of the network stands itself, with the counter of the rule where it is of a switched stream; or its clock reference
/// alone, where its unit lies in a played event; or sections, on the PID of the PMT; and for a cue nothing.
pub fn packets_stand_as()
    ensures { PacketsStandAs }
{}

/// The packets of all PIDs that a switch does not touch, and those marked in error, are one list, byte for byte, in their order.
pub fn others_stay()
    ensures { OthersStay }
{}

/// Where those who read the cues of a network find no fault in it, neither the PID of its cues nor that of its PMT is a switched stream's,
/// and each switched stream is listed once.
pub fn faultless_is_sound()
    ensures { FaultlessIsSound }
{}

/// In a stream that is conditioned at an event's start, what goes out of it is all units of its advertisement before its last end, where it
/// is reached.
pub fn slices_are_whole()
    ensures { SlicesAreWhole }
{}

/// In any stream, what goes out of an event is all units of its advertisement before the end that was in force as it was over, which is not
/// before its last one, where it is reached, and nothing where it is not.
pub fn slices_go_to_an_end()
    ensures { SlicesGoToAnEnd }
{}

/// The clock references of a switched stream are the network's, as one list in their order, also where its packets are left out.
pub fn clocks_stay()
    ensures { ClocksStay }
{}

/// Where those who read the cues of a network find no fault in it, its PAT and the sections on the PID of the PMT are read again from the
/// output, the program's maps without the entry for the cues.
pub fn sections_stay()
    ensures { SectionsStay }
{}

/// In every network of bytes the program's maps can be sent without the entry for the cues, and are read back.
pub fn bytes_go_out()
    ensures { BytesGoOut }
{}
