//! What holds of a program and of streams that are written from a network, over the definitions alone.

ghost use Rattle.program_laws.specs.Laws.{TablesGrow, Stays};
ghost use Rattle.program_laws.specs.Writing.{WrittenReadsAgain};
ghost use Rattle.program_laws.specs.Behind.{HeadPasses, OthersAreWritten, OthersAreNoUnits};
ghost use Rattle.program_laws.specs.CueEntry.{EntryGoesOut};
ghost use Rattle.program_laws.specs.Spliced.{EntryIsNoFault};
ghost use Rattle.program_laws.specs.FirstFault.{OneMorePacket, FewMoreBytes, FaultlessBytes};
ghost use Rattle.program_laws.specs.Cued.{LaterTablesAgree, NoCuePackets, CuedStreamReads};

/// One packet more adds the tables that it finishes.
pub fn tables_grow()
    ensures { TablesGrow }
{}

/// Once known, the program's PMT PID, the program and the end of the head stay.
pub fn stays()
    ensures { Stays }
{}

/// A stream that is written from a network has its PAT, its head and its sections, the program's
/// maps changed.
pub fn written_reads_again()
    ensures { WrittenReadsAgain }
{}

/// Behind the head of a written stream the network's packets stand as they did, but for packets put
/// in and packets on the PMT's PID.
pub fn head_passes()
    ensures { HeadPasses }
{}

/// Packets that are no payload packets of switched PIDs change neither units nor times.
pub fn others_are_no_units()
    ensures { OthersAreNoUnits }
{}

/// A map that has room for an entry for cues, and lists nothing on their PID, goes out with the
/// entry, is of the same program, and comes back.
pub fn entry_goes_out()
    ensures { EntryGoesOut }
{}

/// Without fault every later PAT gives the program the same PID, and every later map of it has
/// the same switched streams and PCR PID.
pub fn later_tables_agree()
    ensures { LaterTablesAgree }
{}

/// A network without fault, whatever packets of the cue PID are put in front of its packets, has its
/// PAT, program and units, and stripped again its sections.
pub fn cued_stream_reads()
    ensures { CuedStreamReads }
{}

/// Packets of other PIDs stand in a written stream as they did.
pub fn others_are_written()
    ensures { OthersAreWritten }
{}

/// Without fault no packet of a network to which cues are written is on their PID.
pub fn no_cue_packets()
    ensures { NoCuePackets }
{}

/// A map without fault for those who write cues is, with the entry, without fault for those who
/// read them.
pub fn entry_is_no_fault()
    ensures { EntryIsNoFault }
{}

/// One more packet: the first fault of a network's bytes is that of those before it, else what is wrong with the packet behind them.
/// It holds for each purpose, and so for those who put cues into a network, those who follow its cues, and those who read an
/// advertisement.
pub fn one_more_packet()
    ensures { OneMorePacket }
{}

/// Fewer than 188 bytes more: the first fault is that of the packets before them, else that they are too few.
pub fn few_more_bytes()
    ensures { FewMoreBytes }
{}

/// A network's bytes are without fault exactly where each part of 188 bytes is a packet, and none is wrong behind those before it.
pub fn faultless_bytes()
    ensures { FaultlessBytes }
{}
