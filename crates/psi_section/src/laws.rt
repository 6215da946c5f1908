//! Laws over the definitions of sections, each a function that does nothing and whose contract is the law.

ghost use Rattle.psi_section.specs.Laws.{SectionsGrow, SectionsOfPid, OthersChangeNothing, OthersGiveNothing, SectionsHavePackets};
ghost use Rattle.psi_section.specs.Laws.{GivenWhereSound, GivenCanBeGiven, GivenAreBytes, FitsOnePacket};
ghost use Rattle.psi_section.specs.Laws.{ReadsBack, ReadBackInTurn, CrcCloses};

/// A packet behind others adds the sections that it finishes.
pub fn sections_grow()
    ensures { SectionsGrow }
{}

/// Packets of other PIDs, and those marked in error, change nothing.
pub fn sections_of_pid()
    ensures { SectionsOfPid }
{}

/// What an assembler holds, the number of sections that failed, and what it gives next come from the packets of its PID alone.
pub fn others_change_nothing()
    ensures { OthersChangeNothing }
{}

/// A packet of another PID, or one marked in error, finishes no section.
pub fn others_give_nothing()
    ensures { OthersGiveNothing }
{}

/// The sections that are listed with the packets that finish them are the sections of the run.
pub fn sections_have_packets()
    ensures { SectionsHavePackets }
{}

/// A section can be given exactly where it has 3 to 4,096 bytes, as many as its section_length says, its table_id is not 0xFF, and
/// its CRC_32, where it ends with one, is 0 over the whole.
pub fn given_where_sound()
    ensures { GivenWhereSound }
{}

/// What an assembler gives can be given.
pub fn given_can_be_given()
    ensures { GivenCanBeGiven }
{}

/// What an assembler gives is bytes, where the packets are.
pub fn given_are_bytes()
    ensures { GivenAreBytes }
{}

/// A section of 183 bytes at most goes out in one packet.
pub fn fits_one_packet()
    ensures { FitsOnePacket }
{}

/// The packets of a section that can be given read back as that one section, through any state of an assembler in which the first
/// is no duplicate.
pub fn reads_back()
    ensures { ReadsBack }
{}

/// The packets of sections that can be given, put in turn by one packetiser, read back as those sections in their order.
pub fn read_back_in_turn()
    ensures { ReadBackInTurn }
{}

/// Bytes with their CRC_32 behind, most significant byte first, have the CRC_32 0, and with no other word behind.
pub fn crc_closes()
    ensures { CrcCloses }
{}
