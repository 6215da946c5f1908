//! Laws over the definitions of a script's text, each a function that does nothing and whose contract is the law.

ghost use Rattle.break_scripts.specs.Laws.{LinesAreReadBack, LinesRise, MessagesStandBeforeTheirPackets};

/// The number and the digits of each line are read back as its packet and its bytes.
pub fn lines_are_read_back()
    ensures { LinesAreReadBack }
{}

/// Where the packets of the requests do not fall, the numbers of the lines rise.
pub fn lines_rise()
    ensures { LinesRise }
{}

/// The bytes of the lines of a packet are the messages of all requests before it, in their order.
pub fn messages_stand_before_their_packets()
    ensures { MessagesStandBeforeTheirPackets }
{}
