//! What holds of lines as they are written and as they are read, over the definitions alone.

ghost use Rattle.packet_lines.specs.Laws.{LinesTellTheirPackets, TextsAreLines, BadLineIsFirst};

/// What is written is read: a packet's line, with any text behind it, tells the packet's 188 bytes, and then what that text tells.
pub fn lines_tell_their_packets()
    ensures { LinesTellTheirPackets }
{}

/// What is read was written so: a text is the lines of the packets that it tells, but for the end of the last line, which may be
/// missing, and for the first line that is no packet's and what stands behind it.
pub fn texts_are_lines()
    ensures { TextsAreLines }
{}

/// Where the first fault of a text's bytes is that they end in the middle of a packet, a line that is no packet's stands right
/// behind the lines of the packets before the fault.
pub fn bad_line_is_first()
    ensures { BadLineIsFirst }
{}
