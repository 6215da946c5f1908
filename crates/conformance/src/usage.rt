//! What the program says of itself.

/// How the program is used.
pub const USAGE: &str = "Usage: conformance < LINES
Shows what the codecs read: each line of standard input is answered by one line.

  cue HEX               an SCTE 35 section
  message HEX           an SCTE 104 message
  table HEX             a PAT or PMT section; a PMT also with a cue entry of PID 496 added, and stripped
  sections HEX HEX ..   packets of one PID, and the sections that each of them finishes

Digits are upper case, and - stands for no bytes. Any other line is answered: bad line.
The exit status is 0; 1 where a device fails or memory is refused; 2 behind any argument,
as this help is.
";
