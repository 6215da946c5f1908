//! What becomes of the entry for cues in the maps of a program.

use ts_packet::Pid;

/// How the maps of a program change on their way out.
#[derive(Clone, Copy, Debug, PartialEq, Eq)]
pub enum CueEntry {
    /// They get an entry for cues on this PID.
    Added(Pid),
    /// They lose each entry for this PID.
    Stripped(Pid),
}
