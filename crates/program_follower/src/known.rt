//! What is known of a program.

ghost use Rattle.std.specs.Prelude.{◌≡◌};

use arrayvec::ArrayVec;
use psi_tables::Stream;
use ts_packet::Pid;

/// What the first map of a program says of it.
#[derive(Debug, Drop)]
pub struct KnownProgram {
    /// The switched streams in the order of the map.
    pub streams: ArrayVec<Stream, 8>,
    /// The PID of the program's clock references.
    pub pcr_pid: Pid,
}

impl KnownProgram {
    ghost use Rattle.program_follower.specs.Known.{program_seen};

    /// The same of it.
    pub(crate) fn copied(&self) -> KnownProgram
        ensures { program_seen result ≡ program_seen self.now }
    {
        let mut streams = ArrayVec::new();
        for stream in self.streams.as_slice() {
            streams.push(*stream);
        }
        KnownProgram {
            streams,
            pcr_pid: self.pcr_pid,
        }
    }
}
