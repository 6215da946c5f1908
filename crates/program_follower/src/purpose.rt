//! What a network is followed for.

ghost use Rattle.std.specs.Prelude.{◌≡◌};
ghost use Rattle.program_follower.specs.Purposes.{writing_cues, reading_cues, reading_advertisement};

use psi_tables::Config;
use ts_packet::Pid;

/// Which program of a network is followed, and what is to become of cues.
#[derive(Clone, Copy, Debug, PartialEq, Eq)]
pub struct Purpose {
    /// `program_number`; `None` for the first program that a PAT lists.
    pub program: Option<u16>,
    /// The PID on which cues stand, or are to stand. Neither the map nor a switched stream nor the clock may be on it.
    pub cue_pid: Option<Pid>,
    /// Cues are to be put on that PID: no packet of the network and no entry of its map may be on it, and the map needs room for the
    /// entry of the cues.
    pub writes_cues: bool,
}

impl Purpose {
    /// To put cues into the network.
    pub fn writing_cues(config: &Config) -> Purpose
        ensures { result ≡ writing_cues config.now }
    {
        Purpose {
            program: Some(config.program),
            cue_pid: Some(config.cue_pid),
            writes_cues: true,
        }
    }

    /// To follow the cues of the network.
    pub fn reading_cues(config: &Config) -> Purpose
        ensures { result ≡ reading_cues config.now }
    {
        Purpose {
            program: Some(config.program),
            cue_pid: Some(config.cue_pid),
            writes_cues: false,
        }
    }

    /// To read an advertisement: the first program of its own stream, where no PID is that of cues.
    pub fn advertisement() -> Purpose
        ensures { result ≡ reading_advertisement }
    {
        Purpose {
            program: None,
            cue_pid: None,
            writes_cues: false,
        }
    }
}

/// A program, as a PAT lists it.
#[derive(Clone, Copy, Debug, PartialEq, Eq)]
pub struct Listed {
    /// `program_number`.
    pub program: u16,
    /// The PID of its map.
    pub pid: Pid,
}
