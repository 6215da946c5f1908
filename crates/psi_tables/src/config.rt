//! Which program is worked on, and where its cues go.

ghost use Rattle.std.specs.Prelude.{◌≡◌, ◌<◌, ◌≤◌, IfOk, IfErr, Some, None};
ghost use Rattle.psi_tables.specs.Configs.{config_fault};

use thiserror::Error;
use ts_packet::Pid;

/// Why a configuration is refused.
#[derive(Clone, Copy, Debug, PartialEq, Eq, Drop, Error)]
pub enum BadConfig {
    /// The program's number is 0, which stands for the network information and for no program.
    #[error("0 is the number of no program")]
    Program,
    /// The cue PID is below 0x0010, where the standard reserves PIDs, or 0x1FFF, that of null packets.
    #[error("the cue PID is reserved")]
    CuePid,
}

/// The program whose breaks are to be cued or spliced, and where its cues go.
#[derive(Clone, Copy, Debug, PartialEq, Eq)]
pub struct Config {
    /// `program_number`, not 0.
    pub program: u16,
    /// The PID of the cues, 0x0010 to 0x1FFE.
    pub cue_pid: Pid,
    /// The `DPI_PID_index` that messages to this program have.
    pub index: u16,
    ghost is_program: { 0 < program },
    ghost above_reserved: { 16 ≤ cue_pid },
    ghost below_null: { cue_pid < 8191 },
}

impl Config {
    /// A configuration of this program, this PID for the cues and this index.
    ///
    /// # Errors
    ///
    /// `Program` where the program's number is 0; else `CuePid` where the PID for the cues is 0x1FFF or below 0x0010.
    pub fn new(program: u16, cue_pid: Pid, index: u16) -> Result<Config, BadConfig>
        ensures ok { IfOk result (λ c. (config_fault program cue_pid ≡ None)
            × (c.program ≡ program) × (c.cue_pid ≡ cue_pid) × (c.index ≡ index)) }
        ensures err { IfErr result (λ f. config_fault program cue_pid ≡ Some f) }
    {
        if program == 0 {
            return Err(BadConfig::Program);
        }
        let number = cue_pid.get();
        if number < 0x10 || number >= 0x1FFF {
            return Err(BadConfig::CuePid);
        }
        Ok(Config {
            program,
            cue_pid,
            index,
        })
    }
}
