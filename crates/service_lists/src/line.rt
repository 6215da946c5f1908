//! The text of a line: a program's number, the PID for its cues, its index, and the path of its list of advertisements.

ghost use Rattle.std.specs.Prelude.{◌≡◌, ◌<◌, ◌^◌, ◌⊎◌, [], None, Some, IfOk, IfErr, IfSome};
ghost use Rattle.std.specs.List.{before_first, after_first};
ghost use Rattle.decimal_numbers.specs.Numbers.{number_below};
ghost use Rattle.psi_tables.specs.declared.config.BadConfig.{BadConfig};
ghost use Rattle.psi_tables.specs.Configs.{config_fault};
ghost use Rattle.ad_lists.specs.Lists.{is_space};
ghost use Rattle.service_lists.specs.Lists.{IsServiceOf, BlamesText};

use crate::fault::ServicesFault;
use decimal_numbers::number_below;
use psi_tables::Config;
use ts_packet::Pid;

/// The first number that two bytes do not hold.
const NUMBER_LIMIT: u64 = 0x1_0000;

/// The first number that is no PID.
const PID_LIMIT: u64 = 0x2000;

/// What a line says of a service.
#[derive(Clone, Copy, Debug, Drop)]
pub(crate) struct ServiceLine<'a> {
    /// The program, the PID for its cues and the index of its messages.
    pub(crate) config: Config,
    /// The path of its list of advertisements.
    pub(crate) adverts: &'a str,
}

/// The number before the first space of a text, below this limit, and what stands behind that space.
fn number_before(text: &str, limit: u64) -> Option<(u64, &str)>
    ensures number { IfSome result (λ r. number_below (before_first is_space text.now) limit ≡ Some r.0) }
    ensures rest { IfSome result (λ r. r.1.now ≡ after_first is_space text.now) }
    ensures none { result ≡ None → (after_first is_space text.now ≡ [])
        ⊎ (number_below (before_first is_space text.now) limit ≡ None) }
{
    let Some((number, rest)) = text.split_once(' ') else {
        return None;
    };
    match number_below(number, limit) {
        Some(number) => Some((number, rest)),
        None => None,
    }
}

/// The service of three numbers.
fn config_of(program: u64, cue_pid: u64, index: u64) -> Result<Config, ServicesFault>
    requires program { program < 2 ^ 16 }
    requires cue_pid { cue_pid < 8192 }
    requires index { index < 2 ^ 16 }
    ensures ok { IfOk result (λ c. (config_fault program cue_pid ≡ None)
        × (c.program ≡ program) × (c.cue_pid ≡ cue_pid) × (c.index ≡ index)) }
    ensures refused { IfErr result (λ f. (bad : BadConfig) × (f ≡ ServicesFault.Config bad)
        × (config_fault program cue_pid ≡ Some bad)) }
{
    let Some(cue_pid) = Pid::new(cue_pid as u16) else {
        return Err(ServicesFault::BadLine);
    };
    match Config::new(program as u16, cue_pid, index as u16) {
        Ok(config) => Ok(config),
        Err(bad) => Err(ServicesFault::Config(bad)),
    }
}

/// What a line says.
///
/// # Errors
///
/// `BadLine` where it is not of this form or a number is not in its range; `Config` where the program or the PID for cues is refused.
pub(crate) fn service_of(line: &[u8]) -> Result<ServiceLine<'_>, ServicesFault>
    ensures taken { IfOk result (λ s. IsServiceOf s.config s.adverts.now line.now) }
    ensures refused { IfErr result (λ f. BlamesText f line.now) }
{
    let Ok(text) = str::from_utf8(line) else {
        return Err(ServicesFault::BadLine);
    };
    let Some((program, rest)) = number_before(text, NUMBER_LIMIT) else {
        return Err(ServicesFault::BadLine);
    };
    let Some((cue_pid, rest)) = number_before(rest, PID_LIMIT) else {
        return Err(ServicesFault::BadLine);
    };
    let Some((index, adverts)) = number_before(rest, NUMBER_LIMIT) else {
        return Err(ServicesFault::BadLine);
    };
    if adverts.is_empty() {
        return Err(ServicesFault::BadLine);
    }
    match config_of(program, cue_pid, index) {
        Ok(config) => Ok(ServiceLine { config, adverts }),
        Err(fault) => Err(fault),
    }
}
