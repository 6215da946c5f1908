//! What a device counts of its calls.

ghost use Rattle.std.specs.Prelude.{◌≡◌};
ghost use Rattle.ts_packet.specs.Transfers.{no_tally, IsCounted, CountsFailure, CountsZero, halts};

use crate::device::DeviceFault;

/// What a device counts of its calls, each up to the greatest u64.
#[derive(Clone, Copy, Debug, PartialEq, Eq, Drop)]
pub struct Tally {
    /// All its calls.
    calls: u64,
    /// Those that failed.
    failed: u64,
    /// Those that moved no byte: a read at the end, a write that took nothing.
    zeros: u64,
    /// The last call failed or moved no byte.
    halted: bool,
}

impl Tally {
    /// The counts of a device that was not called.
    pub fn new() -> Tally
        ensures { result ≡ no_tally }
    {
        Tally {
            calls: 0,
            failed: 0,
            zeros: 0,
            halted: false,
        }
    }

    /// Counts a call that answered so.
    #[inline(always)]
    pub fn count(&mut self, answer: &Result<usize, DeviceFault>)
        ensures calls { IsCounted self.old.calls self.new.calls }
        ensures failures { CountsFailure answer.now self.old.failed self.new.failed }
        ensures zeros { CountsZero answer.now self.old.zeros self.new.zeros }
        ensures halted { self.new.halted ≡ halts answer.now }
    {
        self.calls = self.calls.saturating_add(1);
        match answer {
            Ok(n) => {
                self.halted = *n == 0;
                if self.halted {
                    self.zeros = self.zeros.saturating_add(1);
                }
            }
            Err(DeviceFault::Interrupted) => self.halted = false,
            Err(DeviceFault::Failed) => {
                self.failed = self.failed.saturating_add(1);
                self.halted = true;
            }
        }
    }
}
