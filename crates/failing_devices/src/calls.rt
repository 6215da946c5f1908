//! Which calls of a device go well, and what becomes of those behind them.

ghost use Rattle.std.specs.Prelude.{◌≡◌, ◌≤◌, IfOk};

use std::io::{self, ErrorKind};

/// What becomes of a call behind the last good one, and of all that follow.
#[derive(Clone, Copy)]
pub enum Ending {
    /// It fails.
    Fails,
    /// It moves no byte.
    Stops,
    /// It is interrupted.
    Waits,
}

/// Calls of a device: how many bytes each moves at most, how many go well, and what comes behind them.
#[derive(Clone, Copy)]
pub struct Calls {
    /// The most bytes of a call.
    pub step: usize,
    /// How many calls go well.
    pub good: usize,
    /// What becomes of the others.
    pub ending: Ending,
}

impl Calls {
    /// Calls that all go well.
    pub fn well() -> Calls {
        Calls {
            step: usize::MAX,
            good: usize::MAX,
            ending: Ending::Fails,
        }
    }

    /// Takes the next call: how many bytes it may move, or how it ends.
    pub(crate) fn next(&mut self) -> io::Result<usize>
        ensures { IfOk result (λ n. n ≤ self.old.step) }
    {
        if self.good == 0 {
            return ended(self.ending);
        }
        self.good -= 1;
        Ok(self.step)
    }
}

/// What a call that ends so answers.
fn ended(ending: Ending) -> io::Result<usize>
    ensures { IfOk result (λ n. n ≡ 0) }
{
    match ending {
        Ending::Fails => Err(io::Error::from(ErrorKind::Other)),
        Ending::Stops => Ok(0),
        Ending::Waits => Err(io::Error::from(ErrorKind::Interrupted)),
    }
}
