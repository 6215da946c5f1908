//! How many flushes a writer made.

ghost use Rattle.std.specs.Prelude.{◌≡◌};
ghost use Rattle.run_ends.specs.Flushes.{no_flushes, CountsFlush};

use std::io;

/// The flushes of a writer, each count up to the greatest u64.
#[derive(Clone, Copy, Debug, PartialEq, Eq, Drop)]
pub struct Flushes {
    /// All that were made.
    made: u64,
    /// Those that failed.
    failed: u64,
}

impl Flushes {
    /// None.
    pub fn new() -> Flushes
        ensures { result ≡ no_flushes }
    {
        Flushes { made: 0, failed: 0 }
    }

    /// Counts a flush that answered so.
    pub fn count(&mut self, answer: &io::Result<()>)
        ensures { CountsFlush answer.now self.old self.new }
    {
        self.made = self.made.saturating_add(1);
        if answer.is_err() {
            self.failed = self.failed.saturating_add(1);
        }
    }
}
