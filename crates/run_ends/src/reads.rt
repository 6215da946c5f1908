//! How many reads a reader made.

ghost use Rattle.std.specs.Prelude.{◌≡◌};
ghost use Rattle.run_ends.specs.Reads.{none_made, CountsCall};

use std::io::{self, ErrorKind};

/// The reads of a reader, each count up to the greatest u64.
#[derive(Clone, Copy, Debug, PartialEq, Eq, Drop)]
pub struct Reads {
    /// All that were made.
    made: u64,
    /// Those that failed for good: an interrupted one may be made again.
    failed: u64,
}

impl Reads {
    /// None.
    pub fn new() -> Reads
        ensures { result ≡ none_made }
    {
        Reads { made: 0, failed: 0 }
    }

    /// Counts a read that answered so.
    pub fn count(&mut self, answer: &io::Result<usize>)
        ensures { CountsCall answer.now self.old self.new }
    {
        self.made = self.made.saturating_add(1);
        if let Err(error) = answer
            && error.kind() != ErrorKind::Interrupted
        {
            self.failed = self.failed.saturating_add(1);
        }
    }
}
