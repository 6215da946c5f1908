//! An automation for tests, which fails at a take or a reply that the test chooses.

use chain_engine::{Automation, Taken};
use std::alloc::Global;

/// An automation that gives so many bytes with each take in turn, and then nothing more, or ends. It may fail at a take, and lose a reply.
#[derive(Drop)]
pub(crate) struct FailAutomation<'a> {
    pub(crate) rest: &'a [u8],
    pub(crate) sizes: &'a [usize],
    /// It ends behind its last bytes.
    pub(crate) ends: bool,
    pub(crate) good_takes: usize,
    pub(crate) good_answers: usize,
    pub(crate) replies: Vec<u8>,
    pub(crate) failures: u64,
}

impl<'a> FailAutomation<'a> {
    /// These bytes, so many with each take, from an automation that does not fail.
    pub(crate) fn of(alloc: Global, bytes: &'a [u8], sizes: &'a [usize]) -> FailAutomation<'a> {
        FailAutomation {
            rest: bytes,
            sizes,
            ends: false,
            good_takes: usize::MAX,
            good_answers: usize::MAX,
            replies: Vec::new(alloc),
            failures: 0,
        }
    }
}

impl Automation for FailAutomation<'_> {
    ghost use Rattle.std.specs.Prelude.{⊤};

    ghost exchanges = { λ s es t. ⊤ };

    ghost failures = { λ s. s.failures };

    ghost exchanges_refl = { λ s. tt };

    ghost exchanges_trans = { λ s t u xs ys h k. tt };

    fn take(&mut self, room: &mut [u8]) -> Taken {
        if self.good_takes == 0 {
            self.failures = self.failures.saturating_add(1);
            return Taken::Failed;
        }
        self.good_takes -= 1;
        let Some((size, later)) = self.sizes.split_first() else {
            return if self.ends {
                Taken::Ended
            } else {
                Taken::Nothing
            };
        };
        let count = room.len().min(self.rest.len()).min(*size);
        let (piece, rest) = self.rest.split_at(count);
        room[..count].copy_from_slice(piece);
        self.rest = rest;
        self.sizes = later;
        Taken::Bytes(count)
    }

    fn answer(&mut self, reply: &[u8]) -> bool {
        if self.good_answers == 0 || self.replies.extend_from_slice(reply).is_err() {
            self.failures = self.failures.saturating_add(1);
            return false;
        }
        self.good_answers -= 1;
        true
    }
}
