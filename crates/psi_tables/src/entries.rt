//! The streams of a program map, one after another.

use crate::stream::{Stream, first_entry};

/// The streams that a program map lists, in the order of their entries.
#[derive(Clone, Copy, Debug)]
pub struct Entries<'a> {
    bytes: &'a [u8],
}

impl<'a> Entries<'a> {
    ghost use Rattle.std.specs.Prelude.{◌≡◌, map};
    ghost use Rattle.psi_tables.specs.Runs.{things_of};
    ghost use Rattle.psi_tables.specs.Streams.{entry_at, stream_of};
    ghost use Rattle.psi_tables.specs.StreamsLeft.{streams_left};

    #[tactic(auto, unfolding(crate::specs::StreamsLeft::streams_left))]
    pub(crate) fn of(bytes: &'a [u8]) -> Entries<'a>
        ensures { streams_left result ≡ map stream_of (things_of entry_at bytes.now) }
    {
        Entries { bytes }
    }
}

impl<'a> Iterator for Entries<'a> {
    ghost use Rattle.std.specs.Iterator.{YieldsFirst, item_count};
    ghost use Rattle.psi_tables.specs.StreamsLeft.{streams_left};

    type Item = Stream;

    ghost next_gives = { YieldsFirst streams_left };

    ghost remaining = { item_count streams_left };

    #[tactic(auto, unfolding(crate::specs::StreamsLeft::streams_left), using(crate::proofs::EntryLemmas::left_ended, crate::proofs::EntryLemmas::left_more))]
    fn next(&mut self) -> Option<Stream> {
        let Some((stream, _, after)) = first_entry(self.bytes) else {
            return None;
        };
        self.bytes = after;
        Some(stream)
    }
}
