//! What is kept beside a standing event for its cues.

ghost use Rattle.std.specs.Prelude.{◌≡◌, ◌≤◌, ℕ, ℤ, List, length, Option, option_map};
ghost use Rattle.pes_time.specs.Line.{ring_of};
ghost use Rattle.event_table.specs.Standing.{on_ring};
ghost use Rattle.injector.specs.Senders.{Sender, told_now};
ghost use Rattle.injector.specs.Noting.{ids_of, notes_of, notes_asked};

use crate::asked::ServedRequest;
use arrayvec::ArrayVec;
use event_table::Event;
use pes_time::Time33;

/// At most 14 avail ids, by value.
#[derive(Clone, Copy, Debug, PartialEq, Eq)]
pub(crate) struct KeptAvailIds {
    ids: [u32; 14],
    count: usize,
}

impl KeptAvailIds {
    /// These ids.
    fn of(avails: &ArrayVec<u32, 14>) -> KeptAvailIds
        ensures value { result ≡ ids_of avails.now.items }
        ensures most { length avails.now.items ≤ 14 }
    {
        let mut ids = [0; 14];
        let count = avails.len();
        ids[..count].copy_from_slice(avails.as_slice());
        KeptAvailIds { ids, count }
    }

    /// The ids again.
    pub(crate) fn get(&self) -> ArrayVec<u32, 14>
        ensures { (ids : List ℕ) → length ids ≤ 14 → self.now ≡ ids_of ids → result.items ≡ ids }
    {
        let mut avails = ArrayVec::new();
        avails
            .try_extend_from_slice(&self.ids[..self.count.min(14)])
            .unwrap();
        avails
    }
}

/// An event as its cues have told it.
#[derive(Clone, Copy, Debug, PartialEq, Eq)]
pub(crate) struct Told {
    /// The ticks from the start to the end.
    pub(crate) length: u64,
    pub(crate) cancelled: bool,
}

/// What the start cue of an event tells beside the event, and what was sent of it.
#[derive(Clone, Copy, Debug, PartialEq, Eq)]
pub(crate) struct Notes {
    /// `avail_num`.
    pub(crate) avail_num: u8,
    /// `avails_expected`.
    pub(crate) avails_expected: u8,
    /// The `provider_avail_id`s.
    pub(crate) avails: KeptAvailIds,
    /// The event as it was when its last new cue went out; `None` where none has.
    pub(crate) told: Option<Told>,
    /// The greatest time behind the packet before which its last cue went out.
    pub(crate) last: Option<Time33>,
}

impl Default for Notes {
    /// What fills an unused place of a table.
    fn default() -> Notes {
        Notes {
            avail_num: 0,
            avails_expected: 0,
            avails: KeptAvailIds {
                ids: [0; 14],
                count: 0,
            },
            told: None,
            last: None,
        }
    }
}

impl Notes {
    /// Of an event that was asked for, and of which nothing was sent.
    pub(crate) fn of(asked: &ServedRequest) -> Notes
        ensures value { result ≡ notes_asked asked.now }
        ensures most { length asked.now.avails.items ≤ 14 }
    {
        Notes {
            avail_num: asked.request.avail_num,
            avails_expected: asked.request.avails_expected,
            avails: KeptAvailIds::of(&asked.avails),
            told: None,
            last: None,
        }
    }

    /// Behind a packet before which all that is new of the event was sent.
    pub(crate) fn told(&self, event: &Event, last: Option<Time33>) -> Notes
        ensures { (x : Sender) (later : Option ℤ) → self.now ≡ notes_of x → event.now ≡ on_ring x.event →
            last ≡ option_map ring_of later →
            result ≡ notes_of (told_now later x) }
    {
        let mut notes = *self;
        notes.told = Some(Told {
            length: event.length,
            cancelled: event.cancelled,
        });
        notes.last = last;
        notes
    }
}
