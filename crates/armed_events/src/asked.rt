//! What a cue asks for.

ghost use Rattle.std.specs.Prelude.{◌≡◌, Ok};
ghost use Rattle.scte35_codec.specs.Views.{reading_of};

use event_table::Event;
use pes_time::Time33;
use scte35_codec::{Cue, CueFault, SpliceInsert};

/// What a cue asks of the events that stand. Times are on the ring.
#[derive(Clone, Copy, Debug, PartialEq, Eq)]
pub enum Asked {
    /// That this event be armed: out of the network at a time, for a length, with automatic return.
    Start(Event),
    /// That the event of this id end at this time: back to the network.
    End(u32, Time33),
    /// That the event of this id be cancelled.
    Cancel(u32),
    /// What no splicer of whole events can do: a splice without a time, or one out of the network without automatic return.
    Unfit,
    /// Nothing: it is no `splice_insert()` of the whole program, or none that can be read.
    Nothing,
}

ghost use Rattle.armed_events.specs.Asking.{asked_of, insert_asks};

/// What a `splice_insert()` of the whole program asks for.
fn insert_asks(insert: &SpliceInsert) -> Asked
    ensures { result ≡ insert_asks insert.now.event insert.now.out insert.now.time insert.now.length insert.now.program }
{
    let Some(time) = insert.time else {
        return Asked::Unfit;
    };
    if !insert.out {
        return Asked::End(insert.event, time);
    }
    let Some((true, length)) = insert.length else {
        return Asked::Unfit;
    };
    Asked::Start(Event {
        id: insert.event,
        start: time,
        length: length.ticks(),
        asked: length.ticks(),
        program: insert.program,
        cancelled: false,
    })
}

/// What a cue asks for, or what could not be read as one.
pub(crate) fn asked_of(cue: &Result<Cue<'_>, CueFault>) -> Asked
    ensures { result ≡ asked_of (reading_of cue.now) }
{
    match cue {
        Ok(Cue::Insert(insert, _)) => insert_asks(insert),
        Ok(Cue::Cancel(id)) => Asked::Cancel(*id),
        Ok(Cue::Null | Cue::Other) | Err(_) => Asked::Nothing,
    }
}
