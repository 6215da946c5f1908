//! What may happen in a run.

use crate::misfit::Misfit;
use chain_engine::SessionEnd;
use event_table::Event;
use pes_time::Time33;
use scte104_codec::{BadMessage, Message, SpliceRequest};
use ts_packet::Pid;

/// What a message asked, as far as it is told.
#[derive(Clone, Copy, Debug, PartialEq, Eq)]
pub struct Asked {
    /// `AS_index`.
    pub as_index: u8,
    /// `message_number`.
    pub message: u8,
    /// `DPI_PID_index`.
    pub index: u16,
    /// What kind of message it is.
    pub kind: AskedKind,
}

/// What kind of message it is.
#[derive(Clone, Copy, Debug, PartialEq, Eq)]
pub enum AskedKind {
    /// `init_request`.
    Init,
    /// `alive_request`.
    Alive,
    /// Another message of a single operation.
    Other,
    /// A message that breaks the syntax.
    Bad,
    /// A message of several operations, with the one `splice_request` in it; `None` where it has none or several.
    Splice(Option<SpliceRequest>),
}

impl Asked {
    /// What this message asks.
    pub fn of(message: &Result<Message<'_>, BadMessage>) -> Asked {
        let (head, kind) = match message {
            Ok(Message::Init(head)) => (*head, AskedKind::Init),
            Ok(Message::Alive(head, _)) => (*head, AskedKind::Alive),
            Ok(Message::Other(head)) => (*head, AskedKind::Other),
            Ok(Message::Multi(multi)) => {
                let mut requests = multi.splice_requests();
                let first = requests.next();
                let kind = match requests.next() {
                    None => AskedKind::Splice(first),
                    Some(_) => AskedKind::Splice(None),
                };
                (multi.head, kind)
            }
            Err(bad) => (bad.head, AskedKind::Bad),
        };
        Asked {
            as_index: head.as_index,
            message: head.number,
            index: head.index,
            kind,
        }
    }
}

/// What a cue says.
#[derive(Clone, Copy, Debug, PartialEq, Eq)]
pub enum Cue {
    /// The break starts. Where advertisements are played, what keeps its advertisement from fitting.
    Start(Option<Misfit>),
    /// The break ends early.
    End,
    /// The break is cancelled.
    Cancel,
}

/// An edge of a break.
#[derive(Clone, Copy, Debug, PartialEq, Eq)]
pub enum Edge {
    /// The first time inside.
    Start,
    /// The first time behind it.
    End,
}

/// An edge of a break in one stream, and the unit of the network there.
#[derive(Clone, Copy, Debug, PartialEq, Eq)]
pub struct EdgePlace {
    /// The break's number.
    pub event: u32,
    /// Which of its edges.
    pub edge: Edge,
    /// The stream's PID.
    pub pid: Pid,
    /// The time of the unit.
    pub pts: Time33,
}

/// Why an edge is not clean.
#[derive(Clone, Copy, Debug, PartialEq, Eq)]
pub enum EdgeFault {
    /// The unit lies so many ticks of 90 kHz below the edge, and one at or past it came before.
    SteppedBack(u64),
    /// The unit is the first one at or past the edge, of pictures, and no random access point.
    NoRandomAccess,
    /// The unit is the first one at or past the edge, of pictures, and a random access point that shows that its numbers go on from the
    /// pictures before it.
    NoEntryPicture,
}

/// What happened.
#[derive(Clone, Copy, Debug, PartialEq, Eq)]
pub enum What {
    /// A message was judged, and answered with this `result`; and whether the automation has the reply.
    Request(Asked, u16, bool),
    /// The automation is not listened to any more.
    Session(SessionEnd),
    /// A cue of this break came or went out first.
    Cue(Cue, Event),
    /// A unit of the stream came that lies in the break, or behind it, the first at or past its start.
    Begun(Event, Pid, Time33),
    /// A unit of the stream came that lies behind the break.
    Over(Event, Pid, Time33),
    /// The break was cancelled.
    Cancelled(Event),
    /// The break got an early end.
    EndedEarly(Event),
    /// An edge is not clean.
    Edge(EdgePlace, EdgeFault),
    /// The first entry picture behind an edge that is at none: so many ticks of 90 kHz past the unit there.
    RandomAccess(EdgePlace, u64),
    /// A break is counted as played.
    Played(Option<Event>),
    /// A break is counted as not fitted, for this.
    NotFitted(Option<Event>, Option<Misfit>),
    /// A played break is counted as unconditioned.
    Unconditioned(Option<Event>),
    /// A stretch is over, and so many breaks were lost with it.
    Lost(u64),
    /// The program was not found in the whole network.
    NotFound(u16),
    /// The network has ended, and went through.
    End,
}

/// What happened, and where.
#[derive(Clone, Copy, Debug, PartialEq, Eq)]
pub struct Occurrence {
    /// The program of the service to which it happened, where there are several services.
    pub service: Option<u16>,
    /// The number of the packet of the network, from 0, with which or before which it happened: how many packets there were, at the end.
    pub packet: u64,
    /// What happened.
    pub what: What,
}
