//! Why a layer that reads a network gives up.

use thiserror::Error;
use ts_packet::PutFault;

/// What is wrong with a network.
#[derive(Clone, Copy, Debug, PartialEq, Eq, Drop, Error)]
pub enum NetworkFault {
    /// A unit's time lies more than 900,000 ticks of 90 kHz from the greatest so far.
    #[error("a unit's time is far from those before")]
    TimeJump,
    /// The first packet of a unit ends before its stamps do.
    #[error("a unit's head is split")]
    HeaderSplit,
    /// A packet of a switched stream has scrambling bits.
    #[error("a switched stream is scrambled")]
    Scrambled,
    /// The program got another PMT PID, another list of switched streams or another PCR PID, or is listed no more.
    #[error("the program has changed")]
    ProgramChanged,
    /// The program has more than eight switched streams.
    #[error("more than eight switched streams")]
    TooManyStreams,
    /// The program has a PID that it can't have: a reserved one, or one that stands for two things.
    #[error("the program has a PID that it can't have")]
    BadPids,
    /// The program's map has no room for the entry of the cues.
    #[error("the program map has no room for the cue entry")]
    PmtTooLong,
    /// The PID that is to carry the cues is used for something else.
    #[error("the cue PID is used")]
    CuePidUsed,
    /// A program association table of several sections.
    #[error("a table of several sections")]
    Sections,
}

/// Why a packet was not passed on.
#[derive(Clone, Copy, Debug, PartialEq, Eq, Drop)]
pub enum FeedFault {
    /// The network is not one that can be worked on.
    Network(NetworkFault),
    /// The sink did not take a packet.
    Sink(PutFault),
    /// A fault was answered before, and nothing is taken since.
    Failed,
}
