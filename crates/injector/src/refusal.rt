//! Why a request is refused, with the number of each reason in a reply.

ghost use Rattle.std.specs.Prelude.{◌≡◌};
ghost use Rattle.injector.specs.Verdicts.{number_of};

use thiserror::Error;

/// Why a request is refused: the first reason that applies, in this order.
#[derive(Clone, Copy, Debug, PartialEq, Eq, Error)]
pub enum Refusal {
    /// The operations do not fill the message, or have data of a wrong size.
    #[error("the message breaks the syntax")]
    BadSyntax,
    /// `protocol_version` or `SCTE35_protocol_version` is not 0.
    #[error("another version of the protocol")]
    WrongVersion,
    /// `DPI_PID_index` is not the one of this injector.
    #[error("another DPI_PID_index")]
    WrongIndex,
    /// `time_type` is not 0.
    #[error("the message has a time")]
    TimeType,
    /// An operation that this profile does not know.
    #[error("an unknown operation")]
    UnknownOp,
    /// No `splice_request`.
    #[error("no splice_request")]
    NoRequest,
    /// More than one `splice_request`.
    #[error("more than one splice_request")]
    TwoRequests,
    /// `splice_insert_type` is not 1 to 5.
    #[error("an unknown splice_insert_type")]
    BadType,
    /// A start or an end at once, which is not served.
    #[error("a splice_insert_type that is not served")]
    Unsupported,
    /// More than 14 avail ids in all.
    #[error("more than 14 avail ids")]
    TooManyAvails,
    /// A start with `break_duration` 0.
    #[error("a start without a duration")]
    NoDuration,
    /// A start with `auto_return_flag` 0.
    #[error("a start without automatic return")]
    NoReturn,
    /// A start with `pre_roll_time` 0.
    #[error("a start without a pre-roll time")]
    NoPreRoll,
    /// A start before the network's first time.
    #[error("the network has no time yet")]
    NoClock,
    /// A start with the id of an event that stands, cancelled or not.
    #[error("an event of this id stands")]
    InUse,
    /// A start where 32 events stand.
    #[error("as many events stand as may")]
    Full,
    /// A start whose interval meets that of an event that stands, cancelled or not.
    #[error("the interval meets that of a standing event")]
    Overlap,
    /// An end or a cancel with an id of which no event stands.
    #[error("no event of this id stands")]
    NoSuchEvent,
    /// A cancel of an event that has begun.
    #[error("the event has begun")]
    TooLate,
    /// An end of a cancelled event, or one not above both its start and the greatest time and below its present end.
    #[error("the end lies outside the event")]
    BadEnd,
}

impl Refusal {
    /// The number that stands for the reason in a reply, 0x8001 to 0x8014.
    pub fn number(self) -> u16
        ensures { result ≡ number_of self }
    {
        match self {
            Refusal::BadSyntax => 0x8001,
            Refusal::WrongVersion => 0x8002,
            Refusal::WrongIndex => 0x8003,
            Refusal::TimeType => 0x8004,
            Refusal::UnknownOp => 0x8005,
            Refusal::NoRequest => 0x8006,
            Refusal::TwoRequests => 0x8007,
            Refusal::BadType => 0x8008,
            Refusal::Unsupported => 0x8009,
            Refusal::TooManyAvails => 0x800A,
            Refusal::NoDuration => 0x800B,
            Refusal::NoReturn => 0x800C,
            Refusal::NoPreRoll => 0x800D,
            Refusal::NoClock => 0x800E,
            Refusal::InUse => 0x800F,
            Refusal::Full => 0x8010,
            Refusal::Overlap => 0x8011,
            Refusal::NoSuchEvent => 0x8012,
            Refusal::TooLate => 0x8013,
            Refusal::BadEnd => 0x8014,
        }
    }
}
