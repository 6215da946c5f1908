//! What a switched stream may not carry.

use thiserror::Error;

/// Why a packet of a switched PID is refused. At one packet the first of this list is answered.
#[derive(Clone, Copy, Debug, PartialEq, Eq, Drop, Error)]
pub enum UnitFault {
    /// A payload packet with scrambling bits.
    #[error("a payload packet is scrambled")]
    Scrambled,
    /// The payload of a unit's first packet ends before the end of its stamps.
    #[error("the first packet of a unit ends before the unit's time stamps")]
    HeaderSplit,
    /// A unit's time lies more than 900,000 ticks (10 seconds) from the greatest so far, before or after it.
    #[error("a unit lies more than 10 seconds from the greatest time before it")]
    TimeJump,
}
