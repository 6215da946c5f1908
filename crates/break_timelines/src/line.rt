//! The line of times: ticks of 90 kHz from 2^48 before the time 0 of the ring on, so that no time lies below 0.

ghost use Rattle.std.specs.Prelude.{◌≡◌, ℤ, ℕ, Option, Some, option_map, IfSome, IfOk};
ghost use Rattle.pes_time.specs.Line.{ring_of, place};
ghost use Rattle.unit_stream.specs.Clocks.{Tells};
ghost use Rattle.break_timelines.specs.Line.{tick_of, IsPast, Follows};

use pes_time::Time33;
use unit_stream::Begun;

/// Where the time 0 stands: a whole number of turns of the ring.
const BASE: u64 = 1 << 48;

/// A time or a number of packets is none of 64 bits.
#[derive(Clone, Copy, Debug, PartialEq, Eq)]
pub(crate) struct TooLong;

/// Where a unit stands on the line, behind this greatest time; `None` where that is no number of 64 bits.
pub(crate) fn time_of(high: Option<u64>, begun: Begun) -> Option<u64>
    ensures { (before : Option ℤ) (stamp : Option ℕ) → high ≡ option_map tick_of before → IsPast before
        → Tells (Some begun) before stamp → IfSome result (λ time. time ≡ tick_of (place before begun.pts)) }
{
    match high {
        None => Some(BASE + begun.pts.ticks()),
        Some(high) if begun.way < 0 => high.checked_sub(begun.way.unsigned_abs()),
        Some(high) => high.checked_add(begun.way.unsigned_abs()),
    }
}

/// The greatest time behind a packet, by its stamps before and behind; `Err` where that is no number of 64 bits.
pub(crate) fn risen(
    high: Option<u64>,
    earlier: Option<Time33>,
    later: Option<Time33>,
) -> Result<Option<u64>, TooLong>
    ensures { (before after : Option ℤ) → high ≡ option_map tick_of before → earlier ≡ option_map ring_of before
        → later ≡ option_map ring_of after → IsPast before → Follows before after
        → IfOk result (λ time. time ≡ option_map tick_of after) }
{
    let Some(stamp) = later else {
        return Ok(None);
    };
    let (Some(high), Some(earlier)) = (high, earlier) else {
        return Ok(Some(BASE + stamp.ticks()));
    };
    let way = stamp.signed_from(earlier);
    match high.checked_add(way.unsigned_abs()) {
        Some(time) => Ok(Some(time)),
        None => Err(TooLong),
    }
}
