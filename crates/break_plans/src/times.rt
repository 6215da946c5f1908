//! Times of lines on the line of the network.

ghost use Rattle.std.specs.Prelude.{◌≡◌, ◌%◌, ◌^◌};
ghost use Rattle.break_plans.specs.Times.{moved, time_of};

use break_lists::At;
use pes_time::Time33;

/// Ticks of a millisecond.
pub(crate) const MILLISECOND: u64 = 90;

/// The time stamp of a time on the line.
pub(crate) fn stamp_of(time: u64) -> Time33
    ensures { result ≡ time % 2 ^ 33 }
{
    match Time33::new(time % (1 << 33)) {
        Some(stamp) => stamp,
        None => unreachable!(),
    }
}

/// A time so much later, or earlier where that is below 0.
fn moved(time: u64, way: i64) -> u64
    ensures { result ≡ moved time way }
{
    if way < 0 {
        time.saturating_sub(way.unsigned_abs())
    } else {
        time.saturating_add(way.unsigned_abs())
    }
}

/// Where the time of a line stands, in a program with this first time. A time stamp stands at the nearest of its times.
pub(crate) fn time_of(first: u64, at: At) -> u64
    ensures { result ≡ time_of first at }
{
    match at {
        At::After(span) => first.saturating_add(span.saturating_mul(MILLISECOND)),
        At::Stamp(stamp) => moved(first, stamp.signed_from(stamp_of(first))),
    }
}
