//! Where units stand on the line of integer times.

ghost use Rattle.std.specs.Prelude.{◌≡◌, ℕ, ◌+◌, ◌≤◌, ℤ, pos, negsuc, ◌+ℤ◌, ◌≤ℤ◌, false, Option, None, Some, IfSome, option_map, max};
ghost use Rattle.pes_time.specs.Line.{place, raise};
ghost use Rattle.unit_stream.specs.Clocks.{Tells, IsNear, way_from};
ghost use Rattle.unit_stream.specs.Times.{raised};
ghost use Rattle.ad_library.specs.Storing.{on_line};
ghost use Rattle.ad_library.specs.Gathering.{IsNearStart, IsTold, IsUnitStart, HasWay, IsHeld};

use program_follower::StreamPacket;
use unit_stream::Begun;

/// Where times of 0 on the line are held, so that no time is negative.
const LINE: u64 = 1 << 48;

/// Passes a packet of a stream: the time of its own of the unit that begins there, if one does and has one. The greatest time is held in
/// `high`.
pub(crate) fn pass(high: &mut Option<u64>, part: &StreamPacket) -> Option<u64>
    requires near { IsNearStart part.now }
    requires way { IfSome high.old HasWay }
    ensures time { (stamp : Option ℕ) → IsTold part.now (option_map on_line high.old) stamp
        → option_map on_line result ≡ option_map (place (option_map on_line high.old)) stamp }
    ensures high { (stamp : Option ℕ) → IsTold part.now (option_map on_line high.old) stamp
        → option_map on_line high.new ≡ raised (option_map on_line high.old) stamp }
    ensures other { IsUnitStart part.now ≡ false → high.new ≡ high.old }
    ensures held { (count : ℕ) → IfSome high.old (IsHeld count) → IfSome high.new (IsHeld (count + 1)) }
{
    match part {
        StreamPacket::Start(Some(begun)) => {
            let time = placed(*high, *begun);
            *high = Some(later(*high, time));
            Some(time)
        }
        _ => None,
    }
}

/// Where a unit stands, by the greatest time before it.
fn placed(high: Option<u64>, begun: Begun) -> u64
    requires near { IsNear (Some begun) }
    requires way { IfSome high HasWay }
    ensures time { begun.way ≡ way_from (option_map on_line high) begun.pts
        → on_line result ≡ place (option_map on_line high) begun.pts }
    ensures held { (count : ℕ) → IfSome high (IsHeld count) → IsHeld (count + 1) result }
{
    match high {
        None => LINE + begun.pts.ticks(),
        Some(high) => moved(high, begun.way),
    }
}

/// A time moved by a way of at most 900,000 ticks.
fn moved(time: u64, way: i64) -> u64
    requires near { (negsuc 899999 ≤ℤ way) × (way ≤ℤ pos 900000) }
    requires way { HasWay time }
    ensures { pos result ≡ pos time +ℤ way }
{
    if way < 0 {
        time - (-way) as u64
    } else {
        time + way as u64
    }
}

/// The greatest time, with one more.
fn later(high: Option<u64>, time: u64) -> u64
    ensures latest { Some (on_line result) ≡ raise (option_map on_line high) (on_line time) }
    ensures held { (count : ℕ) → IfSome high (IsHeld count) → IsHeld (count + 1) time → IsHeld (count + 1) result }
{
    match high {
        None => time,
        Some(high) => { if high < time { time } else { high } }
    }
}
