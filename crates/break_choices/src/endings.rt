//! Where a break ends: a length near the one that was asked for, by which it ends just before an entry picture.

ghost use Rattle.std.specs.Prelude.{◌≡◌, ◌↔◌, ◌+◌, ◌/◌, ◌^◌, ◌<◌, ◌≤◌, ℕ, IsTrue, IfSome, IfNone};
ghost use Rattle.break_choices.specs.Placing.{StandsAt};
ghost use Rattle.break_choices.specs.Endings.{IsNearLength, BreakEndsAt};

use crate::pictures::{Picture, Wanted, first_from};
use crate::placing::Placed;
use crate::slots::slot_of;

/// How a break ends.
#[derive(Clone, Copy, Debug, PartialEq, Eq)]
pub struct Ending {
    /// The pre-roll of its request, in milliseconds.
    pub pre_roll: u64,
    /// Its length, in tenths of a second.
    pub tenths: u64,
    /// The entry picture before which it ends, where it ends cleanly.
    pub clean: Option<Picture>,
}

/// The most tenths of `break_duration`, a field of 16 bits.
const MOST: u64 = 65_535;

/// Ticks of a millisecond.
const MILLISECOND: u64 = 90;

/// Ticks of a tenth of a second.
const TENTH: u64 = 9_000;

/// How many tenths of a second the length may be longer or shorter: half a second.
const REACH: u64 = 5;

/// The ending of this many tenths that is clean, if one of the pre-rolls makes it so.
fn clean_ending(pictures: &[Picture], placed: &Placed, tenths: u64) -> Option<Ending>
    requires stands { StandsAt pictures.now placed.now }
    requires tenths { tenths ≤ 65535 }
    ensures ends { (long : ℕ) → IsNearLength tenths long → IfSome result (BreakEndsAt pictures.now placed.now long) }
{
    let length = TENTH * tenths;
    let high = placed.mark.high;
    let least = placed.pre_rolls.least;
    let earliest = high.saturating_add(MILLISECOND * least + length);
    let picture = first_from(pictures, Wanted::Clean, earliest)?;
    let room = picture.time.checked_sub(high.saturating_add(length))?;
    let pre_roll = (room / MILLISECOND).min(placed.pre_rolls.most);
    let end = high.saturating_add(MILLISECOND * pre_roll + length);
    if pre_roll < least || end <= slot_of(pictures, picture.time).after {
        return None;
    }
    Some(Ending {
        pre_roll,
        tenths,
        clean: Some(picture),
    })
}

/// Whether a length of so many tenths lies within half a second of one in milliseconds.
fn is_near(tenths: u64, length: u64) -> bool
    ensures { IsTrue result ↔ IsNearLength tenths length }
{
    tenths >= 1 && tenths <= MOST && (100 * tenths).abs_diff(length) <= 500
}

/// The same, where so many tenths are near the length in milliseconds.
fn near_ending(pictures: &[Picture], placed: &Placed, tenths: u64, length: u64) -> Option<Ending>
    requires stands { StandsAt pictures.now placed.now }
    ensures { IfSome result (BreakEndsAt pictures.now placed.now length) }
{
    if is_near(tenths, length) {
        clean_ending(pictures, placed, tenths)
    } else {
        None
    }
}

/// How a break of this length in milliseconds ends: cleanly, as near to the length as it can, where it can within half a second of it; else
/// at the nearest tenth of a second. Nothing where no length of 1 to 65,535 tenths is so near.
pub fn choose_ending(pictures: &[Picture], placed: &Placed, length: u64) -> Option<Ending>
    requires stands { StandsAt pictures.now placed.now }
    ensures ends { IfSome result (BreakEndsAt pictures.now placed.now length) }
    ensures none { IfNone result ((tenths : ℕ) → tenths ≡ (length + 50) / 100 → IsNearLength tenths length → ⊥) }
{
    let nearest = length.saturating_add(50) / 100;
    for step in 0..=REACH {
        let longer = near_ending(pictures, placed, nearest.saturating_add(step), length);
        if longer.is_some() {
            return longer;
        }
        let shorter = near_ending(pictures, placed, nearest.saturating_sub(step), length);
        if shorter.is_some() {
            return shorter;
        }
    }
    if !is_near(nearest, length) {
        return None;
    }
    Some(Ending {
        pre_roll: placed.pre_rolls.most,
        tenths: nearest,
        clean: None,
    })
}
