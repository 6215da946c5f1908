//! The packet before which a request comes, and the pre-rolls by which it names a time.

ghost use Rattle.std.specs.Prelude.{◌≡◌, ◌+◌, ◌*◌, ◌<◌, ◌≤◌, MatchOption, IfSome, None};
ghost use Rattle.break_choices.specs.Cuts.{mark_ahead, CanRoll, CannotRoll};

use crate::slots::Slot;

/// A packet before which the greatest time of the program is another than before the packet in front of it.
#[derive(Clone, Copy, Debug, PartialEq, Eq)]
pub struct Mark {
    /// How many packets stand before it.
    pub packet: u64,
    /// The greatest time before it.
    pub high: u64,
}

/// How far ahead of a break its request comes where the stream has room for it: 4 seconds.
const AHEAD: u64 = 360_000;

/// The most milliseconds of `pre_roll_time`, a field of 16 bits.
const MOST: u64 = 65_535;

/// Ticks of a millisecond.
const MILLISECOND: u64 = 90;

/// Pre-rolls from one up to another, in milliseconds.
#[derive(Clone, Copy, Debug, PartialEq, Eq)]
pub struct PreRolls {
    /// The least.
    pub least: u64,
    /// The greatest.
    pub most: u64,
}

/// The last of these marks that lies 4 seconds before a time, or else the first.
#[tactic(auto, unfolding(crate::specs::Cuts::mark_from))]
pub fn mark_ahead(marks: &[Mark], time: u64) -> Option<Mark>
    ensures { result ≡ mark_ahead time marks.now }
{
    let (first, behind) = marks.split_first()?;
    let mut best = *first;
    let mut rest = behind;
    while let Some((mark, behind)) = rest.split_first() {
        if mark.high.saturating_add(AHEAD) <= time {
            best = *mark;
        }
        rest = behind;
    }
    Some(best)
}

/// The pre-rolls by which a request at a mark names a time of a slot.
pub fn rolls_for(high: u64, slot: Slot) -> Option<PreRolls>
    ensures { MatchOption result (CannotRoll high slot) (CanRoll high slot) }
{
    let room = slot.until.checked_sub(high)?;
    let most = (room / MILLISECOND).min(MOST);
    let least = match slot.after.checked_sub(high) {
        Some(past) => past / MILLISECOND + 1,
        None => 1,
    };
    if most < least {
        return None;
    }
    Some(PreRolls { least, most })
}
