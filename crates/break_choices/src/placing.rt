//! The picture at which something begins, and the request for it.

ghost use Rattle.std.specs.Prelude.{IfOk, IfErr};
ghost use Rattle.break_choices.specs.Placing.{IsPlaced, IsUnplaced};

use crate::pictures::{Picture, Wanted, first_from, last_before};
use crate::pre_rolls::{Mark, PreRolls, mark_ahead, rolls_for};
use crate::slots::{Slot, slot_of};

/// How far behind a time the picture may lie: 10 seconds.
const FAR: u64 = 900_000;

/// Where something is to happen, and by which requests.
#[derive(Clone, Copy, Debug, PartialEq, Eq)]
pub struct Placed {
    /// The entry picture.
    pub picture: Picture,
    /// The times at which a cut falls just before it.
    pub slot: Slot,
    /// The packet before which the request comes.
    pub mark: Mark,
    /// The pre-rolls by which it names one of these times.
    pub pre_rolls: PreRolls,
}

/// Why nothing can happen at a time.
#[derive(Clone, Copy, Debug, PartialEq, Eq)]
pub enum Unplaced {
    /// No entry picture lies within 10 seconds behind it. The nearest before it and behind it, where there are such.
    NoPicture {
        /// The last before the time.
        before: Option<Picture>,
        /// The first behind it.
        behind: Option<Picture>,
    },
    /// No request names a time just before this picture: none can come early enough.
    NoPacket(Picture),
}

/// Places something at the first entry picture at or behind a time.
///
/// # Errors
///
/// Why it cannot be placed.
pub fn place(pictures: &[Picture], marks: &[Mark], at: u64) -> Result<Placed, Unplaced>
    ensures placed { IfOk result (IsPlaced pictures.now marks.now at) }
    ensures unplaced { IfErr result (IsUnplaced pictures.now marks.now at) }
{
    let behind = first_from(pictures, Wanted::Entry, at);
    let Some(picture) = behind else {
        let before = last_before(pictures, Wanted::Entry, at);
        return Err(Unplaced::NoPicture { before, behind });
    };
    if picture.time - at > FAR {
        let before = last_before(pictures, Wanted::Entry, at);
        return Err(Unplaced::NoPicture { before, behind });
    }
    let slot = slot_of(pictures, picture.time);
    let Some(mark) = mark_ahead(marks, slot.after) else {
        return Err(Unplaced::NoPacket(picture));
    };
    match rolls_for(mark.high, slot) {
        Some(pre_rolls) => Ok(Placed {
            picture,
            slot,
            mark,
            pre_rolls,
        }),
        None => Err(Unplaced::NoPacket(picture)),
    }
}
