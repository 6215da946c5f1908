//! The times at which a cut falls just before a picture.

ghost use Rattle.std.specs.Prelude.{◌≡◌};
ghost use Rattle.break_choices.specs.Cuts.{PartsPictures};

use crate::pictures::{Picture, Wanted, last_before};

/// The times past one and up to another, at all of which a cut falls between the same two pictures.
#[derive(Clone, Copy, Debug, PartialEq, Eq)]
pub struct Slot {
    /// The time of the last picture that is shown before, or 0 where none is.
    pub after: u64,
    /// The time of the picture itself.
    pub until: u64,
}

/// The slot before a picture of this time.
pub fn slot_of(pictures: &[Picture], time: u64) -> Slot
    ensures until { result.until ≡ time }
    ensures parts { PartsPictures result pictures.now }
{
    let after = match last_before(pictures, Wanted::Any, time) {
        Some(picture) => picture.time,
        None => 0,
    };
    Slot { after, until: time }
}
