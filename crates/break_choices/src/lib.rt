//! The choices of a plan of breaks: a picture at which a break begins, the packet and the pre-roll by which it does, and where it ends. It stands
//! on nothing but std.
//! The crates above use one contract of it: no picture lies between a chosen start and the picture that it was chosen for, so the break
//! begins just there; and likewise at an end that is called clean.
//!
//! All times are ticks of 90 kHz on one line.
#![tactic(auto)]

mod endings;
mod pictures;
mod placing;
mod pre_rolls;
mod slots;

pub use endings::{Ending, choose_ending};
pub use pictures::{Picture, Wanted, first_from, last_before};
pub use placing::{Placed, Unplaced, place};
pub use pre_rolls::{Mark, PreRolls, mark_ahead, rolls_for};
pub use slots::{Slot, slot_of};
