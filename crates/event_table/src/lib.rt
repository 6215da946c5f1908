//! The table of standing events that injector and switch share: at most 32 intervals of time on the ring, with no memory taken.
//! Each event keeps a value of the caller's beside it.
//! It stands on `pes_time`, for the ring of 33-bit times, `unit_stream`, for what a unit's time may be, and `arrayvec`.
//! The crates above use that a table stands for a list of integer intervals (`StandsFor`), and that its answers are those of the list.
#![tactic(auto)]

mod event;
pub mod laws;
mod table;

pub use event::{Event, is_before};
pub use table::{ArmRefusal, Armed, CancelRefusal, Entry, ShortenRefusal, Table};
