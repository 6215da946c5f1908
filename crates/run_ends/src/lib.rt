//! The ends of a run: the files and standard streams that it reads and writes, the system's reason where one fails, and the flush at the end.
//! It stands on std alone.
//! The crates above use that an `Attended` reader or writer is the one below it, and of a flush that a fault comes before it and that
//! what was put is kept.
#![tactic(auto)]

mod attended;
mod ends;
mod flushes;
mod flushing;
mod reads;

pub use attended::Attended;
pub use ends::{End, Unopened, create_beside, open_input, spare};
pub use flushing::{finish, finish_behind, finish_buffer};
