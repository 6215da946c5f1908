//! What is told of a run: each event as a line of JSON, and plain warnings at the end of a good run.
//! It stands on what happens in a run, `run_events`. It takes no memory: a line is put together in a text of its own.
//! What a caller uses: `Telling`, which hears of a run and writes the lines, and what it warns of at the end.
#![tactic(auto)]

mod breaks;
mod fields;
mod lines;
mod log;
mod names;
mod reports;
mod requests;
mod telling;
mod warnings;

pub use log::EventLog;
pub use telling::{Listening, Telling};
pub use warnings::Warnings;
