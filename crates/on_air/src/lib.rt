//! Runs on air: no fault of the network ends them.
//! It stands on `chain_engine`, for what is done with each packet, and on `packet_runs`, for the loop.
#![tactic(auto)]

mod air;
mod marks;
mod report;
mod running;
mod tail;
mod watch;

pub use marks::{Marks, Standing, Verdict};
pub use report::AirReport;
pub use running::{inject_on_air, of_sink, read_next, run_air, run_on_air, splice_on_air};
pub use tail::MapTail;
pub use watch::{AirWatch, Begun, Unwatched};
