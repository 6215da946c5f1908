//! Runs of packets from a source to a sink, over whatever is done with each packet on the way: a stage. One loop serves all of them.
//! It stands on `ts_packet`, for packets, sources and sinks.
//! What a caller uses: `run_stage` says what is out by what the stage sends for the packets of the source, and what each fault means.
#![tactic(auto)]

mod run;
mod slots;
mod stage;

pub use run::{Stop, run_stage};
pub use stage::{Stage, StageFault};
