//! Cutting units of one PID out of a run of packets, and what holds of every cut.
//! It stands on the units of `unit_stream` and the runs of `packet_runs`. What a caller uses: `cut` says which packets of a source come
//! to a sink, and what each fault means, whatever these are; `Cutter::feed` answers by the definition of the cut.
#![tactic(auto)]

mod cutter;
mod cutting;
mod distance;
pub mod laws;
mod run;
mod timing;

pub use cutter::Cutter;
pub use run::{CutFault, cut};
