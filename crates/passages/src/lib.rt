//! Passages of a network from a source to a sink: what each subcommand does on the way, runs between a reader and a writer for all of
//! them, and why a run stopped, with the name that is printed.
//! It stands on the cut of `unit_cut`, the lines of `packet_lines` and the runs of `chain_engine` and `chain_services`.
//! What a caller uses: of a run that ends well what stands below the buffers, of one that stopped its fault, and `fault_name`.
#![tactic(auto)]

pub mod air_chaining;
mod air_heard;
pub mod air_kinds;
pub mod air_listening;
pub mod air_log;
pub mod air_running;
pub mod air_telling;
pub mod asking;
pub mod chaining;
pub mod fault;
mod gathered;
mod heard;
pub mod kinds;
mod lent;
pub mod line_runs;
pub mod listening;
pub mod recovery_watch;
pub mod running;
pub mod tell;
pub mod watch;
