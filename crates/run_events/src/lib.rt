//! What happens in a run, told as it happens: requests and their verdicts, cues, breaks and their edges, and how the run ended.
//! It stands on the stages of `chain_engine` and `chain_services`, which it runs as they are, and looks at what they know between two packets.
//! What a caller uses: the runs of `chain_engine`, `chain_services` and `on_air`, each with the contract that it has there, whoever is told.
#![tactic(auto)]

mod air_runs;
mod air_services;
mod cue_tracker;
mod followed;
mod hearing;
mod misfit;
mod occurrence;
mod runs;
mod stage_air;
mod stage_run;
mod stages;
mod told;
mod tracker;
mod unit;
mod watch;

pub use air_runs::{inject_told_on_air, run_told_on_air, splice_told_on_air};
pub use air_services::services_told_on_air;
pub use hearing::{HeardAutomation, Hearing, Overheard};
pub use misfit::{Misfit, misfit_of};
pub use occurrence::{Asked, AskedKind, Cue, Edge, EdgeFault, EdgePlace, Occurrence, What};
pub use runs::{inject_told, run_told, services_told, splice_told};
pub use stages::{BreakStage, Breaks};
pub use watch::{Unheard, Watch};
