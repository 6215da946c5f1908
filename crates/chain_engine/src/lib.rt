//! The chain as it runs: an automation's messages, however their bytes are cut, are judged and answered between the packets of a network, the
//! cues of what was accepted are put into it, and a switch plays advertisements by them. It stands on `as_session`, for messages out of
//! pieces, on `scte104_codec`, for their fields and the replies, on `injector`, for verdicts and cues, and on `splice_switch`.
//! The crates above use a contract of each run: what `run_inject` puts and answers is what `specs/Runs.antt` says of the network's bytes and
//! the automation's pieces, what `run_splice` puts is what `specs/Splices.antt` says of the network and the library, and `specs/ChainRuns.antt`
//! says both of `run`. Before packet k those messages are judged, in order, whose last byte stands in the piece taken before it
//! (`judged_before` of `specs/Talks.antt`), up to the session's end.
#![tactic(auto)]

mod air;
pub mod automation;
mod chain;
mod faults;
mod hearing;
mod inject;
pub mod judge;
mod looking;
mod report;
mod running;
mod service;
mod service_looks;
mod splice;
mod talk;
mod unjudged;

pub use air::{AirStage, StretchEnd};
pub use automation::{Automation, Taken};
pub use chain::{Chain, OutOfMemory};
pub use faults::{RunFault, put_fault};
pub use hearing::SessionEnd;
pub use inject::{InjectorStage, run_inject};
pub use judge::Judge;
pub use report::Report;
pub use running::{ChainStage, run};
pub use service::{Service, of_bytes};
pub use splice::{SwitchStage, run_splice};
pub use talk::Talk;
