//! Several services in one stream: one automation speaks for up to eight programmes, and each has a chain of its own.
//! It stands on `chain_engine`, for what one programme's chain does and the talk with the automation, and on `packet_runs`, for the loop.
//! What a caller uses: `run_services` says by `specs/Runs.antt` what is out and answered, by the definitions of `service_laws`; and by
//! `specs/Isolation.antt` that what is one service's is that of `run` with it alone, with the headline of `chain_laws` for it, that the rest
//! is the network's, and how all of it is ordered.
#![tactic(auto)]

mod desk;
mod fault;
mod finishing;
pub mod laws;
mod nowhere;
mod owners;
mod passing;
mod refusal;
mod report;
mod running;
mod services;
mod sharing;

pub use desk::{counted, index_of};
pub use fault::ServiceFault;
pub use nowhere::Nowhere;
pub use owners::{
    Alone, Owners, Shift, leaves_out, leaves_out_all, shift_of, takes_all, with_taker,
};
pub use passing::has_turned;
pub use refusal::{Refusal, run_fault_of};
pub use report::{ServiceEvents, ServiceReport};
pub use running::{ServicesStage, run_services};
pub use services::Services;
pub use sharing::one_is_among;
