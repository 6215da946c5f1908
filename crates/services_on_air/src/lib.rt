//! Several services in one stream, on air: no fault of the network ends the run, and a fault of one service leaves the others as they are.
//! It stands on `chain_engine`, for what one program's service does, on `on_air`, for what becomes of a packet that is at fault, and on
//! `chain_services`, for what services are refused, whose a message is, and what is reported.
#![tactic(auto)]

mod desk;
mod owners;
mod passing;
mod running;
mod service;
mod services;
mod settling;
mod sharing;
mod watch;

pub use running::run_services_on_air;
pub use services::AirServices;
pub use watch::{ServiceBegun, ServicesWatch, Shown};
