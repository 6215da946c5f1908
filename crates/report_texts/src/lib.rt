//! The lines of a report, as the program prints them at the end of a run.
//! It stands on the reports of `chain_engine` and `splice_plans`.
//! The crates above use one contract of it: where a function answers true, just these lines are out, and flushed.
#![tactic(auto)]

mod lines;

pub use lines::{
    AirCounts, print_air_counts, print_messages, print_report, print_service, print_switched,
};
