//! What is told of runs over streams made by hand: the lines of the log, and warnings.
//! It stands on `run_events` and `event_logs`; no program stands on it.
#![tactic(auto)]

#[cfg(test)]
mod air_tests;
#[cfg(test)]
mod break_tests;
#[cfg(test)]
mod edge_tests;
#[cfg(test)]
mod json_tests;
#[cfg(test)]
mod misfit_tests;
#[cfg(test)]
mod request_tests;
#[cfg(test)]
mod runs;
#[cfg(test)]
mod service_tests;
#[cfg(test)]
mod stream;
