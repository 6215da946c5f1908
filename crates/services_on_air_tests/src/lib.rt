//! Several services on air over networks made by hand: stretches of one service and what the others send, PIDs of two services, and requests at
//! the begin of a stretch. It stands on `services_on_air` and `on_air`; no program stands on it.
#![tactic(auto)]

#[cfg(test)]
mod air_tests;
#[cfg(test)]
mod fault_tests;
#[cfg(test)]
mod runs;
#[cfg(test)]
mod sharing_tests;
