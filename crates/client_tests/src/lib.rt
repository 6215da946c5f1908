//! Clients of runs on air, over sockets of this machine: they come late, go, come back, stand in line, and send what no message is.
//! It stands on `on_air` and `automations`; no program stands on it.
#![tactic(auto)]

#[cfg(test)]
mod channel;
#[cfg(test)]
mod client_tests;
#[cfg(test)]
mod hall;
#[cfg(test)]
mod hall_tests;
