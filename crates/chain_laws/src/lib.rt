//! What holds of a whole run of the chain, in terms of requests: the laws over the definitions alone, and the headline on a call.
#![tactic(auto)]

pub mod headline;
pub mod laws;
