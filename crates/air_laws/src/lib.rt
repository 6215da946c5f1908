//! What holds of a run on air in terms of requests, stretch by stretch: the headline on a call.
#![tactic(auto)]

pub mod headline;
