//! What holds of runs that differ in nothing but their cues, over the definitions of the switch alone.
#![tactic(auto)]

pub mod laws;
