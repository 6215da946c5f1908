//! What holds of the events that cues arm, over the definitions alone: what they come to as a network runs, and that no two ever meet.
#![tactic(auto)]

pub mod laws;
