//! Of a network without fault for those who write cues, the stream with cues is without fault for those who read them.
#![tactic(auto)]

pub mod laws;
