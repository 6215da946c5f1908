//! What holds of the path of real cues, from an injector's accepted requests to the events that a switch arms, over the definitions alone.
#![tactic(auto)]

pub mod laws;
