//! What holds of the spliced stream, over the definitions of the switch alone.
#![tactic(auto)]

pub mod laws;
