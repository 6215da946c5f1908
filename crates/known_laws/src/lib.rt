//! What a switch knows of its network, over the definitions alone: what one packet more does to it, and what it comes to in the report.
#![tactic(auto)]

pub mod laws;
