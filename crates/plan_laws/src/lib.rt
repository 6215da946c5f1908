//! What a packet that begins a unit does to the plans of a switch, and what goes out before it, over the definitions alone. It stands on
//! `splice_plans`, whose plans these laws are of; `splice_playing` rests its step of a unit start on them.
#![tactic(auto)]

pub mod laws;
