//! The switch: advertisements in the place of the network's units, in the events that cues arm.
//! It stands on `program_follower`, for the network, `splice_playing`, for the events in its streams, and `outgoing_packets`, for what else
//! goes out. It takes no memory.
#![tactic(auto)]

mod switch;

pub use splice_plans::SwitchReport;
pub use switch::Switch;
