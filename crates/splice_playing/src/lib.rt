//! The events in the switched streams of a network: which have begun, which are over, and what goes out of their slices, as the network's
//! packets come.
#![tactic(auto)]

mod forgetting;
mod leaving;
mod playing;
mod resting;

pub use playing::Playing;
