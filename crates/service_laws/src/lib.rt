//! What holds of several services in one stream, over the definitions alone: whose each message and each packet is, and that what is another's
//! changes nothing of a service.
#![tactic(auto)]

pub mod laws;
