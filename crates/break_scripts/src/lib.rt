//! The script of a plan: requests, each before a packet of the network, as the lines that `run` takes. It stands on `scte104_codec`, which
//! writes the messages, and on `hex_digits`, which spells them.
//! The crates above use one contract of it: the bytes of `script_of` are the text of the lines of `specs/Scripts.antt`, of which the laws
//! say that each packet has its own messages, in order, and that the numbers rise.
#![tactic(auto)]

mod laws;
mod request;
mod script;

pub use laws::{lines_are_read_back, lines_rise, messages_stand_before_their_packets};
pub use request::{PlacedRequest, request_bytes};
pub use script::script_of;
