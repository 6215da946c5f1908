//! The messages by which an automation system asks (ANSI/SCTE 104), as lines of digits that a script takes.
//! It stands on `scte104_codec`, which writes the bytes, and on `hex_digits`, which spells them.
//! The crates above use one contract of it: what is printed are the digits of bytes that the codec reads back as just that message.
#![tactic(auto)]

mod lines;
mod requests;

pub use lines::{RequestLine, print_request};
pub use requests::{BreakEnd, BreakStart, RequestKind, message_bytes};
