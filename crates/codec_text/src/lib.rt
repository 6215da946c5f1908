//! What the codecs read as text of one line: cues, messages, program association and program map sections, and each fault.
//! It stands on `scte35_codec`, `scte104_codec` and `psi_tables`, whose types it wraps for `Display`, on the digits of `hex_digits`, and on `wire_fields`.
//! It takes no memory.
//! The crates above use one contract of it: a fault prints as its name in the code, exactly, and so does the result of a reply.
#![tactic(auto)]

mod bytes;
mod cue;
mod fault;
mod flag;
mod message;
mod reply;
mod table;

pub use bytes::BytesText;
pub use cue::{AvailsText, CueText, InsertText};
pub use fault::{CueFaultText, TableFaultText, TooLongText};
pub use flag::FlagText;
pub use message::{BadMessageText, FrameText, HeadText, MessageText};
pub use reply::{ResultText, result_name};
pub use table::{PatText, PmtText};
