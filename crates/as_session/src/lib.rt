//! Automation sessions: the bytes of a connection come in any pieces, and go out as messages of ANSI/SCTE 104.
//! It stands on `scte104_codec`, which says where a message ends, and on the ring of `circular_buffer`.
//! The crates above use one contract of it: what `feed` gives is what `feed_of` of `specs/Feeding.antt` says, and
//! however a byte string is cut, the messages are those of `messages_of` of `specs/Messages.antt`.
#![tactic(auto)]

mod gathering;
mod laws;
mod session;

pub use laws::{
    any_pieces_give_the_messages, calls_give_the_messages, each_message_fits,
    messages_are_the_only_ones,
};
pub use session::{Got, Session};
