//! The injector: an automation's messages judged by the greatest time and the events that stand, and answered, and the cues of these
//! events put into a network, whose program's maps get the entry for cues. It stands on `scte104_codec`, for messages and replies,
//! `event_table`, for the events, `scte35_codec`, for the cues, `program_follower`, for the network, and `outgoing_packets`, for what goes
//! out, and takes no memory.
//! The crates above use one contract of it: `Injector` stands for a history of messages and packets (`specs/Injecting.antt`), by which
//! `ask` is the verdict with its reply, and `feed` puts what the packet sends.
#![tactic(auto)]

mod asked;
mod choice;
mod counts;
mod cues;
mod injector;
pub mod laws;
mod notes;
mod refusal;
mod reply;
mod requests;

pub use counts::MessageCounts;
pub use injector::Injector;
pub use refusal::Refusal;
pub use requests::Requests;
