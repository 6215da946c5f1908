//! Messages of ANSI/SCTE 104, by which an automation system asks for breaks: where one ends, what its fields say,
//! and the bytes of a reply and of a request. It stands on `wire_fields` and `arrayvec`, and takes no memory.
//! The crates above use one contract of it: `read` gives exactly what the grammar of `specs/Grammar.antt` says.
#![tactic(auto)]

mod cutting;
mod framing;
mod head;
mod laws;
mod message;
mod multi;
pub mod operation_ids;
mod operations;
mod reply;
mod requesting;
mod requests;

pub use cutting::frame;
pub use framing::{Frame, frame_size};
pub use head::Head;
pub use laws::{
    messages_are_framed, messages_read_back, replies_read_back, requests_read_back,
    what_is_read_fits,
};
pub use message::{BadMessage, Message, read};
pub use multi::{Multi, SpliceRequests};
pub use operations::Operations;
pub use reply::{Reply, write_reply};
pub use requesting::{write_alive_request, write_init_request, write_request};
pub use requests::{AvailIds, SpliceRequest};
