//! The facts about a transport stream as a page for people and as one JSON object.
#![tactic(auto)]

mod distance;
mod names;
mod object;
mod page;

pub use object::object_of;
pub use page::write_page;
