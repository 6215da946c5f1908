//! Devices for tests, over bytes in memory: they move few bytes a call, are interrupted at every second one, and end at a call that the
//! test chooses; and two devices that stand in one record. It stands on std alone; no program stands on it.
#![tactic(auto)]

mod calls;
mod record;
mod source;
mod target;

pub use calls::{Calls, Ending};
pub use record::{Failing, Moment, Record, RecordedReplies, RecordedSource, RecordedTarget};
pub use source::FailSource;
pub use target::FailTarget;
