//! The plans of a switch: how far each standing event has come in each switched stream, what goes out of it there, and the streams on
//! their way out. It stands on `armed_events`, for the events, `ad_library`, for the units of advertisements, and `unit_packing`, for their
//! packets. It takes no memory.
#![tactic(auto)]

pub mod laws;
mod parts;
mod plan;
mod report;
mod runs;
mod slices;
mod stream;
mod turns;

pub use plan::{Part, Plan, Stage};
pub use report::SwitchReport;
pub use runs::{close_all, put_running};
pub use stream::SwitchedStream;
pub use turns::{all_stay, is_inside, runs_any, turn_all};
