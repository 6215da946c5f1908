//! Timelines for plans of breaks: the pictures of a program of a network, and where the greatest time of the program rises. It stands on
//! `program_follower`, for the program, on `random_access`, for the marks of pictures, and on `break_choices`, for pictures and marks.
//! The crates above use one contract of it: what a `TimelineReader` found are the pictures and the marks that `specs/Timelines.antt`
//! defines over all packets that it was fed.
#![tactic(auto)]

mod cleaning;
mod line;
mod pictures;
mod reader;
mod timeline;
mod video;

pub use reader::{TimelineFault, TimelineReader};
pub use timeline::Timeline;
