//! Following one program of a network packet by packet (ISO/IEC 13818-1, 2.4.4): its PAT and PMT, the head of the stream up to its
//! first PMT, the units of its switched streams behind that, their times, and the first thing that is wrong. It takes no memory.
#![tactic(auto)]

mod faultless_map;
mod follower;
mod judging;
mod known;
mod map_reader;
mod pat_reader;
mod pid_uses;
mod places;
mod purpose;
mod start_follower;
mod starts;
mod streams;
mod table_reader;
mod tables;

pub use follower::{FollowFault, Place, ProgramFollower};
pub use known::KnownProgram;
pub use map_reader::MapReader;
pub use pat_reader::PatReader;
pub use purpose::{Listed, Purpose};
pub use start_follower::{StartFollower, StartPlace};
pub use starts::{StartPacket, Starts, StreamPart, UnitStart};
pub use streams::{StreamPacket, Streams};
pub use table_reader::{OnTables, TableReader};
pub use tables::{LentTable, Tables};
