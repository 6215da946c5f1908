//! Transport packets of ISO/IEC 13818-1: their fields, duplicates and counters, and what reads, takes and numbers them.
//! It stands on std's readers and writers, through `Device`.
//! The crates above use that a `PacketReader` gives the packets of its device's bytes (`packets_of`, specs/Packets.antt), and that
//! a `PacketSink` stands for the list of packets put.
#![tactic(auto)]

pub mod counter;
pub mod device;
pub mod follower;
pub mod gathering;
pub mod list;
pub mod packet;
pub mod pausing;
pub mod pcr_only;
pub mod pid;
pub mod reader;
pub mod sink;
pub mod source;
pub mod tally;
pub mod transfer;
pub mod writer;

pub use counter::Counter;
pub use device::{Blocks, Buffered, Device, DeviceFault, Source, Target};
pub use follower::{Follower, Last, Mark};
pub use gathering::{GatheringSink, GatheringTarget};
pub use list::PacketList;
pub use packet::{Packet, PacketFault};
pub use pausing::{PausingPackets, PausingSource};
pub use pid::Pid;
pub use reader::{PacketReader, ReadFault};
pub use sink::{PacketSink, PutFault};
pub use source::PacketSource;
pub use tally::Tally;
pub use writer::PacketWriter;
