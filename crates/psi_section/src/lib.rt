//! Sections of program specific information (ISO/IEC 13818-1, 2.4.4): read out of packets, written into packets, with their CRC_32.
//! It stands on `ts_packet` and `wire_fields`, and takes no memory. The one contract used above: fed the packets of a PID, the
//! assembler gives the `sections` of their payloads, in order, each behind the packet that finishes it.
#![tactic(auto)]

pub mod assembler;
pub mod checksum;
mod front;
pub mod laws;
pub mod packetiser;
mod payload;
mod sections;
mod store;
mod tables;

pub use assembler::Assembler;
pub use checksum::{crc, crc_entry, seal};
pub use front::section_length;
pub use packetiser::Packetiser;
pub use sections::Sections;
