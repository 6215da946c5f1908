//! Facts about a transport stream: packets in, facts out. Its programs and their streams, how often each can be entered, its bit rate,
//! the cues on the air, PIDs that are free for cues, and whether the chain takes it. It allocates, and stands on no path of a packet.
//! What a caller uses: `Inspection` tells of the packets that it is fed what `Tells` says (specs/Facts.antt); `PlainPackets` reads
//! streams whose packets have bytes before or behind them, and `command_of`, `signal_time` and `descriptors_of` look into cues.
#![tactic(auto)]

mod bit_rate;
mod counts;
mod cues;
mod facts;
mod free_pids;
mod inspection;
mod judge;
mod packet_size;
mod pid_facts;
mod plain_packets;
mod programs;
mod splice_commands;
mod tables;

pub use facts::{CueFacts, Damage, Facts, Profile, ProgramFacts, StreamFacts, StreamFault, Wrong};
pub use inspection::Inspection;
pub use packet_size::PacketSize;
pub use plain_packets::PlainPackets;
pub use splice_commands::{
    SpliceCommand, SpliceDescriptor, command_of, descriptors_of, signal_time,
};
