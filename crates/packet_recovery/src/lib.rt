//! Packets from a device whose bytes are not all packets: a reader that finds its place again, and says what it left out.
//! It stands on `ts_packet`. What a caller uses: `RecoveringReader` gives the packets of `mended (framed b)` (specs/Framing.antt, Mending.antt)
//! for any bytes b of its device, and only a device's faults.
#![tactic(auto)]

pub mod laws;
mod reader;
mod search;
mod sight;

pub use reader::RecoveringReader;
