//! Packets and sections on their way out of a network (ISO/IEC 13818-1, 2.4.3.3): what goes out behind others goes on with the
//! continuity_counter of its PID. It stands on `program_follower` and `psi_tables`, for the sections on the PID of a map, on `psi_section`
//! and on `ts_packet`, and takes no memory.
//! The crates above use one contract of it: what `Outgoing` puts is what the definitions of written streams say (`packets_out`).
#![tactic(auto)]

mod entry;
mod outgoing;

pub use entry::CueEntry;
pub use outgoing::Outgoing;
