//! Cues of ANSI/SCTE 35: a splice_info_section read by its fields, and the sections of our own, each with one spelling.
//! It stands on `psi_section` (CRC_32), `pes_time` (33-bit times) and `wire_fields`, and takes no memory.
//! The crates above use one contract of it: `read` gives exactly what the grammar of `specs/Grammar.antt` says.
#![tactic(auto)]

mod cue;
mod cue_out;
mod descriptors;
mod fields;
mod insert;
pub mod laws;

pub use cue::{Cue, CueFault, read};
pub use cue_out::{CueOut, write};
pub use descriptors::Avails;
pub use insert::SpliceInsert;
