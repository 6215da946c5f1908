//! Program association and program map sections of ISO/IEC 13818-1 (2.4.4.3, 2.4.4.8): read where they lie, and the entry of a
//! cue stream (SCTE 35) added and taken out again. It stands on `psi_section` (`seal`), `ts_packet` (`Pid`) and `wire_fields`, and
//! takes no memory.
//! The crates above use one contract of it: a table is read exactly as its grammar says, and what is written spells one table.
#![tactic(auto)]

mod config;
mod cue;
mod descriptors;
mod entries;
mod fault;
pub mod laws;
mod network;
mod pat;
mod pmt;
mod section;
mod stream;
mod writing;

pub use config::{BadConfig, Config};
pub use cue::{TooLong, add_cue, strip_cue};
pub use entries::Entries;
pub use fault::{TableFault, TooManyStreams};
pub use network::{FeedFault, NetworkFault};
pub use pat::Pat;
pub use pmt::Pmt;
pub use stream::{Stream, is_switched_kind};
pub use writing::Section;
