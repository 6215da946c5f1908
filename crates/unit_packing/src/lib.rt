//! Units into packets (ISO/IEC 13818-1, 2.4.3.2 to 2.4.3.6): as many bytes in each as fit, one packet built at a time, into any sink.
//! It stands on unit_stream, ts_packet and pes_time. The crates above use that what is put are the `unit_packets` of the unit, which
//! `IsPacked` says of them too: they carry that unit and read back as it.
#![tactic(auto)]

pub mod laws;
mod packet;
mod put;

pub use put::{put_moved, put_unit};
