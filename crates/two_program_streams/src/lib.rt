//! Streams of two programs made by hand, for tests. It stands on `psi_section`; no program stands on it.
//! It is proved that a stream has as many bytes as its items come to; which bytes, a test of one stream says.
#![tactic(auto)]

mod stream;
#[cfg(test)]
mod stream_tests;

pub use stream::{Item, Stream};
