//! Times of ISO/IEC 13818-1: 33-bit stamps as numbers on a ring of 2^33 ticks of 90 kHz, the stamps at the front of a PES packet
//! (2.4.3.6, 2.4.3.7), and their move by a distance.
//! It stands on std alone. The crates above use that `PesHead::read` is `head_of`, and that the ring's order is the order of the line.
#![tactic(auto)]

mod head;
pub mod laws;
mod restamping;
mod time;

pub use head::{HeaderSplit, PesHead};
pub use restamping::restamp;
pub use time::Time33;
