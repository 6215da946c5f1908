//! Big-endian fields, as all the standards here have them: the most significant byte comes first.
//! It stands on `byteorder` and `arrayvec`, and takes no memory.
#![tactic(auto)]

mod reading;
mod writing;

pub use reading::{bytes_from, number12, number16, number32};
pub use writing::{put, put_number16, put_number32};
