//! Bytes as upper case hexadecimal digits, two for each byte, the high four bits first: written, printed and read back.
//! It stands on std alone.
//! The crates above use one contract of it above all: what is written are the `digits_of` the bytes, and what is read are the bytes
//! that the text spells, in no other way.
#![tactic(auto)]

pub mod digits;
pub mod laws;

pub use digits::{Digits, bytes_at_once, bytes_into, bytes_of, digit_of, spell, value_of};
