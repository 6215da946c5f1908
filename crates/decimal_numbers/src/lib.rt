//! Decimal numbers in a text: digits alone, without a sign, below a limit.
//! It stands on std alone.
//! The crates above use that a number is read exactly where the text is one in its range, and that it is the number of its digits.
#![tactic(auto)]

mod numbers;

pub use numbers::{number_below, number_within};
