//! Tests of the codecs and of what they stand on, by bytes from outside: literal packets, stamps, sections, tables, cues and messages, and
//! devices that misbehave. No program stands on it.
#![tactic(auto)]

/// `assert_eq!` without a note, as one call: `expect_eq!(rt; left, right)`.
#[cfg(test)]
macro_rules! expect_eq {
    ($rt:expr; $left:expr, $right:expr $(,)?) => {
        crate::equality::expect_equal(&$rt, &$left, &$right)
    };
}

#[cfg(test)]
mod cues;
#[cfg(test)]
mod digits;
#[cfg(test)]
mod equality;
#[cfg(test)]
mod fields;
pub mod literal;
#[cfg(test)]
mod messages;
#[cfg(test)]
mod packets;
#[cfg(test)]
mod packing;
#[cfg(test)]
mod sections;
#[cfg(test)]
mod sessions;
#[cfg(test)]
mod stamps;
#[cfg(test)]
mod tables;
