//! Whole runs of the chain over streams made by hand: what comes out against what the standards' rules say should.
//! It stands on `chain_engine`, for the runs, and on the codecs, for cues; no program stands on it.
#![tactic(auto)]

/// `assert_eq!` without a note, as one call: `expect_eq!(rt; left, right)`.
#[cfg(test)]
macro_rules! expect_eq {
    ($rt:expr; $left:expr, $right:expr $(,)?) => {
        crate::equality::expect_equal(&$rt, &$left, &$right)
    };
}

#[cfg(test)]
mod break_tests;
#[cfg(test)]
mod cue_tests;
#[cfg(test)]
mod engine_tests;
#[cfg(test)]
mod equality;
#[cfg(test)]
mod exchange_tests;
#[cfg(test)]
mod fail_automation;
#[cfg(test)]
mod fail_tests;
#[cfg(test)]
mod item;
#[cfg(test)]
mod library_tests;
#[cfg(test)]
mod lost_tests;
pub mod packets;
#[cfg(test)]
mod runs;
#[cfg(test)]
mod stream;
