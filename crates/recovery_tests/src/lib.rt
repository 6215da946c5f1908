//! Tests of the reader that finds its place again: streams with places of sync by hand, read in any pieces, and a device that fails at each
//! call. No program stands on it.
#![tactic(auto)]

#[cfg(test)]
mod streams;
