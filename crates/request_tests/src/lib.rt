//! Messages that ask, from the words of a command line to the line that is printed, by bytes worked from the tables of ANSI/SCTE 104.
//! It stands on `command_lines` and `request_texts`; no program stands on it.
#![tactic(auto)]

pub mod asking;
#[cfg(test)]
mod expecting;
#[cfg(test)]
mod line_tests;
#[cfg(test)]
mod refusal_tests;
