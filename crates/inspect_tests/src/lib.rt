//! Tests of inspections, and of the names in them, by bytes from outside. No program stands on it.
#![tactic(auto)]

#[cfg(test)]
mod facts;
#[cfg(test)]
mod numbering;
#[cfg(test)]
mod plain;
#[cfg(test)]
mod texts;
