//! Tests of what plans of breaks are put together from, by values that were worked by hand. No program stands on it.
#![tactic(auto)]

#[cfg(test)]
mod choices;
#[cfg(test)]
mod lists;
