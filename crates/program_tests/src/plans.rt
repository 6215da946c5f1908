//! Runs of `plan`, and of `run` by the script that it writes, over streams that are made by hand.

mod plan_tests;
mod streams;
