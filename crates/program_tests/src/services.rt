//! Several services in one stream over networks made by hand: whole runs, lists of services, and the program.

mod command_tests;
mod engine_tests;
mod list_tests;
mod runs;
