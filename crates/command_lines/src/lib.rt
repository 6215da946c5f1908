//! The command line of the program: its subcommands, their options and the ranges of these.
//! It stands on `clap` for the words, on `decimal_numbers` for numbers and on `run_ends` for the ends that options name.
//! What a caller uses: `command` reads words; of what it reads `cut_options`, `inject_options`, `run_options`, `splice_options`,
//! `services_options` and `inspect_options` say what is to be done, or why that is not taken, and `answer`, `refuse` and `unread` tell
//! that; `report` tells the fault of a run.
#![tactic(auto)]

pub mod command;
mod given;
pub mod inject_options;
pub mod inspect_options;
pub mod plan_options;
pub mod refusals;
pub mod request_help;
pub mod request_options;
pub mod services_options;
pub mod splice_options;
mod subcommand;
mod subcommands;
pub mod words;
