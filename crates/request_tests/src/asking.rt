//! A command line that asks for a message, and what becomes of it.

use command_lines::command::command;
use command_lines::request_options::request_options;
use request_texts::print_request;
use std::alloc::Global;
use std::io::Write;

/// What becomes of a command line.
#[derive(Clone, Copy, Debug, PartialEq, Eq)]
pub enum Outcome {
    /// Its line is out.
    Printed,
    /// Its line is not out, or not all of it.
    Unprinted,
    /// A text is none that its option takes.
    Refused,
    /// Its words are not taken.
    NotTaken,
}

/// Reads the words behind the program's name, and prints the line that they ask for.
pub fn ask<W: Write>(alloc: Global, words: &[&str], output: &mut W) -> Outcome {
    let Ok(line) = command(alloc) else {
        return Outcome::NotTaken;
    };
    let Ok(matches) = line.try_get_matches_from(words) else {
        return Outcome::NotTaken;
    };
    let Some(given) = matches.subcommand_matches("request") else {
        return Outcome::NotTaken;
    };
    let Some((name, options)) = given.subcommand() else {
        return Outcome::NotTaken;
    };
    let Ok(asked) = request_options(name, options) else {
        return Outcome::Refused;
    };
    if print_request(output, &asked) {
        Outcome::Printed
    } else {
        Outcome::Unprinted
    }
}
