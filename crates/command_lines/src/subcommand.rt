//! What a subcommand is made of: texts for help, and options.

ghost use Rattle.std.specs.Prelude.{◌≡◌, Some, false};

use clap::{Arg, ArgAction, Command};
use std::alloc::{AllocError, Global};

/// An option that takes one value.
#[derive(Clone, Copy)]
pub(crate) struct ValueOption {
    pub(crate) id: &'static str,
    /// What its value is called in help.
    pub(crate) value_name: &'static str,
    pub(crate) help: &'static str,
    pub(crate) is_required: bool,
}

impl ValueOption {
    /// The option as the command line has it.
    fn argument<'a>(self, alloc: Global) -> Arg<'a>
        ensures id { result.id ≡ self.id }
        ensures long { result.long ≡ Some self.id }
        ensures required { result.required ≡ self.is_required }
        ensures action { result.action ≡ Some ArgAction.Set }
    {
        Arg::new(alloc, self.id)
            .long(self.id)
            .value_name(self.value_name)
            .action(ArgAction::Set)
            .allow_negative_numbers(true)
            .help(self.help)
            .required(self.is_required)
    }
}

/// What `--on-air` does.
const ON_AIR: &str =
    "Go on behind every fault of the network; what cannot be judged goes out as it came, and the report has five more lines";

/// What `--quiet` does.
const QUIET: &str = "Print no warnings on standard error at the end of a good run";

/// A flag.
pub(crate) fn flag<'a>(alloc: Global, name: &'static str, help: &'static str) -> Arg<'a>
    ensures id { result.id ≡ name.entry }
    ensures long { result.long ≡ Some name.entry }
    ensures optional { result.required ≡ false }
    ensures action { result.action ≡ Some ArgAction.SetTrue }
{
    Arg::new(alloc, name)
        .long(name)
        .action(ArgAction::SetTrue)
        .help(help)
}

/// A subcommand, with or without the flag `--verbose`.
#[derive(Clone, Copy)]
pub(crate) struct Subcommand {
    pub(crate) name: &'static str,
    /// What it does, in a line.
    pub(crate) about: &'static str,
    /// What it does, at length.
    pub(crate) long_about: &'static str,
    /// What stands at the end of its help.
    pub(crate) example: &'static str,
    /// How it is called.
    pub(crate) usage: &'static str,
    pub(crate) options: &'static [ValueOption],
    /// What `--verbose` does, where it is there.
    pub(crate) verbose: &'static str,
}

impl Subcommand {
    /// The subcommand by its name, and how it is called.
    fn named<'a>(self, alloc: Global) -> Command<'a> {
        Command::new(alloc, self.name).override_usage(self.usage)
    }

    /// The subcommand, still without options.
    fn bare<'a>(self, alloc: Global) -> Command<'a> {
        self.named(alloc)
            .about(self.about)
            .long_about(self.long_about)
            .after_help(self.example)
    }

    /// The subcommand with its options, and without `--verbose`: it has nothing more to tell.
    pub(crate) fn silent<'a>(self, alloc: Global) -> Result<Command<'a>, AllocError> {
        let mut command = self.bare(alloc);
        for option in self.options {
            command = command.arg(option.argument(alloc))?;
        }
        Ok(command)
    }

    /// The subcommand as the command line has it.
    pub(crate) fn command<'a>(self, alloc: Global) -> Result<Command<'a>, AllocError> {
        let verbose = flag(alloc, "verbose", self.verbose);
        self.silent(alloc)?.arg(verbose)
    }

    /// Likewise, with the flags `--on-air` and `--quiet`.
    pub(crate) fn on_air<'a>(self, alloc: Global) -> Result<Command<'a>, AllocError> {
        let on_air = flag(alloc, "on-air", ON_AIR);
        let quiet = flag(alloc, "quiet", QUIET);
        let verbose = flag(alloc, "verbose", self.verbose);
        self.silent(alloc)?.arg(on_air)?.arg(quiet)?.arg(verbose)
    }
}
