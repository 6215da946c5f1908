//! What was given for the options of a subcommand.

ghost use Rattle.std.specs.Prelude.{◌≡◌, codes};
ghost use Rattle.clap.specs.Words.{found_of, one_text};
ghost use Rattle.run_ends.specs.Ends.{IsNamed};
ghost use Rattle.command_lines.specs.Options.{given, text_of, IsFlag};

use clap::ArgMatches;
use run_ends::End;

/// The text of the option of this name, which is empty where none was given.
pub(crate) fn text_of<'a>(matches: &ArgMatches<'a>, name: &str) -> &'a str
    ensures { result.now ≡ text_of matches.now name.now }
{
    match matches.get_str(name) {
        Some(text) => text,
        None => "",
    }
}

/// The end that the option of this name gives.
pub(crate) fn end_of<'a>(matches: &ArgMatches<'a>, name: &str) -> End<'a>
    ensures { IsNamed (given matches.now name.now) result }
{
    End::named(matches.get_str(name))
}

/// Whether the run goes on behind faults of the network.
pub(crate) fn is_on_air(matches: &ArgMatches<'_>) -> bool
    ensures { IsFlag (one_text (found_of matches.now) (codes "on-air")) result }
{
    matches.get_flag("on-air")
}

/// Whether more is to be told than the fault's line.
pub(crate) fn is_verbose(matches: &ArgMatches<'_>) -> bool
    ensures { IsFlag (one_text (found_of matches.now) (codes "verbose")) result }
{
    matches.get_flag("verbose")
}

/// Whether nothing is warned of.
pub(crate) fn is_quiet(matches: &ArgMatches<'_>) -> bool
    ensures { IsFlag (one_text (found_of matches.now) (codes "quiet")) result }
{
    matches.get_flag("quiet")
}
