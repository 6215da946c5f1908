//! What is told where the words of a command line could not be read.

ghost use Rattle.std.specs.Prelude.{◌≡◌, ◌≢◌};

use crate::refusals::{USAGE, report};
use std::io::{ErrorKind, Write};

/// Says why the words were not read, and answers the exit status: 2 where one is not UTF-8, 1 where memory was refused.
pub fn unread<E: Write>(faults: &mut E, kind: ErrorKind) -> u8
    ensures words { kind ≡ ErrorKind.InvalidData → result ≡ 2 }
    ensures memory { kind ≢ ErrorKind.InvalidData → result ≡ 1 }
{
    if kind == ErrorKind::InvalidData {
        let _ = writeln!(faults, "error: an argument is not UTF-8 text");
        return USAGE;
    }
    report(faults, "OutOfMemory")
}
