//! Why a list of services is not loaded, and where it stops.

use ad_lists::ListFault;
use chain_services::ServiceFault;
use psi_tables::BadConfig;
use std::io;
use thiserror::Error;

/// Why a list of services is not loaded.
#[derive(Clone, Copy, Debug, PartialEq, Eq, Drop, Error)]
pub enum ServicesFault {
    /// A line is not a program's number, a PID, an index and a path, with one space behind each number.
    #[error("it is not a program, a cue PID, an index and a path, one space behind each number")]
    BadLine,
    /// The program or the PID for cues of a line is refused.
    #[error("{0}")]
    Config(BadConfig),
    /// The list of a line's advertisements cannot be opened, or is a directory.
    #[error("its list of advertisements cannot be opened")]
    File,
    /// The advertisements of a line were not loaded; never for want of memory.
    #[error("its list of advertisements: {0}")]
    Adverts(ListFault),
    /// The services of the lines do not go together; never for want of memory.
    #[error("{0}")]
    Services(ServiceFault),
    /// The list could not be read on.
    #[error("the list could not be read on")]
    Io,
    /// More than 2^32 reads did not give the list's end.
    #[error("too many reads")]
    Turns,
    /// Memory was refused.
    #[error("memory was refused")]
    OutOfMemory,
}

/// Why a list of services was not loaded, and where.
#[derive(Debug, Drop)]
pub struct Unloaded {
    pub fault: ServicesFault,
    /// The number of the line at fault, from 1, where it is one's.
    pub line: Option<usize>,
    /// The number of the line at fault in the list of that line's advertisements, from 1, where it is one's.
    pub adverts_line: Option<usize>,
    /// The line at fault ends with a carriage return, so that the path of its list does.
    pub has_return: bool,
    /// The system's reason, where the list of a line's advertisements or one of its streams cannot be opened.
    pub reason: Option<io::Error>,
}

impl Unloaded {
    ghost use Rattle.std.specs.Prelude.{◌≡◌, None, Some};

    /// The fault is of no line.
    pub(crate) fn of_list(fault: ServicesFault) -> Unloaded
        ensures fault { result.fault ≡ fault }
        ensures line { result.line ≡ None }
        ensures adverts { result.adverts_line ≡ None }
        ensures reason { result.reason ≡ None }
    {
        Unloaded {
            fault,
            line: None,
            adverts_line: None,
            has_return: false,
            reason: None,
        }
    }

    /// The fault is this line's.
    pub(crate) fn of_line(number: usize, fault: ServicesFault) -> Unloaded
        ensures fault { result.fault ≡ fault }
        ensures line { result.line ≡ Some number }
        ensures adverts { result.adverts_line ≡ None }
        ensures reason { result.reason ≡ None }
    {
        Unloaded {
            fault,
            line: Some(number),
            adverts_line: None,
            has_return: false,
            reason: None,
        }
    }

    /// The list of this line's advertisements, whose path ends with a carriage return or not, cannot be opened.
    pub(crate) fn unopened(number: usize, has_return: bool, reason: io::Error) -> Unloaded
        ensures fault { result.fault ≡ ServicesFault.File }
        ensures line { result.line ≡ Some number }
        ensures adverts { result.adverts_line ≡ None }
        ensures carriage { result.has_return ≡ has_return }
        ensures reason { result.reason ≡ Some reason }
    {
        Unloaded {
            fault: ServicesFault::File,
            line: Some(number),
            adverts_line: None,
            has_return,
            reason: Some(reason),
        }
    }
}
