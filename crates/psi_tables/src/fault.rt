//! Why bytes are no table, or a table is not taken.

use thiserror::Error;

/// Why some bytes are no program association or program map section. Where several apply, the first of this list is told,
/// except that fewer than three bytes are always `BadLength`.
#[derive(Clone, Copy, Debug, PartialEq, Eq, Drop, Error)]
pub enum TableFault {
    /// Another `table_id`, or `section_syntax_indicator` 0.
    #[error("another table")]
    WrongTable,
    /// `section_length` is over 1021 or does not count the bytes behind it, the bytes are too few for the fixed fields and `CRC_32`,
    /// or what the section lists does not fill it exactly.
    #[error("a section of a wrong length")]
    BadLength,
    /// A program association section that applies now is not the only one of its table: `last_section_number` is not 0.
    #[error("a table of several sections")]
    Sections,
}

/// A program map lists more than eight switched streams.
#[derive(Clone, Copy, Debug, PartialEq, Eq, Drop, Error)]
#[error("more than eight switched streams")]
pub struct TooManyStreams;
