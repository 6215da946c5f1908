//! What is wrong with a line of a script, for people.

use thiserror::Error;

/// What is wrong with a line of a script.
#[derive(Clone, Copy, Debug, PartialEq, Eq, Drop, Error)]
pub enum ScriptLineFault {
    /// A carriage return, as editors of other systems put one before each line feed.
    #[error("a carriage return stands in it, and lines end with a line feed alone")]
    CarriageReturn,
    /// It does not begin with the number of a packet and one space.
    #[error("it does not begin with the number of a packet and one space")]
    NoNumber,
    /// The number is not greater than that of the line before.
    #[error("its number is not greater than that of the line before")]
    NotRising,
    /// No byte stands behind the number.
    #[error("no bytes stand behind its number")]
    NoBytes,
    /// More than 4,096 bytes stand behind the number.
    #[error("it has more than 4096 bytes")]
    TooLong,
    /// A byte has one digit alone.
    #[error("its last byte has one digit alone")]
    HalfByte,
    /// What stands behind the number is no upper case hexadecimal digit.
    #[error("what stands behind its number is not upper case hexadecimal digits alone")]
    NoDigit,
}
