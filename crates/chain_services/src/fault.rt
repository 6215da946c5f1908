//! Why services are refused.

use thiserror::Error;

/// Why services are refused.
#[derive(Clone, Copy, Debug, PartialEq, Eq, Drop, Error)]
pub enum ServiceFault {
    /// There is none.
    #[error("there is no service")]
    NoService,
    /// There are more than eight.
    #[error("there are more than eight services")]
    Many,
    /// Two of them have one `DPI_PID_index`.
    #[error("two services have one DPI_PID_index")]
    SharedIndex,
    /// Two of them are of one program.
    #[error("two services are of one program")]
    SharedProgram,
    /// Two of them have one PID for their cues.
    #[error("two services have one cue PID")]
    SharedCue,
    /// Memory was refused.
    #[error("memory was refused")]
    OutOfMemory,
}
