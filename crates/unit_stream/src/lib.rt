//! Units: the PES packets of an elementary stream, packet by packet.
#![tactic(auto)]

mod clock;
mod fault;
pub mod laws;
mod reader;
mod starts;

pub use clock::{Begun, Clock};
pub use fault::UnitFault;
pub use reader::{Piece, UnitFollower, UnitReader};
pub use starts::StartReader;
