//! The events that the cues on one PID arm, cancel and end early (ANSI/SCTE 35): a splicer's list of breaks, with no memory taken.
//! It stands on `psi_section`, which assembles the cues, `scte35_codec`, which reads them, and `event_table`, which keeps what stands.
//! The one contract used above: what it has been fed so far stands for the events that these packets have armed (`Obeys`).
#![tactic(auto)]

mod asked;
mod obeying;

pub use asked::Asked;
pub use obeying::ArmedEvents;
