//! What is counted in a run on air.

/// What a run on air counted: what its stretches counted, summed, and what became of them. Each count stops at the greatest u64.
#[derive(Clone, Copy, Debug, PartialEq, Eq, Drop)]
pub struct AirReport<R> {
    /// What the stretches counted, summed.
    pub report: R,
    /// How many stretches there were: 1 where none began anew, 0 on a network without packets.
    pub stretches: u64,
    /// The events that stood at the end of a stretch that was not the last, and whose end had not come.
    pub lost: u64,
    /// The packets that were left unjudged.
    pub unjudged: u64,
}
