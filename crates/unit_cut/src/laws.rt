//! What holds of every cut, over the definitions alone.

ghost use Rattle.unit_cut.specs.Laws.{CutLeavesUnits, CutCarriesUnits, CutLeavesRows, CutStaysGapless};
ghost use Rattle.unit_cut.specs.Laws.{CutLeavesOthers, CutGrows, GaplessIsNeeded};

/// On a gapless PID, the units in what a cut leaves are the units that stay, in order,
/// whichever streams the output is read with.
pub fn cut_leaves_units()
    ensures { CutLeavesUnits }
{}

/// What a cut leaves of a gapless run is gapless.
pub fn cut_stays_gapless()
    ensures { CutStaysGapless }
{}

/// The packets of all other PIDs, and those marked in error, stay as they are and in their order.
pub fn cut_leaves_others()
    ensures { CutLeavesOthers }
{}

/// What a cut leaves of a front of the run is a front of what it leaves of the run.
pub fn cut_grows()
    ensures { CutGrows }
{}

/// Gapless or not, the PID's payload packets in what a cut leaves are those before the first
/// unit start, unchanged, and then packets that carry the units that stay, in order.
pub fn cut_carries_units()
    ensures { CutCarriesUnits }
{}

/// Gapless or not, the PID's payload packets in what a cut leaves are, but for their counters,
/// those before the first unit start and the rows of the units that stay.
pub fn cut_leaves_rows()
    ensures { CutLeavesRows }
{}

/// The law on units needs its premise: where a packet comes with a counter one too low, the cut
/// can leave one unit where two stay.
pub fn gapless_is_needed()
    ensures { GaplessIsNeeded }
{}
