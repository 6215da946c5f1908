//! What holds of every splice, over the definitions alone.

ghost use Rattle.splice_laws.specs.Laws.{OutGrows, CountedIsPlaced, CarriedIsPlaced, PlacedIsSplice, PidsAreStreams};
ghost use Rattle.splice_laws.specs.Rows.{CarriesPlacedUnits, CarriesSpliceUnits};
ghost use Rattle.splice_laws.specs.Settled.{FlagsSettle, HoldsSettle, SwitchedPidsNeverPassHigh};
ghost use Rattle.splice_laws.specs.Settled.{NothingEarly, NothingLate, NearIsPastForgotten};
ghost use Rattle.splice_laws.specs.Ends.{SentIsPlaced, EndsMayComeEarlier};
ghost use Rattle.splice_laws.specs.Streams.{StreamsCarryByCount, StreamsCarry, StreamsAreSpliced, StreamsCarryNow};

/// Each PID of a run is a stream of which the other laws speak.
pub fn pids_are_streams()
    ensures { PidsAreStreams }
{}

/// How many units of a slice are out never falls.
pub fn out_grows()
    ensures { OutGrows }
{}

/// Whenever the pieces of a slice go out, from its begin to its close, they join to the whole
/// slice, before the first unit at or past the event's start.
pub fn counted_is_placed()
    ensures { CountedIsPlaced }
{}

/// The pieces of each slice join to the whole slice, before the first unit at or past the
/// event's start.
pub fn carried_is_placed()
    ensures { CarriedIsPlaced }
{}

/// In a conditioned stream the slices stand where their times say.
pub fn placed_is_splice()
    ensures { PlacedIsSplice }
{}

/// A PID of a run carries the packets before its first unit, and then its units outside all events
/// with each slice whole before the first unit at or past its event's start.
pub fn carries_placed_units()
    ensures { CarriesPlacedUnits }
{}

/// Where the PID is conditioned, it carries the packets before its first unit, and then its units
/// and the slices as their times say.
pub fn carries_splice_units()
    ensures { CarriesSpliceUnits }
{}

/// Whether an event has begun and is closed does not change by what becomes known later: each end
/// that comes to be known lies past the greatest time, and so does each start.
pub fn flags_settle()
    ensures { FlagsSettle }
{}

/// Nor does it change whether the running unit lies in it.
pub fn holds_settle()
    ensures { HoldsSettle }
{}

/// A switched PID has no time past the greatest.
pub fn switched_pids_are_within()
    ensures { SwitchedPidsNeverPassHigh }
{}

/// Where ends come to be earlier while their slices run, what has gone out of each slice stands
/// whole before the first unit at or past its event's start.
pub fn sent_is_placed()
    ensures { SentIsPlaced }
{}

/// Where ends come to be earlier while their slices run, a conditioned stream has the slices for
/// the last ends in their places.
pub fn ends_may_come_earlier()
    ensures { EndsMayComeEarlier }
{}

/// Each switched PID of a spliced run carries what it would carry alone, whenever its slices go out.
pub fn streams_carry_by_count()
    ensures { StreamsCarryByCount }
{}

/// Each switched PID of a spliced run carries what it would carry alone.
pub fn streams_carry()
    ensures { StreamsCarry }
{}

/// Each conditioned one carries the packets before its first unit, and then its units and the
/// slices as their times say.
pub fn streams_are_spliced()
    ensures { StreamsAreSpliced }
{}

/// An event whose start is still to come holds no unit and has not begun.
pub fn nothing_early()
    ensures { NothingEarly }
{}

/// Of an event that stands no more nothing goes out.
pub fn nothing_late()
    ensures { NothingLate }
{}

/// Also where ends come to be earlier, each switched PID carries what it would carry alone.
pub fn streams_carry_now()
    ensures { StreamsCarryNow }
{}

/// A time at most ten seconds below the greatest does not lie in an event that stands no more.
pub fn near_is_past_forgotten()
    ensures { NearIsPastForgotten }
{}
