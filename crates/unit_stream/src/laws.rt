//! What holds of the units of every run, over the definitions alone.

ghost use Rattle.unit_stream.specs.Units.{UnitsGrow};
ghost use Rattle.unit_stream.specs.Pieces.{PiecesJoin};
ghost use Rattle.unit_stream.specs.Rows.{RowsJoin};

/// One packet more begins a unit, makes the last one longer, or leaves the units as they are.
pub fn units_grow()
    ensures { UnitsGrow }
{}

/// What a reader gives for each packet joins to the units of its PID: a `Start` begins one, a `More` makes the last one longer,
/// and nothing else changes them.
pub fn pieces_join()
    ensures { PiecesJoin }
{}

/// On any run, gapless or not, the payload packets of a PID are those before its first unit start and then its rows, one for each unit
/// in order: the packets of a row with its duplicates left out join to the unit, and it begins where the unit does.
pub fn rows_join()
    ensures { RowsJoin }
{}
