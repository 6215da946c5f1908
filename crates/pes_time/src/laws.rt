//! Laws of the definitions, each the contract of a function that does nothing.

ghost use Rattle.pes_time.specs.Line.{RingOrderIsLineOrder, LiftIsTheNearTime};
ghost use Rattle.pes_time.specs.Stamps.{RestampMovesStampsAlone, MoreBytesReadTheSame, SplitIsUndecided};

/// For two line times less than 2^32 ticks apart, the way on the ring is their difference, so ring order is line order.
pub fn ring_order_is_line_order()
    ensures { RingOrderIsLineOrder }
{}

/// The line time in `[-2^32, 2^32)` of another that stands at a stamp on the ring: `lift` is one, and there is no other.
pub fn lift_is_the_near_time()
    ensures { LiftIsTheNearTime }
{}

/// A unit with its stamps moved is read with its stamps later, and is the unit before but for the value bits of its stamps.
pub fn restamp_moves_stamps_alone()
    ensures { RestampMovesStampsAlone }
{}

/// The stamps that the first packet's payload gives are those of the whole unit.
pub fn more_bytes_read_the_same()
    ensures { MoreBytesReadTheSame }
{}

/// A payload that is split has two continuations that are read differently: the error comes no earlier than it has to.
pub fn split_is_undecided()
    ensures { SplitIsUndecided }
{}
