//! Laws of the table, each the contract of a function that does nothing.

ghost use Rattle.event_table.specs.Laws.{NoTwoMeet, ComparedInOrder, FaultlessMayAdvance};

use crate::table::Table;

/// No time lies in two of the events that stand in a table, after any calls.
pub fn no_two_standing_events_meet<T>(table: &Table<T>)
    ensures { NoTwoMeet table.now }
{}

/// All times that a table compares, and those where a unit may lie, are within 2^32 ticks of one another, so the ring's order of them is
/// the line's.
pub fn ring_order_is_line_order_in_a_table<T>(table: &Table<T>)
    ensures { ComparedInOrder table.now }
{}

/// Where a packet has no fault, [`Table::advance`] may be told of the high time after it.
pub fn no_fault_lets_a_table_advance()
    ensures { FaultlessMayAdvance }
{}
