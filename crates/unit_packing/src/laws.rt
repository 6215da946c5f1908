//! What holds of the packets of units, over the definitions alone.

ghost use Rattle.unit_packing.specs.Laws.{UnitsArePacked, PackedCarry, PacketsArePlain, AccessIsMarked, PackedReadBack, StampsInFirst};

/// The packets of a unit are payload packets of the PID whose counters go up by one and whose payloads join to the unit, and the first
/// alone begins one.
pub fn units_are_packed()
    ensures { UnitsArePacked }
{}

/// Packets of one unit carry that unit, whatever a reader takes for a duplicate.
pub fn packed_carry()
    ensures { PackedCarry }
{}

/// They are packets of 188 bytes, not scrambled and without a clock reference.
pub fn packets_are_plain()
    ensures { PacketsArePlain }
{}

/// The first is marked as a random access point where that is asked for, and no other is.
pub fn access_is_marked()
    ensures { AccessIsMarked }
{}

/// Behind a gapless run of the PID the run stays gapless, and its units are those before and the one unit.
pub fn packed_read_back()
    ensures { PackedReadBack }
{}

/// A unit with its stamps moved is its first packet's bytes with their stamps moved, and the rest as it was.
pub fn stamps_in_first()
    ensures { StampsInFirst }
{}
