//! Laws of the definitions, each the contract of a function that does nothing.

ghost use Rattle.psi_tables.specs.Laws.{StripUndoesAdd, WrittenMapsCheck, GivenTablesCheck};
ghost use Rattle.psi_tables.specs.Laws.{ReadTablesAreSpelled, WrittenMapsReadBack, PutMapsReadBack};

/// A map whose `CRC_32` is right and that lists nothing on the PID is the same after a cue entry was added and taken out again.
pub fn strip_undoes_add()
    ensures { StripUndoesAdd }
{}

/// `CRC_32` of a whole map with an entry added or taken out is 0, so a reader of sections lets it through.
pub fn written_maps_check()
    ensures { WrittenMapsCheck }
{}

/// `CRC_32` of a whole section that can be given, and is read as a table, is 0.
pub fn given_tables_check()
    ensures { GivenTablesCheck }
{}

/// What is read as a table spells that table.
pub fn read_tables_are_spelled()
    ensures { ReadTablesAreSpelled }
{}

/// A map is read back from its section, which can be given: the map itself, and with an entry for cues added or taken out.
pub fn written_maps_read_back()
    ensures { WrittenMapsReadBack }
{}

/// A map that is put into packets is read back as that map, whatever packets came before.
pub fn put_maps_read_back()
    ensures { PutMapsReadBack }
{}
