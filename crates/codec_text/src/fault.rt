//! Faults by their names.

ghost use Rattle.std.specs.Prelude.{◌≡◌};
ghost use Rattle.codec_text.specs.Names.{cue_fault_name, table_fault_name};

use psi_tables::{TableFault, TooLong};
use scte35_codec::CueFault;
use std::fmt;

/// The name of a fault of a cue.
fn cue_fault_name(fault: CueFault) -> &'static str
    ensures { result.now ≡ cue_fault_name fault }
{
    match fault {
        CueFault::NotCue => "NotCue",
        CueFault::Length => "Length",
        CueFault::Version => "Version",
        CueFault::Encrypted => "Encrypted",
        CueFault::Command => "Command",
    }
}

/// The name of a fault of a table.
fn table_fault_name(fault: TableFault) -> &'static str
    ensures { result.now ≡ table_fault_name fault }
{
    match fault {
        TableFault::WrongTable => "WrongTable",
        TableFault::BadLength => "BadLength",
        TableFault::Sections => "Sections",
    }
}

/// Why bytes are no cue, as the fault's name.
#[derive(Clone, Copy)]
pub struct CueFaultText(pub CueFault);

impl fmt::Display for CueFaultText {
    ghost use Rattle.std.specs.Prelude.{Some};
    ghost use Rattle.codec_text.specs.Names.{cue_fault_name};

    ghost output = { λ t. Some (cue_fault_name t.0) };

    fn fmt<W: fmt::Write>(&self, f: &mut fmt::Formatter<W>) -> fmt::Result {
        f.write_str(cue_fault_name(self.0))
    }
}

/// Why bytes are no table, as the fault's name.
#[derive(Clone, Copy)]
pub struct TableFaultText(pub TableFault);

impl fmt::Display for TableFaultText {
    ghost use Rattle.std.specs.Prelude.{Some};
    ghost use Rattle.codec_text.specs.Names.{table_fault_name};

    ghost output = { λ t. Some (table_fault_name t.0) };

    fn fmt<W: fmt::Write>(&self, f: &mut fmt::Formatter<W>) -> fmt::Result {
        f.write_str(table_fault_name(self.0))
    }
}

/// That a program map has no room for a cue entry, as the fault's name.
#[derive(Clone, Copy)]
pub struct TooLongText(pub TooLong);

impl fmt::Display for TooLongText {
    ghost use Rattle.std.specs.Prelude.{Some, codes};

    ghost output = { λ t. Some (codes "TooLong") };

    fn fmt<W: fmt::Write>(&self, f: &mut fmt::Formatter<W>) -> fmt::Result {
        f.write_str("TooLong")
    }
}
