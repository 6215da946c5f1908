//! The answer to a section.

ghost use Rattle.std.specs.Prelude.{◌++◌, OnOk};
ghost use Rattle.std.specs.Io.KnownBytes.{Appends};
ghost use Rattle.psi_tables.specs.Association.{pat};
ghost use Rattle.psi_tables.specs.ProgramMap.{map_of, pmt};
ghost use Rattle.psi_tables.specs.Cue.{with_cue_entry, section_or_too_long};
ghost use Rattle.conformance.specs.Answers.{ended, pat_text, pmt_text, added_text, changes_text, table_text};

use codec_text::{BytesText, PatText, PmtText, TableFaultText, TooLongText};
use psi_tables::{Pat, Pmt, add_cue, strip_cue};
use std::io::{self, Write};
use ts_packet::Pid;

/// Writes what the section is as a program association and as a program map.
pub fn write_table<O: Write>(output: &mut O, bytes: &[u8]) -> io::Result<()>
    ensures { OnOk result (Appends (O.contents output.old) (O.contents output.new) (ended (table_text bytes.now))) }
{
    write_pat(output, bytes)?;
    write!(output, " | ")?;
    write_pmt(output, bytes)?;
    writeln!(output, "")
}

fn write_pat<O: Write>(output: &mut O, bytes: &[u8]) -> io::Result<()>
    ensures { OnOk result (Appends (O.contents output.old) (O.contents output.new) (pat_text (pat bytes.now))) }
{
    match Pat::read(bytes) {
        Ok(pat) => {
            let text = PatText(pat);
            write!(output, "{text}")
        }
        Err(fault) => {
            let text = TableFaultText(fault);
            write!(output, "Pat:{text}")
        }
    }
}

fn write_pmt<O: Write>(output: &mut O, bytes: &[u8]) -> io::Result<()>
    ensures { OnOk result (Appends (O.contents output.old) (O.contents output.new) (pmt_text (pmt bytes.now))) }
{
    match Pmt::read(bytes) {
        Ok(pmt) => write_map(output, &pmt),
        Err(fault) => {
            let text = TableFaultText(fault);
            write!(output, "Pmt:{text}")
        }
    }
}

/// Writes the map with the cue entry of this PID added, or that it has no room for it.
fn write_added<O: Write>(output: &mut O, pmt: &Pmt<'_>, cue_pid: Pid) -> io::Result<()>
    ensures { OnOk result (Appends (O.contents output.old) (O.contents output.new)
        (added_text (section_or_too_long (with_cue_entry cue_pid (map_of pmt.now.bytes.now))))) }
{
    match add_cue(pmt, cue_pid) {
        Ok(section) => {
            let digits = BytesText(section.as_slice());
            write!(output, "{digits}")
        }
        Err(fault) => {
            let text = TooLongText(fault);
            write!(output, "{text}")
        }
    }
}

/// Writes a program map, and it with the cue entry of PID 0x01F0 added and with it stripped.
fn write_map<O: Write>(output: &mut O, pmt: &Pmt<'_>) -> io::Result<()>
    ensures { OnOk result (Appends (O.contents output.old) (O.contents output.new)
        (changes_text (map_of pmt.now.bytes.now))) }
{
    let cue_pid = Pid::of_bits(0x01, 0xF0);
    let text = PmtText(*pmt);
    write!(output, "{text} | add=")?;
    write_added(output, pmt, cue_pid)?;
    let section = strip_cue(pmt, cue_pid);
    let digits = BytesText(section.as_slice());
    write!(output, " | strip={digits}")
}
