//! What is printed of a run, and made bytes written out.

use crate::runs::Outcome;
use crate::workload::Job;
use std::alloc::Global;
use std::io::{self, Read, Write};

/// How many bytes are written at a time.
const ROOM: usize = 131_072;

/// How many times there are more at most.
const TURNS: u64 = 1 << 32;

/// Prints what a run came to.
pub fn print_outcome<O: Write>(job: Job, outcome: &Outcome, output: &mut O) -> io::Result<()> {
    writeln!(output, "workload {}", job.workload.name())?;
    if let Some(report) = &outcome.report {
        writeln!(output, "messages {}", report.messages)?;
        writeln!(output, "accepted {}", report.accepted)?;
        writeln!(output, "refused {}", report.refused)?;
        writeln!(output, "played {}", report.switch.played)?;
        writeln!(output, "not-fitted {}", report.switch.not_fitted)?;
        writeln!(output, "unconditioned {}", report.switch.unconditioned)?;
        writeln!(output, "ignored {}", report.switch.ignored)?;
        writeln!(output, "replied {}", outcome.replies.count())?;
        writeln!(output, "replies {:016X}", outcome.replies.sum())?;
    }
    writeln!(output, "packets {}", outcome.packets.count() / 188)?;
    writeln!(output, "digest {:016X}", outcome.packets.sum())
}

/// Writes all that a reader gives.
pub fn write_all_of<R: Read + Drop, O: Write>(
    alloc: Global,
    reader: R,
    output: &mut O,
) -> io::Result<()> {
    let mut reader = reader;
    let mut room = vec![in alloc; 0_u8; ROOM]?;
    for _turn in 0..TURNS {
        let count = reader.read(room.as_mut_slice())?;
        if count == 0 {
            return Ok(());
        }
        if let Some(part) = room.as_slice().get(..count) {
            output.write_all(part)?;
        }
    }
    Ok(())
}
