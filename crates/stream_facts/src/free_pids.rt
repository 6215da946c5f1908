//! PIDs on which nothing is and which nothing lists.

ghost use Rattle.std.specs.Prelude.{◌≡◌, All, IfOk};
ghost use Rattle.std.specs.List.{list_any};
ghost use Rattle.stream_facts.specs.Facts.{IsFree, has_pid, is_its_pid};
ghost use Rattle.stream_facts.specs.Pids.{OfPidsKnown};

use crate::facts::{ProgramFacts, StreamFacts};
use crate::pid_facts::PidTable;
use std::alloc::{AllocError, Global};
use ts_packet::Pid;

/// The first PID that is offered for cues.
const FIRST_FREE: u16 = 0x100;

/// The PID of null packets.
const NULL_PID: u16 = 0x1FFF;

/// As many PIDs are offered.
const OFFERED: usize = 3;

/// The first PIDs on which nothing is and which none of these programs has: three at most.
///
/// # Errors
///
/// Where the allocator refused memory.
pub(crate) fn free_pids(
    alloc: Global,
    pids: &PidTable,
    programs: &[ProgramFacts],
) -> Result<Vec<Pid>, AllocError>
    ensures { OfPidsKnown pids.now (λ past. IfOk result (λ v. All (IsFree past programs.now) v.items)) }
{
    let mut free = Vec::new(alloc);
    for number in FIRST_FREE..NULL_PID {
        if free.len() >= OFFERED {
            break;
        }
        if let Some(pid) = Pid::new(number)
            && pids.get(pid).is_none()
            && !is_listed(programs, pid)
        {
            free.push(pid)?;
        }
    }
    Ok(free)
}

/// Whether one of these programs has the PID.
fn is_listed(programs: &[ProgramFacts], pid: Pid) -> bool
    ensures { result ≡ list_any (has_pid pid) programs.now }
{
    programs.iter().any(|program| has_pid(program, pid))
}

/// Whether a program has the PID: for its map, its clock references or a stream.
fn has_pid(program: &ProgramFacts, pid: Pid) -> bool
    ensures { result ≡ has_pid pid program.now }
{
    program.pmt_pid == pid
        || program.pcr_pid == Some(pid)
        || has_stream(program.streams.as_slice(), pid)
}

/// Whether one of these streams is on the PID.
fn has_stream(streams: &[StreamFacts], pid: Pid) -> bool
    ensures { result ≡ list_any (is_its_pid pid) streams.now }
{
    streams.iter().any(|stream| stream.pid == pid)
}
