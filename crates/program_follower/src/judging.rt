//! What a map of the program may not say.

ghost use Rattle.std.specs.Option.{option_or};
ghost use Rattle.std.specs.Prelude.{◌≡◌, ◌&&◌, ◌||◌, ◌==◌, ◌∷◌, if◌then◌else◌, Option, Some, None, OnOk, IfErr};
ghost use Rattle.std.specs.List.{list_any};
ghost use Rattle.psi_tables.specs.Streams.{switched_of};
ghost use Rattle.psi_tables.specs.StreamsLeft.{streams_left};
ghost use Rattle.psi_tables.specs.ProgramMap.{map_of};
ghost use Rattle.program_follower.specs.Program.{program_in};
ghost use Rattle.ts_packet.specs.Fields.{is_among};
ghost use Rattle.program_follower.specs.Faults.{is_pid, pids_in, is_twice, bad_pid, switches_bad_pid, has_bad_pids};
ghost use Rattle.program_follower.specs.Faults.{uses_cue_pid, changed_by, same_streams, too_long};
ghost use Rattle.program_follower.specs.Judging.{fault_of_map};
ghost use Rattle.program_follower.specs.Known.{known_seen};

use crate::known::KnownProgram;
use crate::purpose::Purpose;
use psi_tables::{Entries, NetworkFault, Pmt, Stream, add_cue, is_switched_kind};
use ts_packet::Pid;

/// Judges a map of the program, and takes what it says where it is the first.
///
/// # Errors
///
/// The first of `TooManyStreams`, `BadPids`, `CuePidUsed`, `ProgramChanged` and `PmtTooLong` that applies.
pub(crate) fn judge_map(
    known: &mut Option<KnownProgram>,
    purpose: &Purpose,
    pmt_pid: Pid,
    pmt: &Pmt<'_>,
) -> Result<(), NetworkFault>
    ensures ok { OnOk result ((fault_of_map purpose.now pmt_pid (known_seen known.old) pmt.now.bytes.now ≡ None)
        × (known_seen known.new ≡ option_or (known_seen known.old) (Some (program_in (map_of pmt.now.bytes.now))))) }
    ensures err { IfErr result (λ f. fault_of_map purpose.now pmt_pid (known_seen known.old) pmt.now.bytes.now
        ≡ Some f) }
    ensures stays { IfErr result (λ _. known_seen known.new ≡ known_seen known.old) }
{
    let Ok(streams) = pmt.switched() else {
        return Err(NetworkFault::TooManyStreams);
    };
    if has_bad_pids(pmt, pmt_pid) {
        return Err(NetworkFault::BadPids);
    }
    if uses_cue_pid(purpose, pmt) {
        return Err(NetworkFault::CuePidUsed);
    }
    if is_changed(known, streams.as_slice(), pmt.pcr_pid()) {
        return Err(NetworkFault::ProgramChanged);
    }
    if is_too_long(purpose, pmt) {
        return Err(NetworkFault::PmtTooLong);
    }
    if known.is_none() {
        *known = Some(KnownProgram {
            streams,
            pcr_pid: pmt.pcr_pid(),
        });
    }
    Ok(())
}

/// A PID of the map is one that it may not have.
fn has_bad_pids(pmt: &Pmt<'_>, pmt_pid: Pid) -> bool
    ensures { result ≡ has_bad_pids pmt_pid (map_of pmt.now.bytes.now) }
{
    is_bad_pid(pmt_pid, pmt.pcr_pid())
        || lists_bad_pid(pmt_pid, pmt.entries())
        || switches_bad_pid(pmt.entries())
}

/// No entry and no clock may have this PID.
fn is_bad_pid(pmt_pid: Pid, pid: Pid) -> bool
    ensures { result ≡ bad_pid pmt_pid pid }
{
    pid.get() == 0 || pid.get() == pmt_pid.get()
}

/// An entry has a PID that none may have.
#[tactic(auto, using(crate::proofs::JudgingLemmas::found_listed, crate::proofs::JudgingLemmas::passed_listed))]
fn lists_bad_pid(pmt_pid: Pid, entries: Entries<'_>) -> bool
    ensures { result ≡ list_any (bad_pid pmt_pid) (pids_in (streams_left entries.entry)) }
{
    for stream in entries {
        if is_bad_pid(pmt_pid, stream.pid) {
            return true;
        }
    }
    false
}

/// A switched stream has the PID of null packets, or one that stands twice.
#[tactic(auto, using(crate::proofs::JudgingLemmas::found_switched, crate::proofs::JudgingLemmas::other_switched, crate::proofs::JudgingLemmas::passed_switched))]
fn switches_bad_pid(entries: Entries<'_>) -> bool
    ensures { result ≡ switches_bad_pid (streams_left entries.entry) }
{
    for stream in entries {
        if is_switched_kind(stream.kind)
            && (stream.pid.get() == 0x1FFF || is_twice(entries, stream.pid))
        {
            return true;
        }
    }
    false
}

/// The PID stands in the entries more than once.
#[tactic(auto, using(crate::proofs::JudgingLemmas::found_twice, crate::proofs::JudgingLemmas::found_once, crate::proofs::JudgingLemmas::not_found, crate::proofs::JudgingLemmas::none_twice))]
fn is_twice(entries: Entries<'_>, pid: Pid) -> bool
    ensures { result ≡ is_twice pid (pids_in (streams_left entries.entry)) }
{
    let mut is_found = false;
    for stream in entries {
        if stream.pid.get() == pid.get() {
            if is_found {
                return true;
            }
            is_found = true;
        }
    }
    false
}

/// The PID of the cues is used for something else.
#[tactic(auto, using(crate::proofs::JudgingLemmas::no_cue_used))]
fn uses_cue_pid(purpose: &Purpose, pmt: &Pmt<'_>) -> bool
    ensures { result ≡ uses_cue_pid purpose.now (map_of pmt.now.bytes.now) }
{
    let Some(cue) = purpose.cue_pid else {
        return false;
    };
    if pmt.pcr_pid().get() == cue.get() {
        return true;
    }
    if purpose.writes_cues {
        lists_pid(cue, pmt.entries())
    } else {
        switches_pid(cue, pmt.entries())
    }
}

/// An entry has the PID.
#[tactic(auto, using(crate::proofs::JudgingLemmas::found_listed, crate::proofs::JudgingLemmas::passed_listed))]
fn lists_pid(pid: Pid, entries: Entries<'_>) -> bool
    ensures { result ≡ list_any (is_pid (Some pid)) (pids_in (streams_left entries.entry)) }
{
    for stream in entries {
        if stream.pid.get() == pid.get() {
            return true;
        }
    }
    false
}

/// A switched stream has the PID.
#[tactic(auto, using(crate::proofs::JudgingLemmas::found_switched, crate::proofs::JudgingLemmas::other_switched, crate::proofs::JudgingLemmas::passed_switched))]
fn switches_pid(pid: Pid, entries: Entries<'_>) -> bool
    ensures { result ≡ list_any (is_pid (Some pid)) (pids_in (switched_of (streams_left entries.entry))) }
{
    for stream in entries {
        if is_switched_kind(stream.kind) && stream.pid.get() == pid.get() {
            return true;
        }
    }
    false
}

/// These are other streams than those that are known, or another PCR PID.
fn is_changed(known: &Option<KnownProgram>, streams: &[Stream], pcr_pid: Pid) -> bool
    ensures { result ≡ changed_by (known_seen known.now) streams.now pcr_pid }
{
    match known {
        None => false,
        Some(program) => !(are_same(streams, program.streams.as_slice())
            && pcr_pid.get() == program.pcr_pid.get()),
    }
}

/// The streams are the same, in the same order.
fn are_same(streams: &[Stream], others: &[Stream]) -> bool
    ensures { result ≡ same_streams streams.now others.now }
{
    streams == others
}

/// The map has no room for the entry of the cues that are to be written.
fn is_too_long(purpose: &Purpose, pmt: &Pmt<'_>) -> bool
    ensures { result ≡ (purpose.now.writes_cues && too_long purpose.now.cue_pid (map_of pmt.now.bytes.now)) }
{
    let Some(cue) = purpose.cue_pid else {
        return false;
    };
    purpose.writes_cues && add_cue(pmt, cue).is_err()
}
