//! The programs of a stream and what is known of their streams.

ghost use Rattle.std.specs.Prelude.{◌≡◌, All, IfOk, true, filter};
ghost use Rattle.stream_facts.specs.Facts.{AreStreamsOf, IsStreamOf, is_told_program};
ghost use Rattle.stream_facts.specs.Pids.{OfPidsKnown};

use crate::facts::{ProgramFacts, StreamFacts};
use crate::inspection::is_told;
use crate::pid_facts::PidTable;
use crate::tables::{Listing, TableSet};
use psi_tables::{Pmt, Stream, is_switched_kind};
use random_access::VideoCoding;
use service_names::text_of;
use std::alloc::{AllocError, Global};
use table_descriptors::{language_of, private_audio_of};

/// The programs, in the order in which the stream lists them.
///
/// # Errors
///
/// Where the allocator refused memory.
pub(crate) fn programs(
    alloc: Global,
    tables: &TableSet,
    pids: &PidTable,
) -> Result<Vec<ProgramFacts>, AllocError>
    ensures { OfPidsKnown pids.now (λ past. IfOk result (λ v. All (AreStreamsOf past) v.items)) }
{
    let mut programs = Vec::new(alloc);
    for listing in tables.listings() {
        let program = program(alloc, tables, pids, listing)?;
        programs.push(program)?;
    }
    Ok(programs)
}

/// What is known of a program.
fn program(
    alloc: Global,
    tables: &TableSet,
    pids: &PidTable,
    listing: &Listing,
) -> Result<ProgramFacts, AllocError>
    ensures { OfPidsKnown pids.now (λ past. IfOk result (AreStreamsOf past)) }
{
    let service_name = match tables.name(listing.number) {
        None => None,
        Some(name) => Some(text_of(alloc, name)?),
    };
    let map = listing.map();
    let pcr_pid = map.map(|map| map.pcr_pid());
    let streams = streams(alloc, pids, map)?;
    Ok(ProgramFacts {
        number: listing.number,
        service_name,
        pmt_pid: listing.pmt_pid,
        pcr_pid,
        streams,
    })
}

/// What is known of the streams of a map, where there is one.
fn streams(
    alloc: Global,
    pids: &PidTable,
    map: Option<Pmt<'_>>,
) -> Result<Vec<StreamFacts>, AllocError>
    ensures { OfPidsKnown pids.now (λ past. IfOk result (λ v. All (IsStreamOf past) v.items)) }
{
    let mut streams = Vec::new(alloc);
    let Some(map) = map else {
        return Ok(streams);
    };
    for stream in map.entries() {
        let facts = stream_facts(alloc, pids, &map, stream)?;
        streams.push(facts)?;
    }
    Ok(streams)
}

/// What is known of a stream that a map lists.
fn stream_facts(
    alloc: Global,
    pids: &PidTable,
    map: &Pmt<'_>,
    stream: Stream,
) -> Result<StreamFacts, AllocError>
    ensures { OfPidsKnown pids.now (λ past. IfOk result (IsStreamOf past)) }
{
    let pid = stream.pid;
    let stream_type = stream.kind;
    let switched = is_switched_kind(stream_type);
    let language = language_of(map, stream.pid);
    let private_audio = private_audio_of(map, stream);
    match pids.get(pid) {
        None => Ok(StreamFacts {
            pid,
            stream_type,
            switched,
            language,
            private_audio,
            units: 0,
            first_pts: None,
            last_pts: None,
            points: Vec::new(alloc),
        }),
        Some(known) => {
            let begins = known.begins();
            Ok(StreamFacts {
                pid,
                stream_type,
                switched,
                language,
                private_audio,
                units: begins.units(),
                first_pts: begins.first_pts(),
                last_pts: begins.last_pts(),
                points: begins.points(alloc, VideoCoding::of_stream_type(stream_type))?,
            })
        }
    }
}

/// Of these programs those that are told.
pub(crate) fn of_number(mut programs: Vec<ProgramFacts>, wanted: Option<u16>) -> Vec<ProgramFacts>
    ensures { result.items ≡ filter (is_told_program wanted) programs.items }
{
    programs.retain(|program| is_told(program.number, wanted));
    programs
}
