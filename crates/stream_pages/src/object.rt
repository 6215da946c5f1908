//! The JSON object.

use crate::names::{CHOOSE, advice, command_name, descriptor_name, fault_name, mark_name};
use codec_text::CueFaultText;
use pes_time::Time33;
use random_access::Point;
use scte35_codec::{Cue, SpliceInsert};
use serde_json::{Value, json};
use std::alloc::{AllocError, Global};
use stream_facts::{
    CueFacts, Facts, Profile, ProgramFacts, StreamFacts, command_of, descriptors_of, signal_time,
};

/// The object of all facts, with the random access points where they are asked for. Time stamps are the 33-bit values of the stream.
///
/// # Errors
///
/// Where the allocator refused memory.
pub fn object_of(alloc: Global, facts: &Facts, points: bool) -> Result<Value, AllocError> {
    let mut programs = Vec::new(alloc);
    for program in &facts.programs {
        let value = program_of(alloc, program, points)?;
        programs.push(value)?;
    }
    let mut cues = Vec::new(alloc);
    for cue in &facts.cues {
        let value = cue_of(alloc, cue)?;
        cues.push(value)?;
    }
    let mut free = Vec::new(alloc);
    for pid in &facts.free_pids {
        free.push(Value::from(pid.get()))?;
    }
    let profile = profile_of(alloc, facts.profile)?;
    let packets = facts.packets;
    let size = facts.packet_size.bytes();
    let skipped = facts.damage.skipped;
    let mended = facts.damage.mended;
    let nulls = facts.null_packets;
    let rate = facts.bit_rate;
    let file_rate = facts.file_bit_rate;
    json!(in alloc; {
        "packet_size": size,
        "packets": packets,
        "skipped_bytes": skipped,
        "mended": mended,
        "null_packets": nulls,
        "bit_rate": rate,
        "file_bit_rate": file_rate,
        "programs": programs,
        "cues": cues,
        "free_pids": free,
        "profile": profile
    })
}

/// A program.
fn program_of(alloc: Global, program: &ProgramFacts, points: bool) -> Result<Value, AllocError> {
    let mut streams = Vec::new(alloc);
    for stream in &program.streams {
        let value = stream_of(alloc, stream, points)?;
        streams.push(value)?;
    }
    let name = match &program.service_name {
        None => Value::Null,
        Some(name) => Value::try_from_str(alloc, name.as_str())?,
    };
    let number = program.number;
    let pmt_pid = program.pmt_pid.get();
    let pcr_pid = program.pcr_pid.map(|pid| pid.get());
    json!(in alloc; {
        "number": number,
        "service_name": name,
        "pmt_pid": pmt_pid,
        "pcr_pid": pcr_pid,
        "streams": streams
    })
}

/// A time stamp.
fn ticks(pts: Option<Time33>) -> Option<u64> {
    match pts {
        None => None,
        Some(pts) => Some(pts.ticks()),
    }
}

/// A stream.
fn stream_of(alloc: Global, stream: &StreamFacts, points: bool) -> Result<Value, AllocError> {
    let pid = stream.pid.get();
    let kind = stream.stream_type;
    let switched = stream.switched;
    let language = language_of(alloc, stream.language)?;
    let units = stream.units;
    let first = ticks(stream.first_pts);
    let last = ticks(stream.last_pts);
    let count = stream.points.len();
    if !points {
        return json!(in alloc; {
            "pid": pid,
            "stream_type": kind,
            "switched": switched,
            "language": language,
            "units": units,
            "first_pts": first,
            "last_pts": last,
            "random_access": count
        });
    }
    let mut listed = Vec::new(alloc);
    for point in &stream.points {
        let value = point_of(alloc, point)?;
        listed.push(value)?;
    }
    json!(in alloc; {
        "pid": pid,
        "stream_type": kind,
        "switched": switched,
        "language": language,
        "units": units,
        "first_pts": first,
        "last_pts": last,
        "random_access": count,
        "points": listed
    })
}

/// A language's code; null where its bytes are no text.
fn language_of(alloc: Global, language: Option<[u8; 3]>) -> Result<Value, AllocError> {
    match language {
        None => Ok(Value::Null),
        Some(code) => match std::str::from_utf8(&code) {
            Ok(text) => Value::try_from_str(alloc, text),
            Err(_) => Ok(Value::Null),
        },
    }
}

/// A random access point.
fn point_of(alloc: Global, point: &Point) -> Result<Value, AllocError> {
    let packet = point.packet;
    let pts = ticks(point.pts);
    let by = mark_name(point.by);
    json!(in alloc; {"packet": packet, "pts": pts, "by": by})
}

/// A cue.
fn cue_of(alloc: Global, cue: &CueFacts) -> Result<Value, AllocError> {
    let packet = cue.packet;
    let pid = cue.pid.get();
    let descriptors = descriptor_names(alloc, cue.section.as_slice())?;
    match scte35_codec::read(cue.section.as_slice()) {
        Err(fault) => {
            let text = CueFaultText(fault);
            let name = format!(in alloc; "{text}")?;
            json!(in alloc; {"packet": packet, "pid": pid, "kind": "fault", "fault": name})
        }
        Ok(Cue::Null) => {
            json!(in alloc; {"packet": packet, "pid": pid, "kind": "null", "descriptors": descriptors})
        }
        Ok(Cue::Other) => {
            let kind = match command_of(cue.section.as_slice()) {
                None => "reserved",
                Some(command) => command_name(command),
            };
            let time = ticks(signal_time(cue.section.as_slice()));
            json!(in alloc; {"packet": packet, "pid": pid, "kind": kind, "time": time, "descriptors": descriptors})
        }
        Ok(Cue::Cancel(event)) => {
            json!(in alloc; {"packet": packet, "pid": pid, "kind": "cancel", "event": event, "descriptors": descriptors})
        }
        Ok(Cue::Insert(insert, _)) => insert_of(alloc, cue, &insert, descriptors),
    }
}

/// The names of a cue's descriptors.
fn descriptor_names(alloc: Global, section: &[u8]) -> Result<Vec<Value>, AllocError> {
    let mut names = Vec::new(alloc);
    for descriptor in descriptors_of(alloc, section)? {
        let name = Value::try_from_str(alloc, descriptor_name(descriptor))?;
        names.push(name)?;
    }
    Ok(names)
}

/// A splice_insert with these descriptors.
fn insert_of(
    alloc: Global,
    cue: &CueFacts,
    insert: &SpliceInsert,
    descriptors: Vec<Value>,
) -> Result<Value, AllocError> {
    let packet = cue.packet;
    let pid = cue.pid.get();
    let event = insert.event;
    let out = insert.out;
    let time = ticks(insert.time);
    let length = insert.length.map(|(_, length)| length.ticks());
    let auto = insert.length.is_some_and(|(auto, _)| auto);
    let program = insert.program;
    let avail = insert.avail;
    let expected = insert.expected;
    json!(in alloc; {
        "packet": packet,
        "pid": pid,
        "kind": "insert",
        "event": event,
        "out": out,
        "time": time,
        "length": length,
        "auto_return": auto,
        "program": program,
        "avail": avail,
        "expected": expected,
        "descriptors": descriptors
    })
}

/// Whether the chain takes the stream.
fn profile_of(alloc: Global, profile: Profile) -> Result<Value, AllocError> {
    match profile {
        Profile::Taken => json!(in alloc; {"taken": true}),
        Profile::Faulty(fault) => {
            let packet = fault.packet;
            let name = fault_name(fault.wrong);
            let advice = advice(fault.wrong);
            json!(in alloc; {"taken": false, "fault": name, "packet": packet, "advice": advice})
        }
        Profile::NoProgram => {
            json!(in alloc; {"taken": false, "fault": "NoProgram", "packet": null, "advice": CHOOSE})
        }
    }
}
