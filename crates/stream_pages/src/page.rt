//! The page for people.

use crate::distance::{first_time, greatest_distance};
use crate::names::{
    CHOOSE, advice, command_name, descriptor_name, fault_name, mark_name, stream_name,
};
use codec_text::{CueFaultText, CueText};
use pes_time::Time33;
use random_access::Point;
use scte35_codec::Cue;
use std::alloc::Global;
use std::fmt;
use std::io::{self, Write};
use stream_facts::{
    CueFacts, Facts, Profile, ProgramFacts, StreamFacts, command_of, descriptors_of, signal_time,
};
use ts_packet::Pid;

/// A PID in decimal and hexadecimal.
#[derive(Clone, Copy)]
struct PidText(Pid);

impl fmt::Display for PidText {
    fn fmt<W: fmt::Write>(&self, f: &mut fmt::Formatter<W>) -> fmt::Result {
        let number = self.0.get();
        write!(f, "{number} (0x{number:04x})")
    }
}

/// Thousandths, with a point before the last three digits.
#[derive(Clone, Copy)]
struct Thousandths(u64);

impl fmt::Display for Thousandths {
    fn fmt<W: fmt::Write>(&self, f: &mut fmt::Formatter<W>) -> fmt::Result {
        let whole = self.0 / 1000;
        let part = self.0 % 1000;
        write!(f, "{whole}.{part:03}")
    }
}

/// Ticks of 90 kHz as seconds.
#[derive(Clone, Copy)]
struct Seconds(i64);

impl fmt::Display for Seconds {
    fn fmt<W: fmt::Write>(&self, f: &mut fmt::Formatter<W>) -> fmt::Result {
        let seconds = Thousandths(self.0.unsigned_abs() / 90);
        if self.0 < 0 {
            write!(f, "-{seconds} s")
        } else {
            write!(f, "{seconds} s")
        }
    }
}

/// Writes the page; the random access points too, where they are asked for.
///
/// # Errors
///
/// What the output answered, or that the allocator refused memory.
pub fn write_page<W: Write>(
    alloc: Global,
    out: &mut W,
    facts: &Facts,
    points: bool,
) -> io::Result<()> {
    write_counts(out, facts)?;
    for program in &facts.programs {
        write_program(out, program, points)?;
    }
    write_cues(alloc, out, facts)?;
    write_free(out, facts)?;
    write_profile(out, facts.profile)
}

/// Packets, null packets and bit rates.
fn write_counts<W: Write>(out: &mut W, facts: &Facts) -> io::Result<()> {
    let size = facts.packet_size.bytes();
    let packets = facts.packets;
    let skipped = facts.damage.skipped;
    let mended = facts.damage.mended;
    let nulls = facts.null_packets;
    let share = if packets == 0 {
        Thousandths(0)
    } else {
        Thousandths(nulls.saturating_mul(100_000) / packets)
    };
    writeln!(out, "packets: {packets} of {size} bytes")?;
    writeln!(
        out,
        "skipped bytes: {skipped}, packets taken as damaged: {mended}"
    )?;
    writeln!(out, "null packets: {nulls} ({share} %)")?;
    match facts.bit_rate {
        None => writeln!(out, "bit rate by PCR: unknown")?,
        Some(rate) => writeln!(out, "bit rate by PCR: {rate} bit/s")?,
    }
    match facts.file_bit_rate {
        None => Ok(()),
        Some(rate) => writeln!(
            out,
            "all bytes over the time from the first PCR to the last: {rate} bit/s"
        ),
    }
}

/// A program and its streams.
fn write_program<W: Write>(out: &mut W, program: &ProgramFacts, points: bool) -> io::Result<()> {
    let number = program.number;
    write!(out, "program {number}")?;
    match &program.service_name {
        Some(name) if !name.is_empty() => write!(out, ", {name}")?,
        _ => {}
    }
    let pmt_pid = PidText(program.pmt_pid);
    write!(out, ": PMT PID {pmt_pid}")?;
    match program.pcr_pid {
        None => writeln!(out, ", no map was read")?,
        Some(pid) => {
            let pid = PidText(pid);
            writeln!(out, ", PCR PID {pid}")?;
        }
    }
    for stream in &program.streams {
        write_stream(out, stream)?;
        if points {
            write_points(out, program, stream)?;
        }
    }
    Ok(())
}

/// A stream, in a line.
fn write_stream<W: Write>(out: &mut W, stream: &StreamFacts) -> io::Result<()> {
    write_kind(out, stream)?;
    write_language(out, stream)?;
    let way = way_of(stream);
    write!(out, "; {way}")?;
    write_units(out, stream)?;
    write_distance(out, stream)
}

/// What a break does to a stream. One with time stamps that is not switched may well be sound, as AC-3 that the map lists as private data
/// with a descriptor (ETSI EN 300 468, annex D).
fn way_of(stream: &StreamFacts) -> &'static str {
    match (stream.switched, stream.first_pts) {
        (true, _) => "switched",
        (false, None) => "not switched",
        (false, Some(_)) => "not switched: it goes on through a break",
    }
}

/// The PID and the type of a stream.
fn write_kind<W: Write>(out: &mut W, stream: &StreamFacts) -> io::Result<()> {
    let pid = PidText(stream.pid);
    let kind = stream.stream_type;
    let name = stream_name(kind, stream.private_audio);
    write!(out, "  PID {pid}: stream_type 0x{kind:02x}, {name}")
}

/// The language of a stream, where it has one.
fn write_language<W: Write>(out: &mut W, stream: &StreamFacts) -> io::Result<()> {
    match stream.language {
        None => Ok(()),
        Some(code) => {
            let first = letter(code[0]);
            let second = letter(code[1]);
            let third = letter(code[2]);
            write!(out, ", language {first}{second}{third}")
        }
    }
}

/// The units of a stream, with their first and last time stamp.
fn write_units<W: Write>(out: &mut W, stream: &StreamFacts) -> io::Result<()> {
    let units = stream.units;
    write!(out, "; units: {units}")?;
    match (stream.first_pts, stream.last_pts) {
        (Some(first), Some(last)) => {
            let way = Seconds(last.signed_from(first));
            let first = first.ticks();
            let last = last.ticks();
            write!(out, "; time stamps: {first} to {last}, {way}")
        }
        _ => Ok(()),
    }
}

/// How many random access points a stream has, and how far they lie apart at most.
fn write_distance<W: Write>(out: &mut W, stream: &StreamFacts) -> io::Result<()> {
    let count = stream.points.len();
    write!(out, "; random access points: {count}")?;
    match greatest_distance(&stream.points) {
        None => writeln!(out),
        Some(ticks) => {
            let seconds = Thousandths(ticks / 90);
            writeln!(out, ", {seconds} s apart at most")
        }
    }
}

/// A letter of a language's code, or a question mark where the byte is none.
fn letter(byte: u8) -> char {
    match byte {
        b'a'..=b'z' | b'A'..=b'Z' => byte as char,
        _ => '?',
    }
}

/// The random access points of a stream, a line for each.
fn write_points<W: Write>(
    out: &mut W,
    program: &ProgramFacts,
    stream: &StreamFacts,
) -> io::Result<()> {
    for point in &stream.points {
        write_point(out, point, first_time(program))?;
    }
    Ok(())
}

/// A random access point, in a line.
fn write_point<W: Write>(out: &mut W, point: &Point, first: Option<Time33>) -> io::Result<()> {
    let packet = point.packet;
    write!(out, "    packet {packet}")?;
    match point.pts {
        None => {}
        Some(pts) => write_time(out, pts, first)?,
    }
    let by = mark_name(point.by);
    writeln!(out, ", {by}")
}

/// A time stamp, and how long it is behind the first one of the program's switched streams.
fn write_time<W: Write>(out: &mut W, pts: Time33, first: Option<Time33>) -> io::Result<()> {
    let ticks = pts.ticks();
    write!(out, ", time stamp {ticks}")?;
    match first {
        None => Ok(()),
        Some(first) => {
            let way = Seconds(pts.signed_from(first));
            write!(out, ", at {way}")
        }
    }
}

/// The cues.
fn write_cues<W: Write>(alloc: Global, out: &mut W, facts: &Facts) -> io::Result<()> {
    if facts.cues.is_empty() {
        return writeln!(out, "cues: none");
    }
    writeln!(out, "cues:")?;
    for cue in &facts.cues {
        let packet = cue.packet;
        let pid = PidText(cue.pid);
        write!(out, "  packet {packet}, PID {pid}: ")?;
        write_cue(out, cue)?;
        write_descriptors(alloc, out, cue)?;
        writeln!(out)?;
    }
    Ok(())
}

/// What a cue says: its fields where its command is read, else its command, and the time of a time_signal.
fn write_cue<W: Write>(out: &mut W, cue: &CueFacts) -> io::Result<()> {
    let section = cue.section.as_slice();
    match (scte35_codec::read(section), command_of(section)) {
        (Ok(Cue::Other), Some(command)) => {
            let name = command_name(command);
            write!(out, "{name}")?;
            match signal_time(section) {
                None => Ok(()),
                Some(time) => {
                    let ticks = time.ticks();
                    write!(out, " time={ticks}")
                }
            }
        }
        (Ok(cue), _) => {
            let text = CueText(cue);
            write!(out, "{text}")
        }
        (Err(fault), _) => {
            let text = CueFaultText(fault);
            write!(out, "{text}")
        }
    }
}

/// The descriptors of a cue, by name.
fn write_descriptors<W: Write>(alloc: Global, out: &mut W, cue: &CueFacts) -> io::Result<()> {
    for descriptor in descriptors_of(alloc, cue.section.as_slice())? {
        let name = descriptor_name(descriptor);
        write!(out, " {name}")?;
    }
    Ok(())
}

/// The PIDs that are free.
fn write_free<W: Write>(out: &mut W, facts: &Facts) -> io::Result<()> {
    write!(out, "PIDs free for cues:")?;
    for pid in &facts.free_pids {
        let pid = PidText(*pid);
        write!(out, " {pid}")?;
    }
    writeln!(out)
}

/// Whether the chain takes the stream.
fn write_profile<W: Write>(out: &mut W, profile: Profile) -> io::Result<()> {
    match profile {
        Profile::Taken => writeln!(out, "profile: yes"),
        Profile::Faulty(fault) => {
            let packet = fault.packet;
            let name = fault_name(fault.wrong);
            let advice = advice(fault.wrong);
            writeln!(out, "profile: no, {name} at packet {packet} ({advice})")
        }
        Profile::NoProgram => writeln!(out, "profile: no, NoProgram ({CHOOSE})"),
    }
}
