//! The subcommand `inspect`: a stream is read to its end, whatever its bytes are, and what is known of it is printed.

ghost use Rattle.std.specs.Prelude.{◌≡◌};

use chain_engine::RunFault;
use command_lines::inspect_options::InspectOptions;
use packet_recovery::RecoveringReader;
use passages::fault::ProgramFault;
use passages::running::{BUFFER_SIZE, out_of_memory, stopped, unopened};
use passages::tell::{Side, Stopped};
use run_ends::{Attended, Unopened, open_input};
use std::alloc::{AllocError, Global};
use std::io::{self, BufReader, ErrorKind, Read, Write};
use std::rt::Files;
use stream_facts::{Damage, Facts, Inspection, PlainPackets};
use stream_pages::{object_of, write_page};
use ts_packet::{Buffered, Packet, ReadFault, Source};

/// Why a stream was not read to its end.
#[derive(Clone, Copy, Debug, PartialEq, Eq, Drop)]
enum Unread {
    /// The device failed.
    Device(ReadFault),
    /// The allocator refused memory.
    OutOfMemory,
}

/// What of the stream that was read so far is no packet, or none that can be read.
fn damage_of<S: Source>(packets: &RecoveringReader<'_, S>) -> Damage
    ensures { result ≡ record { skipped = packets.now.skipped; mended = packets.now.mended } }
{
    Damage {
        skipped: packets.skipped(),
        mended: packets.mended(),
    }
}

/// Looks at all packets, and answers what is none of them.
fn look_at_all<S: Source>(
    inspection: &mut Inspection,
    packets: &mut RecoveringReader<'_, S>,
) -> Result<Damage, Unread> {
    let mut packet = Packet::null();
    for _ in 0..u64::MAX {
        match packets.read_into(&mut packet) {
            Ok(true) => {}
            Ok(false) => return Ok(damage_of(packets)),
            Err(fault) => return Err(Unread::Device(fault)),
        }
        if inspection.feed(&packet, damage_of(packets)).is_err() {
            return Err(Unread::OutOfMemory);
        }
    }
    Ok(damage_of(packets))
}

/// Reads a stream, and answers what is known of it.
fn inspect<R: Read + Drop>(
    alloc: Global,
    options: &InspectOptions<'_>,
    input: R,
) -> Result<Facts, Stopped> {
    let Ok(mut inspection) = Inspection::new(alloc, options.program) else {
        return Err(out_of_memory());
    };
    let Ok(plain) = PlainPackets::new(alloc, Attended::new(input)) else {
        return Err(out_of_memory());
    };
    let Ok(reader) = BufReader::with_capacity(alloc, BUFFER_SIZE, plain) else {
        return Err(out_of_memory());
    };
    let mut source = Buffered::new(reader);
    let mut packets = RecoveringReader::new(&mut source);
    let looked = look_at_all(&mut inspection, &mut packets);
    let plain = source.into_inner().into_inner();
    let size = plain.size();
    match looked {
        Ok(damage) => match inspection.finish(size, damage) {
            Ok(facts) => Ok(facts),
            Err(AllocError) => Err(out_of_memory()),
        },
        Err(Unread::OutOfMemory) => Err(out_of_memory()),
        Err(Unread::Device(fault)) => {
            let reason = plain.into_inner().into_reason();
            Err(stopped(
                ProgramFault::Run(RunFault::Read(fault)),
                Side::Reading,
                reason,
            ))
        }
    }
}

/// Prints the facts as the options ask for them.
fn print<O: Write>(
    alloc: Global,
    options: &InspectOptions<'_>,
    facts: &Facts,
    output: &mut O,
) -> io::Result<()> {
    if options.is_json {
        let object = object_of(alloc, facts, options.has_points)?;
        let text = object.to_string(alloc)?;
        writeln!(output, "{text}")?;
    } else {
        write_page(alloc, output, facts, options.has_points)?;
    }
    output.flush()
}

/// Runs the subcommand `inspect`, and answers how many packets were read.
///
/// # Errors
///
/// `File` where the file could not be opened, `OutOfMemory` where the allocator refused memory, `Run` where the input failed, `Print` where the
/// output did.
pub fn run_inspect_command<R, I, O>(
    rt: &R,
    options: &InspectOptions<'_>,
    input: &mut I,
    output: &mut O,
) -> Result<u64, Stopped>
where
    R: Files + AllocGlobal,
    I: Read,
    O: Write,
{
    let alloc = rt.alloc();
    let facts = match options.input.path() {
        None => inspect(alloc, options, input)?,
        Some(path) => match open_input(rt, path) {
            Ok((file, _)) => inspect(alloc, options, file)?,
            Err(reason) => return Err(unopened(Unopened::Input(reason))),
        },
    };
    match print(alloc, options, &facts, output) {
        Ok(()) => Ok(facts.packets),
        Err(reason) if reason.kind() == ErrorKind::OutOfMemory => Err(out_of_memory()),
        Err(reason) => Err(stopped(ProgramFault::Print, Side::Printing, Some(reason))),
    }
}
