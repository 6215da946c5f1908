//! The subcommand `plan`: breaks planned for a network, and the script by which `run` makes them.

ghost use Rattle.std.specs.Prelude.{◌≡◌, ◌≤◌, ℕ, [], false, IfOk, IfErr, OnOk, IfSome, IsSome};
ghost use Rattle.break_timelines.specs.Standing.{ReaderStandsFor};
ghost use Rattle.run_ends.specs.Ends.{path_of};
ghost use Rattle.dpi_program.specs.Planning.{AreBreaksOf, AreBreaksAt, HasFed, IsTimelineBy, IsTimelineAt};
ghost use Rattle.dpi_program.specs.Planning.{IsScriptWritten, PlansFor, PlansBetween};

use crate::ends::{Outputs, RunFiles, make_output};
use crate::splicing::open_library;
use ad_library::AdLibrary;
use break_lists::{BreaksFault, NumberedLine, RefusedLine, read_breaks};
use break_plans::{Plan, Setting, Told, plan};
use break_scripts::{PlacedRequest, script_of};
use break_timelines::{Timeline, TimelineFault, TimelineReader};
use chain_engine::RunFault;
use command_lines::plan_options::PlanOptions;
use command_lines::refusals::{DONE, report};
use passages::fault::{ProgramFault, fault_name};
use psi_tables::{FeedFault, NetworkFault};
use run_ends::End;
use std::alloc::Global;
use std::fmt;
use std::fs::Metadata;
use std::io::{BufReader, Read, Write};
use ts_packet::{Device, DeviceFault, Packet, PacketReader, Pid, Source};

/// The most reads of a list.
const READS: u64 = 1 << 32;

/// How many bytes of a list are read at a time.
const ROOM: usize = 4_096;

/// How many bytes of a network are read at a time.
const BUFFER: usize = 262_144;

/// A packet of the network that shows what is wrong with its program.
#[derive(Clone, Copy, Debug, PartialEq, Eq)]
struct FaultyPacket {
    fault: NetworkFault,
    /// How many packets stand before it.
    number: u64,
    pid: Pid,
}

impl fmt::Display for FaultyPacket {
    fn fmt<W: fmt::Write>(&self, f: &mut fmt::Formatter<W>) -> fmt::Result {
        let number = self.number;
        let byte = number.saturating_mul(188);
        let pid = self.pid.get();
        write!(
            f,
            "packet {number}, byte {byte}, PID {pid} (0x{pid:04X}): plan for the part before it; run --on-air goes on behind it"
        )
    }
}

/// Why no plan was made.
#[derive(Clone, Copy, Debug, PartialEq, Eq)]
enum PlanFault {
    /// What any run may come to.
    Program(ProgramFault),
    /// The program of the network is not as it is to be.
    Network(FaultyPacket),
    /// A line of the list of breaks plans nothing.
    Line(RefusedLine),
    /// The list has more than 2^32 parts.
    Turns,
    /// The program has no video of which the chain knows the pictures.
    NoVideo,
    /// The program has no time.
    NoTime,
    /// A list could not be read on.
    Io,
}

/// Memory was refused.
const NO_MEMORY: PlanFault = PlanFault::Program(ProgramFault::OutOfMemory);

/// The bytes that a reader gives, to their end.
fn read_all<S: Source>(alloc: Global, source: &mut S) -> Result<Vec<u8>, PlanFault>
    ensures { IfOk result (λ bytes. IfSome (S.remaining source.old) (λ bs. bs ≡ bytes.items)) }
{
    let mut bytes = Vec::new(alloc);
    let mut room = [0; ROOM];
    for _turn in 0..READS {
        match source.read(&mut room) {
            Ok(0) => return Ok(bytes),
            Ok(count) => {
                if bytes.extend_from_slice(&room[..count]).is_err() {
                    return Err(NO_MEMORY);
                }
            }
            Err(DeviceFault::Interrupted) => {}
            Err(DeviceFault::Failed) => return Err(PlanFault::Io),
        }
    }
    Err(PlanFault::Turns)
}

/// The list of breaks that a reader gives.
fn breaks_from<R: Read + Drop>(alloc: Global, reader: R) -> Result<Vec<NumberedLine>, PlanFault>
    ensures { IfOk result (λ lines. AreBreaksOf lines.items (R.remaining reader)) }
{
    let mut source = Device::new(reader);
    let text = read_all(alloc, &mut source)?;
    match read_breaks(alloc, text.as_slice()) {
        Ok(lines) => Ok(lines),
        Err(BreaksFault::Line(line)) => Err(PlanFault::Line(line)),
        Err(BreaksFault::OutOfMemory) => Err(NO_MEMORY),
    }
}

/// The list of breaks that the options name.
fn open_breaks<R: RunFiles + AllocGlobal, I: Read>(
    rt: &R,
    breaks: End<'_>,
    input: &mut I,
) -> Result<(Vec<NumberedLine>, Option<Metadata>), PlanFault>
    ensures read { IfOk result (λ opened. AreBreaksAt R.reads_at R.File.Read.remaining breaks.entry (I.remaining input.old) opened.0.items
        opened.1) }
    ensures unread { IsSome (path_of breaks.entry) → input.new ≡ input.old }
{
    let Some(path) = breaks.path() else {
        return Ok((breaks_from(rt.alloc(), input)?, None));
    };
    match rt.open_at(path) {
        Ok((file, about)) => Ok((breaks_from(rt.alloc(), file)?, Some(about))),
        Err(_) => Err(PlanFault::Program(ProgramFault::File)),
    }
}

/// Feeds a timeline all packets that a reader gives.
fn feed_all<S: Source>(
    packets: &mut PacketReader<'_, S>,
    timeline: &mut TimelineReader,
) -> Result<(), PlanFault>
    requires { packets.old.is_broken ≡ false }
    ensures { (program : ℕ) → ReaderStandsFor timeline.old program [] → OnOk result (HasFed timeline.new program
        (S.remaining packets.old.source.now)) }
{
    let mut packet = Packet::null();
    for number in 0..u64::MAX {
        match packets.read_into(&mut packet) {
            Ok(true) => {}
            Ok(false) => return Ok(()),
            Err(fault) => return Err(PlanFault::Program(ProgramFault::Run(RunFault::Read(fault)))),
        }
        match timeline.feed(&packet) {
            Ok(()) => {}
            Err(TimelineFault::Network(fault)) => {
                return Err(PlanFault::Network(FaultyPacket {
                    fault,
                    number,
                    pid: packet.pid(),
                }));
            }
            Err(TimelineFault::Long) => return Err(PlanFault::Turns),
            Err(TimelineFault::OutOfMemory) => return Err(NO_MEMORY),
        }
    }
    Ok(())
}

/// The pictures of the network that a reader gives.
fn timeline_from<R: Read + Drop>(
    alloc: Global,
    reader: R,
    program: u16,
) -> Result<Timeline, PlanFault>
    ensures { IfOk result (λ timeline. IsTimelineBy timeline program (R.remaining reader)) }
{
    let Ok(reader) = BufReader::with_capacity(alloc, BUFFER, reader) else {
        return Err(NO_MEMORY);
    };
    let mut device = Device::new(reader);
    let mut packets = PacketReader::new(&mut device);
    let mut timeline = TimelineReader::new(alloc, program);
    feed_all(&mut packets, &mut timeline)?;
    match timeline.finish() {
        Ok(timeline) => Ok(timeline),
        Err(_) => Err(NO_MEMORY),
    }
}

/// The pictures of the network that the options name.
fn open_timeline<R: RunFiles + AllocGlobal, I: Read>(
    rt: &R,
    options: &PlanOptions<'_>,
    input: &mut I,
) -> Result<(Timeline, Option<Metadata>), PlanFault>
    ensures { IfOk result (λ opened. IsTimelineAt R.reads_at R.File.Read.remaining options.now.network (I.remaining input.old) opened.0
        options.now.program opened.1) }
{
    let Some(path) = options.network.path() else {
        return Ok((timeline_from(rt.alloc(), input, options.program)?, None));
    };
    match rt.open_at(path) {
        Ok((file, about)) => Ok((
            timeline_from(rt.alloc(), file, options.program)?,
            Some(about),
        )),
        Err(_) => Err(PlanFault::Program(ProgramFault::File)),
    }
}

/// What the system says of the inputs that are files: none of them may be the script.
#[derive(Drop)]
struct Inputs {
    network: Option<Metadata>,
    adverts: Option<Metadata>,
    breaks: Option<Metadata>,
}

/// Writes the script of these requests to the file that the options name.
fn write_script<R: RunFiles + AllocGlobal>(
    rt: &R,
    options: &PlanOptions<'_>,
    requests: &[PlacedRequest],
    inputs: &Inputs,
) -> Result<(), PlanFault>
    ensures { OnOk result (IsScriptWritten R.makes_at R.File.Write.contents options.now inputs.now requests.now) }
{
    let Ok(script) = script_of(rt.alloc(), requests, options.index) else {
        return Err(NO_MEMORY);
    };
    let (network, breaks) = (inputs.network.as_ref(), inputs.breaks.as_ref());
    let adverts = inputs.adverts.as_ref();
    let Ok(mut file) = make_output(rt, options.script, &[network, breaks, adverts]) else {
        return Err(PlanFault::Program(ProgramFault::File));
    };
    if file.write_all(script.as_slice()).is_err() {
        return Err(PlanFault::Io);
    }
    match file.flush() {
        Ok(()) => Ok(()),
        Err(_) => Err(PlanFault::Io),
    }
}

/// Tells each line of a plan, whose times count from this one.
fn tell_lines<O: Write>(planned: &Plan, first: u64, output: &mut O) -> Result<(), PlanFault>
    ensures { IfErr result (λ fault. fault ≡ PlanFault.Program ProgramFault.Print) }
{
    for (place, line) in planned.lines.iter().enumerate() {
        let verdict = planned.verdict(place);
        let told = Told {
            line,
            verdict,
            first,
        };
        if writeln!(output, "{told}").is_err() {
            return Err(PlanFault::Program(ProgramFault::Print));
        }
    }
    match output.flush() {
        Ok(()) => Ok(()),
        Err(_) => Err(PlanFault::Program(ProgramFault::Print)),
    }
}

/// Writes the script of a plan, and then tells each of its lines.
fn write_plan<R: RunFiles + AllocGlobal, O: Write>(
    rt: &R,
    options: &PlanOptions<'_>,
    planned: &Plan,
    first: u64,
    inputs: &Inputs,
    output: &mut O,
) -> Result<(), PlanFault>
    ensures { OnOk result (IsScriptWritten R.makes_at R.File.Write.contents options.now inputs.now planned.now.requests.items) }
{
    write_script(rt, options, planned.requests.as_slice(), inputs)?;
    tell_lines(planned, first, output)
}

/// Plans the breaks of a list for a network whose pictures are known.
fn plan_for<R: RunFiles + AllocGlobal, O: Write>(
    rt: &R,
    options: &PlanOptions<'_>,
    timeline: &Timeline,
    library: &AdLibrary,
    list: &[NumberedLine],
    inputs: &Inputs,
    output: &mut O,
) -> Result<(), PlanFault>
    ensures { OnOk result (PlansFor R.makes_at R.File.Write.contents options.now inputs.now timeline.now library.now list.now) }
{
    if !timeline.has_video() {
        return Err(PlanFault::NoVideo);
    }
    let Some(first) = timeline.first() else {
        return Err(PlanFault::NoTime);
    };
    let setting = Setting {
        pictures: timeline.pictures(),
        marks: timeline.marks(),
        streams: timeline.streams(),
        first,
        library,
        index: options.index,
    };
    match plan(rt.alloc(), &setting, list) {
        Ok(planned) => write_plan(rt, options, &planned, first, inputs, output),
        Err(_) => Err(NO_MEMORY),
    }
}

/// Plans, between the ends that the options name.
fn plan_ends<R: RunFiles + AllocGlobal, I: Read, O: Write>(
    rt: &R,
    options: &PlanOptions<'_>,
    input: &mut I,
    output: &mut O,
) -> Result<(), PlanFault>
    ensures { OnOk result (PlansBetween R.reads_at R.makes_at R.File.Read.remaining R.File.Write.contents options.now
        (I.remaining input.old)) }
{
    let (list, breaks) = open_breaks(rt, options.breaks, input)?;
    let outputs = Outputs {
        output: options.script,
        events: End::Lines,
    };
    let (library, adverts) = match open_library(rt, options.adverts, outputs, input) {
        Ok(opened) => opened,
        Err(stopped) => return Err(PlanFault::Program(stopped.fault)),
    };
    let (timeline, network) = open_timeline(rt, options, input)?;
    let inputs = Inputs {
        network,
        adverts,
        breaks,
    };
    plan_for(
        rt,
        options,
        &timeline,
        &library,
        list.as_slice(),
        &inputs,
        output,
    )
}

/// Tells what planning came to, and answers the exit status.
fn tell_plan<E: Write>(planned: Result<(), PlanFault>, faults: &mut E) -> u8
    ensures status { result ≤ 1 }
    ensures stopped { IfErr planned (λ _. result ≡ 1) }
    ensures silent { IfOk planned (λ _. faults.new ≡ faults.old) }
{
    match planned {
        Ok(()) => DONE,
        Err(PlanFault::Program(fault)) => report(faults, fault_name(fault)),
        Err(PlanFault::Network(faulty)) => {
            let fault = RunFault::Feed(FeedFault::Network(faulty.fault));
            let status = report(faults, fault_name(ProgramFault::Run(fault)));
            let _ = writeln!(faults, "{faulty}");
            status
        }
        Err(PlanFault::Line(line)) => {
            let status = report(faults, "BadBreaks");
            let _ = writeln!(faults, "{line}");
            status
        }
        Err(PlanFault::Turns) => report(faults, "Turns"),
        Err(PlanFault::NoVideo) => report(faults, "NoVideo"),
        Err(PlanFault::NoTime) => report(faults, "NoTime"),
        Err(PlanFault::Io) => report(faults, "Io"),
    }
}

/// Runs the subcommand `plan`, and answers the exit status: the list of breaks is read first, then that of the advertisements with their
/// streams, then the network; then the script is written, and each line told on `output`. A line of the list that plans nothing is
/// told on `faults` behind the fault, by its number and what was expected; and so is the packet that shows what is wrong with the program of
/// the network.
pub fn run_plan_command<R, I, O, E>(
    rt: &R,
    options: &PlanOptions<'_>,
    input: &mut I,
    output: &mut O,
    faults: &mut E,
) -> u8
where
    R: RunFiles + AllocGlobal,
    I: Read,
    O: Write,
    E: Write,
    ensures status { result ≤ 1 }
    ensures planned { result ≡ 0 → PlansBetween R.reads_at R.makes_at R.File.Read.remaining R.File.Write.contents options.now
        (I.remaining input.old) }
    ensures silent { result ≡ 0 → faults.new ≡ faults.old }
{
    let planned = plan_ends(rt, options, input, output);
    tell_plan(planned, faults)
}
