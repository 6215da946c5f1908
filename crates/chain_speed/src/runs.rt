//! A workload run: the library is filed, the script loaded, and the passage run between the made network and a digest.

use crate::digest::{PacketDigest, TextDigest};
use crate::fields::CLOCK;
use crate::requests::INDEX;
use crate::scripts::script;
use crate::workload::{Job, Workload};
use ad_library::AdLibrary;
use automations::{Reading, Script, load_into};
use chain_engine::Report;
use command_lines::command::CutOptions;
use command_lines::inject_options::{Asking, InjectOptions};
use event_logs::{Listening, Telling, Warnings};
use passages::asking::Asker;
use passages::fault::{ProgramFault, fault_name};
use passages::kinds::{Chaining, Cueing, Cutting, Unasked};
use passages::running::{Ran, run_from, with_replies};
use passages::tell::Stopped;
use pes_time::Time33;
use psi_tables::Config;
use run_ends::End;
use run_events::Hearing;
use std::alloc::{AllocError, Global};
use std::cell::RefCell;
use std::io::{BufReader, Read, Write};
use std::net::TcpListener;
use ts_packet::{Buffered, Device, PacketReader, Pid};

/// How many bytes of an advertisement are read at a time.
const BUFFER_SIZE: usize = 262_144;

/// The PID of cues.
const CUE_PID: u16 = 0x1F0;

/// The PID of the video.
const VIDEO_PID: u16 = 0x101;

/// What a run came to.
#[derive(Clone, Copy, Debug)]
pub struct Outcome {
    /// What it counted; nothing in a cut.
    pub report: Option<Report>,
    /// What went out.
    pub packets: PacketDigest,
    /// What was replied.
    pub replies: TextDigest,
}

/// Why a run stopped.
#[derive(Clone, Copy, Debug)]
pub enum Fault {
    /// It was stopped as one of the program is.
    Run(ProgramFault),
    /// An advertisement could not be filed.
    Advert,
    /// The options say what no run can do.
    Options,
}

impl Fault {
    /// Its name.
    pub fn name(self) -> &'static str {
        match self {
            Fault::Run(fault) => fault_name(fault),
            Fault::Advert => "Advert",
            Fault::Options => "Options",
        }
    }
}

impl From<AllocError> for Fault {
    fn from(_: AllocError) -> Fault {
        Fault::Run(ProgramFault::OutOfMemory)
    }
}

impl From<Stopped> for Fault {
    fn from(stopped: Stopped) -> Fault {
        Fault::Run(stopped.fault)
    }
}

/// The program, the PID of its cues and the index of its messages.
fn config() -> Result<Config, Fault> {
    let Some(pid) = Pid::new(CUE_PID) else {
        return Err(Fault::Options);
    };
    match Config::new(1, pid, INDEX) {
        Ok(config) => Ok(config),
        Err(_) => Err(Fault::Options),
    }
}

/// Files what a reader gives under this number.
fn file<I: Read + Drop>(
    alloc: Global,
    library: &mut AdLibrary,
    number: u16,
    input: I,
) -> Result<(), Fault> {
    let Ok(reader) = BufReader::with_capacity(alloc, BUFFER_SIZE, input) else {
        return Err(Fault::Run(ProgramFault::OutOfMemory));
    };
    let mut device = Buffered::new(reader);
    let mut packets = PacketReader::new(&mut device);
    match library.add(number, &mut packets) {
        Ok(()) => Ok(()),
        Err(_) => Err(Fault::Advert),
    }
}

/// The library of a job.
fn library(alloc: Global, job: Job) -> Result<AdLibrary, Fault> {
    let breaks = job.breaks(&job.group(alloc)?);
    let mut library = AdLibrary::new(alloc);
    for number in 0..breaks.adverts {
        let advert = job.advert(alloc, number)?;
        file(alloc, &mut library, number, advert)?;
    }
    Ok(library)
}

/// The script of a job.
fn load<W: Drop>(alloc: Global, job: Job, replies: W) -> Result<Script<W>, Fault> {
    let text = script(alloc, job)?;
    let mut reading = Reading::new_in(alloc);
    match load_into(&mut reading, &mut Device::new(text.as_slice())) {
        Ok(()) => Ok(Script::of(reading, replies)),
        Err(fault) => Err(Fault::Run(ProgramFault::Script(fault))),
    }
}

/// Runs a workload.
pub fn run(alloc: Global, job: Job) -> Result<Outcome, Fault> {
    match job.workload {
        Workload::Cut => run_cut(alloc, job),
        _ => run_asked(alloc, job),
    }
}

/// Cuts a third of the video out.
fn run_cut(alloc: Global, job: Job) -> Result<Outcome, Fault> {
    let group = job.group(alloc)?;
    let third = job.ticks(&group) / 3;
    let from = job.start(&group).wrapping_add(third) & CLOCK;
    let (Some(pid), Some(from)) = (Pid::new(VIDEO_PID), Time33::new(from)) else {
        return Err(Fault::Options);
    };
    let options = CutOptions {
        pid,
        from,
        length: u32::try_from(third).unwrap_or(u32::MAX),
        input: End::Standard,
        output: End::Standard,
        is_verbose: false,
    };
    let mut packets = PacketDigest::new();
    let network = job.network(alloc)?;
    let passage = Cutting { options: &options };
    match run_from(
        alloc,
        passage,
        &mut Unasked,
        None,
        false,
        network,
        &mut packets,
    ) {
        Ok(_) => Ok(Outcome {
            report: None,
            packets,
            replies: TextDigest::new(),
        }),
        Err(stopped) => Err(Fault::from(stopped)),
    }
}

/// Runs with the messages of a script.
fn run_asked(alloc: Global, job: Job) -> Result<Outcome, Fault> {
    let options = InjectOptions {
        config: config()?,
        network: End::Standard,
        asking: Asking::Script(End::Standard),
        adverts: None,
        output: End::Standard,
        events: End::Lines,
        is_on_air: false,
        is_quiet: false,
        is_verbose: false,
    };
    let mut replies = TextDigest::new();
    let mut packets = PacketDigest::new();
    let network = job.network(alloc)?;
    let report = if job.workload == Workload::Asking {
        cue(alloc, &options, job, network, &mut replies, &mut packets)?
    } else {
        play(alloc, &options, job, network, &mut replies, &mut packets)?
    };
    Ok(Outcome {
        report: Some(report),
        packets,
        replies,
    })
}

/// A log of events, which no workload has, and the warnings that a run keeps.
type Warned = RefCell<Telling<Vec<u8>, Vec<u8>>>;

/// What the program has of a run besides: its warnings.
fn telling() -> Warned {
    RefCell::new(Telling::new(None, Some(Warnings::new()), None))
}

/// Who hears of a run.
fn hearing(telling: &Warned) -> Hearing<Listening<'_, Vec<u8>, Vec<u8>>> {
    Hearing {
        watch: Listening::new(telling),
        overheard: None,
    }
}

/// Puts cues in as a script asks for them.
fn cue<I: Read + Drop, W: Write + Drop, O: Write>(
    alloc: Global,
    options: &InjectOptions<'_>,
    job: Job,
    input: I,
    replies: W,
    output: &mut O,
) -> Result<Report, Fault> {
    let mut asker: Asker<W, TcpListener> = Asker::Script(load(alloc, job, replies)?);
    let telling = telling();
    let passage = Cueing {
        alloc,
        options: &*options,
        hearing: &mut hearing(&telling),
    };
    let ran = run_from(alloc, passage, &mut asker, None, false, input, output);
    let Ran { report, seen: _ } = with_replies(ran, asker.has_lost_a_reply())?;
    Ok(report)
}

/// Plays advertisements as a script asks for them.
fn play<I: Read + Drop, W: Write + Drop, O: Write>(
    alloc: Global,
    options: &InjectOptions<'_>,
    job: Job,
    input: I,
    replies: W,
    output: &mut O,
) -> Result<Report, Fault> {
    let is_live = job.workload == Workload::Awkward;
    let library = library(alloc, job)?;
    let mut asker: Asker<W, TcpListener> = Asker::Script(load(alloc, job, replies)?);
    let telling = telling();
    let passage = Chaining {
        alloc,
        options: &*options,
        library: &library,
        hearing: &mut hearing(&telling),
    };
    let ran = run_from(alloc, passage, &mut asker, None, is_live, input, output);
    let Ran { report, seen: _ } = with_replies(ran, asker.has_lost_a_reply())?;
    Ok(report)
}
