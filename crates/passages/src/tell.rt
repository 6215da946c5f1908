//! What `--verbose` adds: a line behind the fault's line, and a line at the end of a run that went through.

use crate::fault::ProgramFault;
use crate::watch::Watch;
use automations::ScriptLineFault;
use chain_engine::RunFault;
use packet_lines::LinesFault;
use psi_tables::FeedFault;
use std::{fmt, io};
use ts_packet::{Pid, ReadFault};
use unit_cut::CutFault;

/// What a run did to one of its ends when it stopped.
#[derive(Clone, Copy, Debug, PartialEq, Eq)]
pub enum Side {
    /// It read the stream.
    Reading,
    /// It wrote the stream.
    Writing,
    /// It read the script.
    Scripting,
    /// It waited for an automation system.
    Listening,
    /// It loaded the list of the advertisements, or of the services.
    Filing,
    /// It printed replies or the report.
    Printing,
    /// It wrote what happens.
    Telling,
}

/// What more is known of the line of a script or of a list in which a fault stands.
#[derive(Debug, Drop)]
pub enum LineAbout {
    /// What is wrong with a line of a script.
    Script(ScriptLineFault),
    /// The bytes of a line of a list of advertisements.
    Entry(Vec<u8>),
    /// The number, from 1, of the line at fault in the list of advertisements that a line of a list of services names.
    Adverts(usize),
    /// The line ends with a carriage return, so that its path does.
    Return,
}

/// The path of a line of a list of advertisements: what stands behind its first space.
fn path_of(line: &[u8]) -> Option<&str> {
    let Ok(text) = str::from_utf8(line) else {
        return None;
    };
    match text.split_once(' ') {
        Some((_, path)) => Some(path.trim_end_matches('\r')),
        None => None,
    }
}

/// Why a run stopped, and what is known of it.
#[derive(Drop)]
pub struct Stopped {
    pub fault: ProgramFault,
    /// What was done when it stopped.
    pub side: Side,
    /// The system's reason, where a file or a device failed.
    pub reason: Option<io::Error>,
    /// What was read until then, where that was watched.
    pub read: Option<Watch>,
    /// Whether the output was flushed behind the fault with nothing lost, so that all that the run has sent is out.
    pub is_flushed: bool,
    /// The line of the script or of the list in which the fault stands, from 1.
    pub line: Option<usize>,
    /// What more is known of that line.
    pub about: Option<LineAbout>,
}

/// A PID in decimal and hexadecimal digits.
#[derive(Clone, Copy, Debug, PartialEq, Eq)]
pub(crate) struct BothWays {
    pub(crate) pid: Pid,
}

impl fmt::Display for BothWays {
    fn fmt<W: fmt::Write>(&self, f: &mut fmt::Formatter<W>) -> fmt::Result {
        let number = self.pid.get();
        write!(f, "PID {number} (0x{number:04X})")
    }
}

/// Whether the fault is one of the network's bytes, so that the packet in which it stands is known.
fn is_of_the_stream(fault: ProgramFault) -> bool {
    match fault {
        ProgramFault::Lines(LinesFault::Cut(CutFault::Read(ReadFault::Truncated)))
        | ProgramFault::Lines(LinesFault::Cut(CutFault::Read(ReadFault::SyncLost)))
        | ProgramFault::Lines(LinesFault::Cut(CutFault::Read(ReadFault::BadAdaptation)))
        | ProgramFault::Lines(LinesFault::Cut(CutFault::Scrambled))
        | ProgramFault::Lines(LinesFault::Cut(CutFault::HeaderSplit))
        | ProgramFault::Lines(LinesFault::Cut(CutFault::TimeJump)) => true,
        ProgramFault::Run(fault) => is_of_the_network(fault),
        _ => false,
    }
}

/// Likewise, of a run with cues.
fn is_of_the_network(fault: RunFault) -> bool {
    match fault {
        RunFault::Read(ReadFault::Truncated)
        | RunFault::Read(ReadFault::SyncLost)
        | RunFault::Read(ReadFault::BadAdaptation)
        | RunFault::Feed(FeedFault::Network(_))
        | RunFault::SharedPid => true,
        _ => false,
    }
}

/// The line behind a fault's: what was done to which end, and where or why it stopped.
#[derive(Clone, Copy, Drop)]
pub struct Trouble<'a> {
    pub stopped: &'a Stopped,
    /// The name of the end.
    pub name: &'a str,
}

impl Trouble<'_> {
    /// Writes the packet in which the fault stands: its number from 0, the place of its first byte, and its PID.
    fn write_packet<W: fmt::Write>(read: &Watch, f: &mut fmt::Formatter<W>) -> fmt::Result {
        let number = read.last_packet();
        let byte = number.saturating_mul(188);
        write!(f, ": packet {number}, byte {byte}")?;
        match read.last_pid() {
            Some(pid) => {
                let pid = BothWays { pid };
                write!(f, ", {pid}")
            }
            None => Ok(()),
        }
    }

    /// Writes what is known of the line in which the fault stands.
    fn write_line<W: fmt::Write>(&self, f: &mut fmt::Formatter<W>) -> fmt::Result {
        if let Some(line) = self.stopped.line {
            write!(f, ": line {line}")?;
        }
        if let Some(LineAbout::Entry(bytes)) = &self.stopped.about
            && let Some(path) = path_of(bytes.as_slice())
        {
            write!(f, ", {path}")?;
        }
        match self.stopped.fault {
            ProgramFault::List(fault) => write!(f, ": {fault}")?,
            ProgramFault::Services(fault) => write!(f, ": {fault}")?,
            _ => {}
        }
        match &self.stopped.about {
            None => Ok(()),
            Some(LineAbout::Script(fault)) => write!(f, ": {fault}"),
            Some(LineAbout::Adverts(line)) => write!(f, ", in its line {line}"),
            Some(LineAbout::Return) => write!(f, "; the line ends with a carriage return"),
            Some(LineAbout::Entry(bytes)) => match bytes.last() {
                Some(b'\r') => write!(f, "; the line ends with a carriage return"),
                _ => Ok(()),
            },
        }
    }

    /// Writes where the run stopped.
    fn write_place<W: fmt::Write>(&self, f: &mut fmt::Formatter<W>) -> fmt::Result {
        self.write_line(f)?;
        if let Some(reason) = &self.stopped.reason {
            return write!(f, ": {reason}");
        }
        let Some(read) = &self.stopped.read else {
            return Ok(());
        };
        if self.stopped.fault == ProgramFault::Lines(LinesFault::BadLine) {
            let line = read.packets().saturating_add(1);
            return write!(f, ": line {line}");
        }
        if is_of_the_stream(self.stopped.fault) {
            return Trouble::write_packet(read, f);
        }
        Ok(())
    }
}

impl fmt::Display for Trouble<'_> {
    fn fmt<W: fmt::Write>(&self, f: &mut fmt::Formatter<W>) -> fmt::Result {
        let name = self.name;
        match self.stopped.side {
            Side::Reading => write!(f, "reading {name}")?,
            Side::Writing => write!(f, "writing {name}")?,
            Side::Scripting => write!(f, "reading the script {name}")?,
            Side::Listening => write!(f, "listening on {name}")?,
            Side::Filing => write!(f, "loading the list {name}")?,
            Side::Printing => write!(f, "printing to {name}")?,
            Side::Telling => write!(f, "writing the events {name}")?,
        }
        self.write_place(f)?;
        writeln!(f)
    }
}

/// What a cut that went through has done.
#[derive(Clone, Copy, Debug)]
pub struct Account {
    /// The PID that was cut.
    pub pid: Pid,
    /// What was read.
    pub read: Watch,
    /// What was written.
    pub written: Watch,
}

impl fmt::Display for Account {
    fn fmt<W: fmt::Write>(&self, f: &mut fmt::Formatter<W>) -> fmt::Result {
        let (packets, units) = (self.read.packets(), self.read.units());
        let packets_out = packets.saturating_sub(self.written.packets());
        let units_out = units.saturating_sub(self.written.units());
        let pid = BothWays { pid: self.pid };
        write!(
            f,
            "cut: {units_out} of {units} units of {pid}, {packets_out} of {packets} packets left out"
        )?;
        match self.read.stamps() {
            Some(stamps) => writeln!(f, "; its time stamps go from {stamps}"),
            None => writeln!(f, "; it has no time stamps"),
        }
    }
}

/// What a run with cues that went through has done.
#[derive(Clone, Copy, Debug)]
pub struct CueAccount {
    /// Whether advertisements were played, so that the cues went no further.
    pub plays: bool,
    /// The PID of the cues.
    pub cue_pid: Pid,
    /// What was read.
    pub read: Watch,
    /// What was written, with the cues as units of their PID.
    pub written: Watch,
}

impl fmt::Display for CueAccount {
    fn fmt<W: fmt::Write>(&self, f: &mut fmt::Formatter<W>) -> fmt::Result {
        let cues = self.written.units();
        let (read, written) = (self.read.packets(), self.written.packets());
        if self.plays {
            return writeln!(f, "run: {read} packets read, {written} written");
        }
        let pid = BothWays { pid: self.cue_pid };
        writeln!(
            f,
            "inject: {cues} cues on {pid}, {read} packets read, {written} written"
        )
    }
}

/// What a run with advertisements that went through has done.
#[derive(Clone, Copy, Debug)]
pub struct SpliceAccount {
    /// What was read.
    pub read: Watch,
    /// What was written.
    pub written: Watch,
}

impl fmt::Display for SpliceAccount {
    fn fmt<W: fmt::Write>(&self, f: &mut fmt::Formatter<W>) -> fmt::Result {
        let (read, written) = (self.read.packets(), self.written.packets());
        writeln!(f, "splice: {read} packets read, {written} written")
    }
}

/// What a run of several services that went through has done.
#[derive(Clone, Copy, Debug)]
pub struct ServicesAccount {
    /// What was read.
    pub read: Watch,
    /// What was written.
    pub written: Watch,
}

impl fmt::Display for ServicesAccount {
    fn fmt<W: fmt::Write>(&self, f: &mut fmt::Formatter<W>) -> fmt::Result {
        let (read, written) = (self.read.packets(), self.written.packets());
        writeln!(f, "services: {read} packets read, {written} written")
    }
}
