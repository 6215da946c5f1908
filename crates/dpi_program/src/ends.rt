//! The ends of a run: the network that it reads, where its packets go, and where the lines of its log go.

ghost use Rattle.std.specs.Prelude.{◌≡◌, ℕ, List, Option, None, true, false, is_some, map, option_copied, Any, IfOk, IfErr, IsSome, IsSomeAnd};
ghost use Rattle.std.specs.Fs.{file_type, IsFile};
ghost use Rattle.run_ends.specs.Ends.{path_of};
ghost use Rattle.dpi_program.specs.Ends.{IsOpened, IsMade, IsLogMade};
ghost use Rattle.dpi_program.specs.Runs.{known_from, left_in};

use passages::fault::ProgramFault;
use passages::running::stopped;
use passages::tell::{Side, Stopped};
use run_ends::{End, create_beside, open_input, spare};
use std::fs::{self, Metadata};
use std::io::{self, Read, Write};
use std::rt::Files;

/// Opens the files of a run, so that a proof knows by which path each of them was opened.
pub trait RunFiles: Files {
    ghost use Rattle.std.specs.Prelude.{ℕ, List, Option, IfOk, option_copied, map};
    ghost use Rattle.std.specs.declared.fs.attrs.Metadata.{Metadata};

    /// By this path the file was opened to be read, and so the system described it.
    ghost reads_at: { List ℕ → Self.File → Metadata → Type 0 };

    /// By this path the file was made to be written, beside those that the system described so.
    ghost makes_at: { List ℕ → List (Option Metadata) → Self.File → Type 0 };

    /// Opens a file to read, as [`open_input`] does.
    ///
    /// # Errors
    ///
    /// As for `open_input`.
    fn open_at(&self, path: &str) -> io::Result<(Self::File, Metadata)>
        ensures { IfOk result (λ opened. reads_at path.now opened.0 opened.1) };

    /// Makes a file to write, as [`create_beside`] does.
    ///
    /// # Errors
    ///
    /// As for `create_beside`.
    fn make_at(&self, path: &str, others: &[Option<&Metadata>]) -> io::Result<Self::File>
        ensures { IfOk result (makes_at path.now (map option_copied others.now)) };
}

impl<R: Files> RunFiles for R {
    ghost reads_at = { λ path file about. Unit {0} };

    ghost makes_at = { λ path others file. Unit {0} };

    fn open_at(&self, path: &str) -> io::Result<(R::File, Metadata)> {
        open_input(self, path)
    }

    fn make_at(&self, path: &str, others: &[Option<&Metadata>]) -> io::Result<R::File> {
        create_beside(self, path, others)
    }
}

/// The bytes of a network. It is one type for both ends, so that a run is compiled once, not once for each.
#[derive(Drop)]
pub(crate) enum NetworkBytes<F, I> {
    /// Those of a file.
    File(F),
    /// Those of the standard input.
    Standard(I),
}

impl<F: Read, I: Read> Read for NetworkBytes<F, I> {
    ghost remaining = { λ s. left_in F.remaining I.remaining s };

    fn read(&mut self, buf: &mut [u8]) -> io::Result<usize> {
        match self {
            NetworkBytes::File(file) => file.read(buf),
            NetworkBytes::Standard(input) => input.read(buf),
        }
    }
}

/// The network of a run.
#[derive(Drop)]
pub(crate) struct Network<F> {
    /// The file; `None` where the network is standard input.
    pub(crate) file: Option<F>,
    /// What the system says of the file.
    pub(crate) about: Option<Metadata>,
}

impl<F> Network<F> {
    /// Whether it may pause, as it is no ordinary file.
    pub(crate) fn is_live(&self) -> bool
        ensures standard { self.now.about ≡ None → result ≡ true }
        ensures steady { result ≡ false → IsSomeAnd self.now.about (λ about. IsFile (file_type about)) }
    {
        !self.about.as_ref().is_some_and(|about| about.is_file())
    }

    /// Its bytes, where this is the standard input.
    pub(crate) fn into_bytes<I>(self, input: I) -> NetworkBytes<F, I>
    where
        F: Drop,
        I: Drop,
        ensures { (file : F → Option (List ℕ)) (standard : I → Option (List ℕ))
            → left_in file standard result ≡ known_from file self.file (standard input) }
    {
        match self.file {
            Some(file) => NetworkBytes::File(file),
            None => NetworkBytes::Standard(input),
        }
    }
}

/// Opens the network that an option names.
///
/// # Errors
///
/// `File` where the file could not be opened.
pub(crate) fn open_network<R: RunFiles>(
    rt: &R,
    network: End<'_>,
) -> Result<Network<R::File>, Stopped>
    ensures opened { IfOk result (λ n. IsOpened R.reads_at network.entry n.file n.about) }
    ensures file { IfOk result (λ n. is_some n.file ≡ is_some (path_of network.entry)) }
    ensures fault { IfErr result (λ stopped. stopped.fault ≡ ProgramFault.File) }
    ensures side { IfErr result (λ stopped. stopped.side ≡ Side.Reading) }
    ensures unflushed { IfErr result (λ stopped. stopped.is_flushed ≡ false) }
{
    let Some(path) = network.path() else {
        return Ok(Network {
            file: None,
            about: None,
        });
    };
    match rt.open_at(path) {
        Ok((file, about)) => Ok(Network {
            file: Some(file),
            about: Some(about),
        }),
        Err(reason) => Err(stopped(ProgramFault::File, Side::Reading, Some(reason))),
    }
}

/// Makes the file where packets go, unless it is one of the others.
///
/// # Errors
///
/// `File` where the file could not be made, or is one of the others.
pub(crate) fn make_output<R: RunFiles>(
    rt: &R,
    output: End<'_>,
    others: &[Option<&Metadata>],
) -> Result<R::File, Stopped>
    ensures made { IfOk result (IsMade R.makes_at output.entry (map option_copied others.now)) }
    ensures fault { IfErr result (λ stopped. stopped.fault ≡ ProgramFault.File) }
    ensures side { IfErr result (λ stopped. stopped.side ≡ Side.Writing) }
    ensures unflushed { IfErr result (λ stopped. stopped.is_flushed ≡ false) }
{
    let path = output.path().unwrap_or("");
    match rt.make_at(path, others) {
        Ok(file) => Ok(file),
        Err(reason) => Err(stopped(ProgramFault::File, Side::Writing, Some(reason))),
    }
}

/// Refuses an end that is one of these files, as [`spare`] does.
///
/// # Errors
///
/// `File` where it is one, on this side.
fn spare_end<R: Files>(rt: &R, end: End<'_>, side: Side, read: &[Metadata]) -> Result<(), Stopped>
    ensures file { IfErr result (λ _. IsSome (path_of end.entry)) }
    ensures ordinary { IfErr result (λ _. Any (λ about. IsFile (file_type about)) read.now) }
    ensures fault { IfErr result (λ stopped. stopped.fault ≡ ProgramFault.File) }
    ensures side { IfErr result (λ stopped. stopped.side ≡ side) }
    ensures unflushed { IfErr result (λ stopped. stopped.is_flushed ≡ false) }
{
    let Some(path) = end.path() else {
        return Ok(());
    };
    match spare(rt, path, read) {
        Ok(()) => Ok(()),
        Err(reason) => Err(stopped(ProgramFault::File, side, Some(reason))),
    }
}

/// The ends that a run is yet to make.
#[derive(Clone, Copy)]
pub(crate) struct Outputs<'a> {
    /// Where the packets go, or the script of a plan.
    pub(crate) output: End<'a>,
    /// Where the lines of the log go.
    pub(crate) events: End<'a>,
}

impl Outputs<'_> {
    /// Refuses an output or a log that would be made over one of these files, which a list names: they were read and are closed. Nothing is
    /// made here.
    ///
    /// # Errors
    ///
    /// `File` where one would, that of the log first, which is made first.
    pub(crate) fn spare<R: Files>(&self, rt: &R, read: &[Metadata]) -> Result<(), Stopped>
        ensures fault { IfErr result (λ stopped. stopped.fault ≡ ProgramFault.File) }
        ensures unflushed { IfErr result (λ stopped. stopped.is_flushed ≡ false) }
    {
        spare_end(rt, self.events, Side::Telling, read)?;
        spare_end(rt, self.output, Side::Writing, read)
    }
}

/// What the lines of a log are written to.
#[derive(Drop)]
pub(crate) enum LinesEnd<F, W> {
    /// A file.
    File(F),
    /// A standard stream.
    Standard(W),
}

impl<F: Write, W: Write> Write for LinesEnd<F, W> {
    fn write(&mut self, buf: &[u8]) -> io::Result<usize> {
        match self {
            LinesEnd::File(file) => file.write(buf),
            LinesEnd::Standard(stream) => stream.write(buf),
        }
    }

    fn flush(&mut self) -> io::Result<()> {
        match self {
            LinesEnd::File(file) => file.flush(),
            LinesEnd::Standard(stream) => stream.flush(),
        }
    }
}

/// Where the lines of a log go, where there is one.
#[derive(Drop)]
pub(crate) struct LogEnd<F, W> {
    pub(crate) end: Option<LinesEnd<F, W>>,
    /// What the system says of the file.
    pub(crate) about: Option<Metadata>,
}

/// Opens where the lines of a log go: the standard stream, or the file that an option names, unless it is one of the others.
///
/// # Errors
///
/// `File` where the file could not be made, or is one of the others.
pub(crate) fn open_log<R: RunFiles, W: Drop>(
    rt: &R,
    events: End<'_>,
    standard: W,
    others: &[Option<&Metadata>],
) -> Result<LogEnd<R::File, W>, Stopped>
    ensures none { events.entry ≡ End.Lines → IfOk result (λ log. log.end ≡ None) }
    ensures made { IfOk result (λ log. IsLogMade R.makes_at events.entry (map option_copied others.now)
        log.end) }
    ensures fault { IfErr result (λ stopped. stopped.fault ≡ ProgramFault.File) }
    ensures side { IfErr result (λ stopped. stopped.side ≡ Side.Telling) }
    ensures unflushed { IfErr result (λ stopped. stopped.is_flushed ≡ false) }
{
    match events {
        End::Lines => Ok(LogEnd {
            end: None,
            about: None,
        }),
        End::Standard => Ok(LogEnd {
            end: Some(LinesEnd::Standard(standard)),
            about: None,
        }),
        End::File(path) => match rt.make_at(path, others) {
            Ok(file) => Ok(LogEnd {
                end: Some(LinesEnd::File(file)),
                about: fs::metadata(rt, path).ok(),
            }),
            Err(reason) => Err(stopped(ProgramFault::File, Side::Telling, Some(reason))),
        },
    }
}
