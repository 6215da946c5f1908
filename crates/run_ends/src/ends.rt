//! Where the streams of a run come from and go to: files, the standard streams in bytes, or lines of digits on them.

ghost use Rattle.std.specs.Prelude.{◌≡◌, codes, option_map, true, Any, IfErr, IfOk};
ghost use Rattle.std.specs.Fs.{file_type, IsDir, IsFile};
ghost use Rattle.std.specs.IoError.{error_kind};
ghost use Rattle.run_ends.specs.Ends.{IsNamed, path_of, name_of, IsOrdinary};

use std::fs::{self, Metadata, OpenFile};
use std::io::{self, ErrorKind};
use std::os::unix::fs::MetadataExt;
use std::rt::Files;

/// One end of a run, as an option names it.
#[derive(Clone, Copy, Debug, PartialEq, Eq, Drop)]
pub enum End<'a> {
    /// Lines of digits on the standard stream: the option is not given.
    Lines,
    /// Bytes on the standard stream: the option is `-`.
    Standard,
    /// Bytes of this file.
    File(&'a str),
}

impl<'a> End<'a> {
    /// The end that an option's text names.
    pub fn named(text: Option<&'a str>) -> End<'a>
        ensures { IsNamed (option_map (λ t. t.now) text.entry) result }
    {
        match text {
            None => End::Lines,
            Some("-") => End::Standard,
            Some(path) => End::File(path),
        }
    }

    /// What an input is called.
    pub fn input_name(&self) -> &'a str
        ensures { result.now ≡ name_of (codes "standard input") self.now }
    {
        self.path().unwrap_or("standard input")
    }

    /// What an output is called.
    pub fn output_name(&self) -> &'a str
        ensures { result.now ≡ name_of (codes "standard output") self.now }
    {
        self.path().unwrap_or("standard output")
    }

    /// The path, where the end is a file.
    pub fn path(&self) -> Option<&'a str>
        ensures { option_map (λ p. p.now) result ≡ path_of self.now }
    {
        match *self {
            End::File(path) => Some(path),
            End::Lines => None,
            End::Standard => None,
        }
    }
}

/// A file that could not be opened, and the system's reason.
#[derive(Drop)]
pub enum Unopened {
    Input(io::Error),
    Output(io::Error),
}

/// Opens a file to read, with what the system says of it.
///
/// # Errors
///
/// The system's, where the file cannot be opened or described; `IsADirectory` where it is a directory.
pub fn open_input<R: Files>(rt: &R, path: &str) -> io::Result<(R::File, Metadata)>
    ensures { IfOk result (λ opened. ¬ IsDir (file_type opened.1)) }
{
    let file = fs::open(rt, path)?;
    let about = file.metadata()?;
    if about.is_dir() {
        return Err(io::Error::from(ErrorKind::IsADirectory));
    }
    Ok((file, about))
}

/// Whether the two are one ordinary file, by whatever names: then writing the one would destroy the other. What the system says of the
/// device and the number of a file is outside the proof.
fn is_same_file(one: &Metadata, other: &Metadata) -> bool
    ensures { result ≡ true → IsFile (file_type one.now) }
{
    one.is_file() && one.dev() == other.dev() && one.ino() == other.ino()
}

/// Whether the file that stands there is one of these.
fn is_one_of(standing: &Metadata, others: &[Option<&Metadata>]) -> bool
    ensures { result ≡ true → Any IsOrdinary others.now }
{
    others.iter().any(|other| other.is_some_and(|other| is_same_file(other, standing)))
}

/// Likewise, among files of which each is known.
fn is_among(standing: &Metadata, files: &[Metadata]) -> bool
    ensures { result ≡ true → Any (λ about. IsFile (file_type about)) files.now }
{
    files.iter().any(|about| is_same_file(about, standing))
}

/// Why a file is not made that is one of the run's others.
fn another_file() -> io::Error
    ensures { error_kind result ≡ ErrorKind.Other }
{
    io::Error::other("it is another file of the run")
}

/// Makes a file to write anew, unless it is one of the other files of the run, which are read or written too.
///
/// # Errors
///
/// `Other` where it is one of them, an ordinary file by whatever name; else the system's, where the file cannot be made.
pub fn create_beside<R: Files>(
    rt: &R,
    path: &str,
    others: &[Option<&Metadata>],
) -> io::Result<R::File> {
    if let Ok(standing) = fs::metadata(rt, path)
        && is_one_of(&standing, others)
    {
        return Err(another_file());
    }
    fs::create(rt, path)
}

/// Refuses to make a file to write anew where it stands and is one of these, which were read and are closed: what they held would be lost.
/// Nothing is made or emptied here.
///
/// # Errors
///
/// `Other` where it is one of them, an ordinary file by whatever name.
pub fn spare<R: Files>(rt: &R, path: &str, read: &[Metadata]) -> io::Result<()>
    ensures ordinary { IfErr result (λ _. Any (λ about. IsFile (file_type about)) read.now) }
    ensures kind { IfErr result (λ error. error_kind error ≡ ErrorKind.Other) }
{
    if let Ok(standing) = fs::metadata(rt, path)
        && is_among(&standing, read)
    {
        return Err(another_file());
    }
    Ok(())
}
