//! A list of advertisements: lines of a number and the path of a stream.

ghost use Rattle.std.specs.Prelude.{◌≡◌, ◌+◌, ◌++◌, ◌∷◌, [], ℕ, List, length, Option, Err, is_some, option_map, IfOk, IfErr, OnOk, IfSome};
ghost use Rattle.indexmap.specs.IndexMap.{index_map_len};
ghost use Rattle.ts_packet.specs.Transfers.{LastMovedNone};
ghost use Rattle.ad_library.specs.Library.{held};
ghost use Rattle.ad_lists.specs.Lists.{is_blank, entry_of, numbers_of, FilesOne, IsFiled, IsRead, IsListed, StandsIn};
ghost use Rattle.ad_lists.specs.Lists.{SaysOf, DeviceBlamed, DeviceStopsAt, StallsOver, BlamesStream, AreDescribed};
ghost use Rattle.ad_lists.specs.Lists.{BlamesLine, StopsAt, ListBlamed, IsOfLine};

use ad_library::{AdFault, AdLibrary};
use decimal_numbers::number_below;
use run_ends::open_input;
use std::alloc::Allocator;
use std::fs::Metadata;
use std::io::{self, BufReader, Read};
use std::rt::Files;
use thiserror::Error;
use ts_packet::{Device, DeviceFault, PacketReader, ReadFault, Source};

/// The most reads of a list.
const READS: u64 = 1 << 32;

/// How many bytes of a list are read at a time.
const ROOM: usize = 4_096;

/// How many bytes of an advertisement are read at a time.
const BUFFER_SIZE: usize = 131_072;

/// Why a list was not loaded.
#[derive(Clone, Copy, Debug, PartialEq, Eq, Drop, Error)]
pub enum ListFault {
    /// A line is not a number below 65,536, a space and a path.
    #[error("it is not a number below 65536, one space and a path")]
    BadList,
    /// The stream of an advertisement cannot be opened, or is a directory.
    #[error("the stream of an advertisement cannot be opened")]
    File,
    /// The list could not be read on.
    #[error("the list could not be read on")]
    Io,
    /// More than 2^32 reads did not give the list's end.
    #[error("too many reads")]
    Turns,
    /// An advertisement was not filed; never for want of memory.
    #[error("{0}")]
    Ad(AdFault),
    /// Memory was refused.
    #[error("memory was refused")]
    OutOfMemory,
}

impl ListFault {
    ghost use Rattle.ad_lists.specs.Lists.{is_at_line};

    /// A line of the list is at fault, and not its device or memory.
    pub fn is_at_line(self) -> bool
        ensures { result ≡ is_at_line self }
    {
        match self {
            ListFault::BadList | ListFault::File | ListFault::Ad(_) => true,
            ListFault::Io | ListFault::Turns | ListFault::OutOfMemory => false,
        }
    }
}

/// Loads a list, whose lines are the number of an advertisement in decimal digits alone, a space, and the path of its stream; lines of white
/// space alone are passed over. Each line is judged, and its stream read to the end, before the next one. All memory is this allocator's.
///
/// # Errors
///
/// The first fault, by its line.
pub fn load_list<R: Files, M: Allocator + Copy, S: Source>(
    rt: &R,
    alloc: M,
    list: &mut S,
) -> Result<AdLibrary<M>, ListFault>
    ensures lists { IfOk result (λ library. (text : List ℕ) × IfSome (S.remaining list.old) (λ bs. bs ≡ text)
        × IsListed library text) }
    ensures stops { IfErr result (λ f. IfSome (S.remaining list.old) (StopsAt f)) }
    ensures blamed { IfErr result (λ f. ListBlamed f (S.counts list.old) (S.counts list.new)) }
    ensures ended { OnOk result (LastMovedNone (S.counts list.old) (S.counts list.new)) }
{
    let mut loading = Loading::new_in(alloc);
    match load_into(rt, alloc, &mut loading, list) {
        Ok(()) => Ok(loading.into_library()),
        Err(fault) => Err(fault),
    }
}

/// Loads a list to its end. An interrupted read is tried again.
///
/// # Errors
///
/// As for [`load_list`]. Then the loading stands in the line that is at fault, where one is.
pub fn load_into<R: Files, M: Allocator + Copy, S: Source>(
    rt: &R,
    alloc: M,
    loading: &mut Loading<M>,
    list: &mut S,
) -> Result<(), ListFault>
    requires { IsRead loading.old [] }
    ensures lists { OnOk result ((text : List ℕ) × IfSome (S.remaining list.old) (λ bs. bs ≡ text)
        × IsListed loading.new.library text) }
    ensures described { OnOk result (AreDescribed loading.new.streams.items loading.new.library) }
    ensures stops { IfErr result (λ f. IfSome (S.remaining list.old) (StopsAt f)) }
    ensures stands { IfErr result (λ _. IfSome (S.remaining list.old) (StandsIn loading.new)) }
    ensures blamed { IfErr result (λ f. ListBlamed f (S.counts list.old) (S.counts list.new)) }
    ensures ended { OnOk result (LastMovedNone (S.counts list.old) (S.counts list.new)) }
{
    let mut room = [0; ROOM];
    for _turn in 0..READS {
        match list.read(&mut room) {
            Ok(0) => return loading.finish(rt, alloc),
            Ok(count) => match loading.take_in(rt, alloc, &room[..count]) {
                Ok(()) => {}
                Err(fault) => return Err(fault),
            },
            Err(DeviceFault::Interrupted) => {}
            Err(DeviceFault::Failed) => return Err(ListFault::Io),
        }
    }
    Err(ListFault::Turns)
}

/// A list that is being loaded.
#[derive(Drop)]
pub struct Loading<M: Allocator> {
    library: AdLibrary<M>,
    /// What the system says of each stream that was opened: a run that writes over one would destroy it.
    streams: Vec<Metadata, M>,
    /// The line that is being read, as far as it came.
    line: Vec<u8, M>,
    /// The number of that line, from 1.
    number: usize,
    /// The system's reason, where the stream of the line cannot be opened.
    reason: Option<io::Error>,
}

impl<M: Allocator> Loading<M> {
    ghost use Rattle.std.specs.Prelude.{None};

    /// Nothing was read; all memory will be this allocator's.
    pub fn new_in(alloc: M) -> Loading<M>
    where
        M: Copy,
        ensures read { IsRead result [] }
        ensures reason { result.reason ≡ None }
    {
        Loading {
            library: AdLibrary::new_in(alloc),
            streams: Vec::new(alloc),
            line: Vec::new(alloc),
            number: 1,
            reason: None,
        }
    }

    /// The number, from 1, of the line in which the loading stands.
    pub fn line_number(&self) -> usize
        ensures { result ≡ self.now.number }
    {
        self.number
    }

    /// The bytes of that line, as far as they were read.
    pub fn line(&self) -> &[u8]
        ensures { result.now ≡ self.now.line.items }
    {
        self.line.as_slice()
    }

    /// The advertisements of the lines so far.
    pub fn into_library(self) -> AdLibrary<M>
        ensures { result ≡ self.library }
    {
        let Loading { library, .. } = self;
        library
    }

    /// The advertisements of the lines so far, and what the system says of each of their streams, in the order of the lines.
    pub fn into_parts(self) -> (AdLibrary<M>, Vec<Metadata, M>)
        ensures library { result.0 ≡ self.library }
        ensures streams { result.1 ≡ self.streams }
    {
        let Loading {
            library,
            streams,
            ..
        } = self;
        (library, streams)
    }

    /// The system's reason, where the stream of the line in which the loading stands cannot be opened.
    pub fn into_reason(self) -> Option<io::Error>
        ensures { result ≡ self.reason }
    {
        let Loading { reason, .. } = self;
        reason
    }
}

impl<M: Allocator + Copy> Loading<M> {
    /// Takes bytes of the list.
    fn take_in<R: Files>(&mut self, rt: &R, alloc: M, part: &[u8]) -> Result<(), ListFault>
        ensures ok { (text : List ℕ) → IsRead self.old text → OnOk result (IsRead self.new (text ++ part.now)) }
        ensures stops { (text : List ℕ) → IsRead self.old text
            → IfErr result (λ f. (more : List ℕ) → StopsAt f (text ++ (part.now ++ more))) }
        ensures stands { (text : List ℕ) → IsRead self.old text
            → IfErr result (λ _. (more : List ℕ) → StandsIn self.new (text ++ (part.now ++ more))) }
        ensures refused { IfErr result IsOfLine }
    {
        let mut rest = part;
        while let Some((byte, behind)) = rest.split_first() {
            match self.take(rt, alloc, *byte) {
                Ok(()) => {}
                Err(fault) => return Err(fault),
            }
            rest = behind;
        }
        Ok(())
    }

    /// Takes a byte of the list: where it ends a line, that is loaded.
    fn take<R: Files>(&mut self, rt: &R, alloc: M, byte: u8) -> Result<(), ListFault>
        ensures ok { (text : List ℕ) → IsRead self.old text → OnOk result (IsRead self.new (text ++ byte ∷ [])) }
        ensures stops { (text : List ℕ) → IsRead self.old text
            → IfErr result (λ f. (more : List ℕ) → StopsAt f (text ++ (byte ∷ more))) }
        ensures stands { (text : List ℕ) → IsRead self.old text
            → IfErr result (λ _. (more : List ℕ) → StandsIn self.new (text ++ (byte ∷ more))) }
        ensures refused { IfErr result IsOfLine }
    {
        if byte != b'\n' {
            return match self.line.push(byte) {
                Ok(()) => Ok(()),
                Err(_) => Err(ListFault::OutOfMemory),
            };
        }
        match self.load_line(rt, alloc) {
            Ok(()) => {
                self.line.clear();
                self.number = self.number.saturating_add(1);
                Ok(())
            }
            Err(fault) => Err(fault),
        }
    }

    /// The end of the list, behind which the end of the last line may be missing.
    fn finish<R: Files>(&mut self, rt: &R, alloc: M) -> Result<(), ListFault>
        ensures ok { (text : List ℕ) → IsRead self.old text → OnOk result (IsListed self.new.library text) }
        ensures described { (text : List ℕ) → IsRead self.old text
            → OnOk result (AreDescribed self.new.streams.items self.new.library) }
        ensures stops { (text : List ℕ) → IsRead self.old text → IfErr result (λ f. StopsAt f text) }
        ensures stands { (text : List ℕ) → IsRead self.old text → IfErr result (λ _. StandsIn self.new text) }
        ensures refused { IfErr result IsOfLine }
    {
        match self.load_line(rt, alloc) {
            Ok(()) => Ok(()),
            Err(fault) => Err(fault),
        }
    }

    /// Loads the line that was read.
    fn load_line<R: Files>(&mut self, rt: &R, alloc: M) -> Result<(), ListFault>
        ensures ok { (ls : List (List ℕ)) → IsFiled self.old.library ls
            → OnOk result (IsFiled self.new.library (self.old.line.items ∷ ls)) }
        ensures described { AreDescribed self.old.streams.items self.old.library
            → OnOk result (AreDescribed self.new.streams.items self.new.library) }
        ensures stops { (ls : List (List ℕ)) → IsFiled self.old.library ls
            → IfErr result (λ f. BlamesLine f self.old.line.items (numbers_of ls)) }
        ensures refused { IfErr result IsOfLine }
        ensures line { self.new.line ≡ self.old.line }
        ensures number { self.new.number ≡ self.old.number }
    {
        let line = self.line.as_slice();
        let (library, streams) = (&mut self.library, &mut self.streams);
        match load_line(rt, alloc, library, streams, line, &mut self.reason) {
            Ok(()) => Ok(()),
            Err(fault) => Err(fault),
        }
    }
}

/// Whether the line is white space alone.
pub fn is_blank(line: &[u8]) -> bool
    ensures { result ≡ is_blank line.now }
{
    line.iter().all(|byte| byte.is_ascii_whitespace())
}

/// The number and the path of a line.
fn entry_of(line: &[u8]) -> Option<(u16, &str)>
    ensures { option_map (λ e. (e.0, e.1.now)) result ≡ entry_of line.now }
{
    let Ok(text) = str::from_utf8(line) else {
        return None;
    };
    let Some((number, path)) = text.split_once(' ') else {
        return None;
    };
    if path.is_empty() {
        return None;
    }
    match number_below(number, 1 << 16) {
        Some(id) => Some((id as u16, path)),
        None => None,
    }
}

/// Loads the advertisement of a line.
fn load_line<R: Files, M: Allocator + Copy>(
    rt: &R,
    alloc: M,
    library: &mut AdLibrary<M>,
    streams: &mut Vec<Metadata, M>,
    line: &[u8],
    reason: &mut Option<io::Error>,
) -> Result<(), ListFault>
    ensures ok { (ls : List (List ℕ)) → IsFiled library.old ls → OnOk result (IsFiled library.new (line.now ∷ ls)) }
    ensures described { AreDescribed streams.old.items library.old → OnOk result (AreDescribed streams.new.items library.new) }
    ensures stops { (ls : List (List ℕ)) → IsFiled library.old ls
        → IfErr result (λ f. BlamesLine f line.now (numbers_of ls)) }
    ensures refused { IfErr result IsOfLine }
{
    if is_blank(line) {
        return Ok(());
    }
    match entry_of(line) {
        Some((id, path)) => {
            match load_stream(rt, alloc, library, streams, id, path, reason) {
                Ok(()) => Ok(()),
                Err(fault) => Err(fault),
            }
        }
        None => Err(ListFault::BadList),
    }
}

/// Files the advertisement of the stream at this path, and keeps what the system says of that. Where it cannot be opened, the system's reason
/// is kept.
fn load_stream<R: Files, M: Allocator + Copy>(
    rt: &R,
    alloc: M,
    library: &mut AdLibrary<M>,
    streams: &mut Vec<Metadata, M>,
    id: u16,
    path: &str,
    reason: &mut Option<io::Error>,
) -> Result<(), ListFault>
    ensures ok { OnOk result ((known : Option (List ℕ)) × FilesOne known library.old library.new id) }
    ensures described { OnOk result (length streams.new.items ≡ length streams.old.items + 1) }
    ensures stops { IfErr result (λ f. BlamesStream f (is_some (held library.old id))
        (index_map_len library.old.adverts)) }
    ensures refused { IfErr result IsOfLine }
{
    let (file, about) = match open_input(rt, path) {
        Ok(opened) => opened,
        Err(error) => {
            *reason = Some(error);
            return Err(ListFault::File);
        }
    };
    if streams.push(about).is_err() {
        return Err(ListFault::OutOfMemory);
    }
    match file_stream(alloc, library, id, file) {
        Ok(()) => Ok(()),
        Err(fault) => Err(fault),
    }
}

/// Files the advertisement that a reader gives.
fn file_stream<F: Read + Drop, M: Allocator + Copy>(
    alloc: M,
    library: &mut AdLibrary<M>,
    id: u16,
    file: F,
) -> Result<(), ListFault>
    ensures ok { OnOk result (FilesOne (F.remaining file) library.old library.new id) }
    ensures says { IfErr result (λ f. IfSome (F.remaining file) (SaysOf f)) }
    ensures stops { IfErr result (λ f. BlamesStream f (is_some (held library.old id))
        (index_map_len library.old.adverts)) }
    ensures refused { IfErr result IsOfLine }
{
    let Ok(reader) = BufReader::with_capacity(alloc, BUFFER_SIZE, file) else {
        return Err(ListFault::OutOfMemory);
    };
    let mut device = Device::new(reader);
    match file_device(library, id, &mut device) {
        Ok(()) => Ok(()),
        Err(fault) => Err(fault),
    }
}

/// Files the advertisement that a device gives.
fn file_device<S: Source, M: Allocator + Copy>(
    library: &mut AdLibrary<M>,
    id: u16,
    device: &mut S,
) -> Result<(), ListFault>
    ensures ok { OnOk result (FilesOne (S.remaining device.old) library.old library.new id) }
    ensures says { IfErr result (λ f. IfSome (S.remaining device.old) (SaysOf f)) }
    ensures stops { IfErr result (λ f. BlamesStream f (is_some (held library.old id))
        (index_map_len library.old.adverts)) }
    ensures refused { IfErr result IsOfLine }
    ensures read { OnOk result (LastMovedNone (S.counts device.old) (S.counts device.new)) }
    ensures reading { IfErr result (λ f. DeviceBlamed f (S.counts device.old) (S.counts device.new)) }
    ensures turns { result ≡ Err (ListFault.Ad (AdFault.Packets ReadFault.Turns))
        → StallsOver S.counts S.remaining device.old device.new }
    ensures at { IfErr result (λ f. DeviceStopsAt S.counts S.remaining f device.old device.new) }
{
    let mut packets = PacketReader::new(device);
    match library.add(id, &mut packets) {
        Ok(()) => Ok(()),
        Err(AdFault::OutOfMemory) => Err(ListFault::OutOfMemory),
        Err(fault) => Err(ListFault::Ad(fault)),
    }
}
