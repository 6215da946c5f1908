//! What a section of cues says of its kind, also where its command is not read (ANSI/SCTE 35, 9.6.1, 9.7.4 and 10.2).

ghost use Rattle.std.specs.Prelude.{◌≡◌};
ghost use Rattle.stream_facts.specs.Commands.{is_clear, command_of, kind_of};

use pes_time::Time33;
use std::alloc::{AllocError, Global};

/// What a splice_info_section is for, by its splice_command_type.
#[derive(Clone, Copy, Debug, PartialEq, Eq)]
pub enum SpliceCommand {
    /// splice_null.
    Null,
    /// splice_schedule.
    Schedule,
    /// splice_insert.
    Insert,
    /// time_signal.
    TimeSignal,
    /// bandwidth_reservation.
    BandwidthReservation,
    /// private_command.
    Private,
    /// A type that is reserved.
    Reserved,
}

/// A splice_descriptor of a section.
#[derive(Clone, Copy, Debug, PartialEq, Eq)]
pub struct SpliceDescriptor {
    /// Its splice_descriptor_tag.
    pub tag: u8,
    /// Its identifier is `CUEI`, so that its tag is one of the standard.
    pub is_standard: bool,
}

/// A splice_command_length that states none.
const UNSTATED: usize = 0xFFF;

/// The identifier of the descriptors of the standard.
const CUEI: &[u8] = b"CUEI";

/// What a splice_info_section is for; `None` where bytes are none, or one that is encrypted.
pub fn command_of(section: &[u8]) -> Option<SpliceCommand>
    ensures { result ≡ command_of section.now }
{
    if is_clear(section) {
        Some(kind_of(section[13]))
    } else {
        None
    }
}

/// Whether bytes are a splice_info_section that is not encrypted.
fn is_clear(section: &[u8]) -> bool
    ensures { result ≡ is_clear section.now }
{
    section.len() >= 20 && section[0] == 0xFC && section[4] < 128
}

/// What a splice_command_type stands for.
fn kind_of(number: u8) -> SpliceCommand
    ensures { result ≡ kind_of number }
{
    match number {
        0x00 => SpliceCommand::Null,
        0x04 => SpliceCommand::Schedule,
        0x05 => SpliceCommand::Insert,
        0x06 => SpliceCommand::TimeSignal,
        0x07 => SpliceCommand::BandwidthReservation,
        0xFF => SpliceCommand::Private,
        _ => SpliceCommand::Reserved,
    }
}

/// A number of some bytes, the first of which counts most; 0 where one of them is not there.
fn number_at(bytes: &[u8], place: usize, size: usize) -> u64 {
    let mut number: u64 = 0;
    for byte in bytes.get(place..place.saturating_add(size)).unwrap_or(&[]) {
        number = number.wrapping_mul(256).wrapping_add(u64::from(*byte));
    }
    number
}

/// The time of a time_signal, moved by the section's pts_adjustment; `None` where it has none.
pub fn signal_time(section: &[u8]) -> Option<Time33> {
    if command_of(section) != Some(SpliceCommand::TimeSignal) || section[14] < 128 {
        return None;
    }
    let time = number_at(section, 14, 5) % (1 << 33);
    let adjustment = number_at(section, 4, 5) % (1 << 33);
    Time33::new((time + adjustment) % (1 << 33))
}

/// Where the descriptors of a section begin; `None` where its command's length is not stated and not known.
fn loop_place(section: &[u8], command: SpliceCommand) -> Option<usize> {
    let stated = number_at(section, 10, 3) as usize % 0x1000;
    if stated != UNSTATED {
        return Some(14 + stated);
    }
    match command {
        SpliceCommand::TimeSignal if number_at(section, 14, 1) >= 128 => Some(19),
        SpliceCommand::TimeSignal => Some(15),
        SpliceCommand::Null | SpliceCommand::BandwidthReservation => Some(14),
        _ => None,
    }
}

/// The bytes of the descriptors of a section, which is not encrypted.
fn descriptor_loop(section: &[u8], command: SpliceCommand) -> &[u8] {
    let Some(place) = loop_place(section, command) else {
        return &[];
    };
    let size = number_at(section, place, 2) as usize;
    let start = place.saturating_add(2);
    let end = start.saturating_add(size);
    if end > section.len().saturating_sub(4) {
        return &[];
    }
    section.get(start..end).unwrap_or(&[])
}

/// The descriptors of a splice_info_section, in order.
///
/// # Errors
///
/// Where the allocator refused memory.
pub fn descriptors_of(alloc: Global, section: &[u8]) -> Result<Vec<SpliceDescriptor>, AllocError> {
    let mut found = Vec::new(alloc);
    let Some(command) = command_of(section) else {
        return Ok(found);
    };
    let mut rest = descriptor_loop(section, command);
    while let [tag, size, behind @ ..] = rest {
        let size = *size as usize;
        let Some(body) = behind.get(..size) else {
            return Ok(found);
        };
        let is_standard = body.get(..4) == Some(CUEI);
        found.push(SpliceDescriptor {
            tag: *tag,
            is_standard,
        })?;
        rest = behind.get(size..).unwrap_or(&[]);
    }
    Ok(found)
}
