ghost use Rattle.std.specs.Prelude.{◌≡◌, ◌<◌, ◌≤◌, length, option_map};
ghost use Rattle.scte35_codec.specs.AvailsLeft.{avails_left};
ghost use Rattle.scte35_codec.specs.Descriptors.{avails_of};
ghost use Rattle.scte35_codec.specs.Reading.{CueReading, pts_adjustment, splice_command_length, command_part};
ghost use Rattle.scte35_codec.specs.Reading.{behind_command, splice_insert_of, cue_of};
ghost use Rattle.scte35_codec.specs.Grammar.{Spells};
ghost use Rattle.scte35_codec.specs.Views.{reading_of};

use crate::descriptors::{Avails, descriptor_loop};
use crate::fields::{is_set, low_33_bits};
use crate::insert::{Command, SpliceInsert, adjusted, splice_insert};
use byteorder::{BigEndian, ByteOrder};
use pes_time::Time33;
use psi_section::section_length;
use thiserror::Error;

/// A `splice_info_section` that was read. Its avails lie in the bytes that it was read from.
#[derive(Clone, Copy, Debug)]
pub enum Cue<'a> {
    /// `splice_insert()` of the whole program, and the `provider_avail_id` of each `avail_descriptor`.
    Insert(SpliceInsert, Avails<'a>),
    /// `splice_insert()` with `splice_event_cancel_indicator`: the `splice_event_id` of the event that is taken back.
    Cancel(u32),
    /// `splice_null()`.
    Null,
    /// A command that isn't read: another `splice_command_type`, or a `splice_insert()` with times of single
    /// components.
    Other,
}

/// Why bytes are no cue that can be read: the first that applies, in this order.
#[derive(Clone, Copy, Debug, PartialEq, Eq, Error)]
pub enum CueFault {
    /// `table_id` isn't 0xFC, or there are fewer than 20 bytes.
    #[error("not a splice_info_section")]
    NotCue,
    /// `section_length` isn't the number of bytes behind it.
    #[error("a section_length that isn't the section's")]
    Length,
    /// `protocol_version` isn't 0.
    #[error("a protocol_version other than 0")]
    Version,
    /// `encrypted_packet` is set.
    #[error("an encrypted section")]
    Encrypted,
    /// A `splice_insert()` that runs past the section, whose `splice_command_length` is neither its own nor 0xFFF, or
    /// whose descriptors don't fill their loop.
    #[error("a malformed splice_insert")]
    Command,
}

/// `splice_command_type` of `splice_null()`.
const SPLICE_NULL: u8 = 0x00;

/// `splice_command_type` of `splice_insert()`.
const SPLICE_INSERT: u8 = 0x05;

/// A `splice_command_length` that states none.
const UNSTATED: usize = 0xFFF;

#[tactic(auto, unfolding(crate::specs::Reading::splice_command_length, wire_fields::specs::Numbers::number_of))]
fn stated_command_length(bytes: &[u8]) -> usize
    requires { 20 ≤ length bytes.now }
    ensures value { result ≡ splice_command_length bytes.now }
    ensures below { result < 4096 }
{
    let (_, rest) = bytes.split_at(10);
    BigEndian::read_uint(rest, 3) as usize % 0x1000
}

#[tactic(auto, unfolding(crate::specs::Reading::pts_adjustment))]
fn adjustment_of(bytes: &[u8]) -> Time33
    requires { 20 ≤ length bytes.now }
    ensures { result ≡ pts_adjustment bytes.now }
{
    let (_, rest) = bytes.split_at(4);
    low_33_bits(rest)
}

/// What stands between `splice_command_type` and `CRC_32`.
#[tactic(auto, unfolding(crate::specs::Reading::command_part))]
fn command_of(bytes: &[u8]) -> &[u8]
    requires { 20 ≤ length bytes.now }
    ensures { result.now ≡ command_part bytes.now }
{
    let (_, rest) = bytes.split_at(14);
    let (part, _) = rest.split_at(rest.len() - 4);
    part
}

/// The avails behind a command that has the length that is stated for it.
#[tactic(auto, unfolding(crate::specs::Reading::behind_command))]
fn avails_behind(stated: usize, size: usize, rest: &[u8]) -> Option<Avails<'_>>
    requires { stated < 4096 }
    ensures { option_map avails_left result ≡ option_map avails_of (behind_command stated size rest.now) }
{
    if stated != UNSTATED && stated + rest.len() != size {
        return None;
    }
    descriptor_loop(rest)
}

#[tactic(auto, unfolding(crate::specs::Reading::splice_insert_of))]
fn read_splice_insert(bytes: &[u8]) -> Result<Cue<'_>, CueFault>
    requires { 20 ≤ length bytes.now }
    ensures { reading_of result ≡ splice_insert_of bytes.now }
{
    let stated = stated_command_length(bytes);
    let part = command_of(bytes);
    let Some((command, rest)) = splice_insert(part) else {
        return Err(CueFault::Command);
    };
    match command {
        Command::Components => Ok(Cue::Other),
        Command::Cancelled(event) => match avails_behind(stated, part.len(), rest) {
            None => Err(CueFault::Command),
            Some(_) => Ok(Cue::Cancel(event)),
        },
        Command::Inserted(insert) => match avails_behind(stated, part.len(), rest) {
            None => Err(CueFault::Command),
            Some(avails) => {
                let time = adjusted(insert.time, adjustment_of(bytes));
                Ok(Cue::Insert(SpliceInsert { time, ..insert }, avails))
            }
        },
    }
}

#[tactic(auto, unfolding(crate::specs::Reading::cue_of))]
fn read_section(bytes: &[u8]) -> Result<Cue<'_>, CueFault>
    ensures { reading_of result ≡ cue_of bytes.now }
{
    if bytes.len() < 20 || bytes[0] != 0xFC {
        return Err(CueFault::NotCue);
    }
    if section_length(bytes) + 3 != bytes.len() {
        return Err(CueFault::Length);
    }
    if bytes[3] != 0 {
        return Err(CueFault::Version);
    }
    if is_set(bytes[4], 7) {
        return Err(CueFault::Encrypted);
    }
    match bytes[13] {
        SPLICE_NULL => Ok(Cue::Null),
        SPLICE_INSERT => read_splice_insert(bytes),
        _ => Ok(Cue::Other),
    }
}

/// Reads a `splice_info_section`, from `table_id` to `CRC_32`. `CRC_32` isn't checked here, since the assembler of sections does so.
///
/// # Errors
///
/// The first fault that applies, in the order of [`CueFault`].
pub fn read(bytes: &[u8]) -> Result<Cue<'_>, CueFault>
    // The cue by its fields, or the first fault.
    ensures exact { reading_of result ≡ cue_of bytes.now }

    // What is read is in the grammar, and nothing else that these bytes spell.
    ensures spelled { Spells (reading_of result) bytes.now }
    ensures only { (other : CueReading) → Spells other bytes.now → reading_of result ≡ other }
{
    read_section(bytes)
}
