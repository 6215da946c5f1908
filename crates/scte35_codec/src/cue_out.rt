//! The cues of our own.

ghost use Rattle.std.specs.Prelude.{◌≡◌, ◌+◌, ◌*◌, ◌≤◌, ◌++◌, length};
ghost use Rattle.std.specs.List.{flat_map};
ghost use Rattle.arrayvec.specs.ArrayVec.{array_vec_len};
ghost use Rattle.psi_section.specs.Crc.{crc};
ghost use Rattle.scte35_codec.specs.Spelling.{head_bytes, ticks_bytes, avail_descriptor_bytes, unchecked_bytes, cue_bytes};

use arrayvec::ArrayVec;
use byteorder::{BigEndian, ByteOrder};
use pes_time::Time33;
use psi_section::seal;
use wire_fields::{put, put_number16, put_number32};

/// A cue to be written, as a `splice_insert()` of the whole program.
#[derive(Debug, Drop)]
pub enum CueOut {
    /// The break begins, with automatic return at its end. 40 bytes and 10 for each avail.
    Start {
        /// `splice_event_id`.
        event: u32,
        /// `pts_time`, in 90 kHz ticks modulo 2^33.
        time: Time33,
        /// The duration of the break, in 90 kHz ticks.
        length: Time33,
        /// `unique_program_id`.
        program: u16,
        /// `avail_num`.
        avail: u8,
        /// `avails_expected`.
        expected: u8,
        /// The `provider_avail_id` of an `avail_descriptor` each, in order.
        avails: ArrayVec<u32, 14>,
    },
    /// The event is cancelled. 25 bytes.
    Cancel {
        /// `splice_event_id`.
        event: u32,
    },
    /// The break ends, at this time. 35 bytes.
    End {
        /// `splice_event_id`.
        event: u32,
        /// `pts_time`, in 90 kHz ticks modulo 2^33.
        time: Time33,
    },
}

/// A flag that is set, six reserved bits and 33 bits of ticks.
fn put_ticks(out: &mut ArrayVec<u8, 180>, ticks: Time33)
    requires { array_vec_len out.old + 5 ≤ 180 }
    ensures { out.new.items ≡ out.old.items ++ ticks_bytes ticks }
{
    let mut bytes = [0; 5];
    BigEndian::write_uint(&mut bytes, 127 * (1 << 33) + ticks.ticks(), 5);
    put(out, &bytes);
}

/// From `table_id` to `splice_command_type`.
fn put_head(out: &mut ArrayVec<u8, 180>, command: u16, descriptors: u16)
    requires room { array_vec_len out.old + 14 ≤ 180 }
    requires command_fits { command ≤ 20 }
    requires descriptors_fit { descriptors ≤ 140 }
    ensures { out.new.items ≡ out.old.items ++ head_bytes command descriptors }
{
    let mut lengths = [0; 3];
    BigEndian::write_u24(&mut lengths, 0xFF_F000 + command as u32);
    put(out, &[0xFC]);
    put_number16(out, 0x3000 + (17 + command + descriptors));
    put(out, &[0, 0, 0, 0, 0, 0, 0xFF]);
    put(out, &lengths);
    put(out, &[0x05]);
}

fn put_avails(out: &mut ArrayVec<u8, 180>, avails: &[u32])
    requires { array_vec_len out.old + 10 * length avails.now ≤ 180 }
    ensures { out.new.items ≡ out.old.items ++ flat_map avail_descriptor_bytes avails.now }
{
    for id in avails {
        put(out, &[0x00, 8, b'C', b'U', b'E', b'I']);
        put_number32(out, *id);
    }
}

/// Puts the section without its `CRC_32`.
#[tactic(auto, unfolding(crate::specs::Spelling::unchecked_bytes))]
fn put_unchecked(cue: &CueOut, out: &mut ArrayVec<u8, 180>)
    requires { array_vec_len out.old ≡ 0 }
    ensures spelled { out.new.items ≡ unchecked_bytes cue.now }
    ensures size { array_vec_len out.new ≤ 176 }
{
    match cue {
        CueOut::Start {
            event,
            time,
            length,
            program,
            avail,
            expected,
            avails,
        } => {
            let descriptors = 10 * avails.len() as u16;
            put_head(out, 20, descriptors);
            put_number32(out, *event);
            put(out, &[0x7F, 0xEF]);
            put_ticks(out, *time);
            put_ticks(out, *length);
            put_number16(out, *program);
            put(out, &[*avail, *expected]);
            put_number16(out, descriptors);
            put_avails(out, avails.as_slice());
        }
        CueOut::Cancel { event } => {
            put_head(out, 5, 0);
            put_number32(out, *event);
            put(out, &[0xFF, 0, 0]);
        }
        CueOut::End { event, time } => {
            put_head(out, 15, 0);
            put_number32(out, *event);
            put(out, &[0x7F, 0x4F]);
            put_ticks(out, *time);
            put(out, &[0, 0, 0, 0, 0, 0]);
        }
    }
}

/// Writes the one `splice_info_section` that spells the cue, from `table_id` to `CRC_32`, in place of what the buffer
/// holds (ANSI/SCTE 35, splice_info_section and splice_insert).
#[tactic(auto, unfolding(crate::specs::Spelling::cue_bytes))]
pub fn write(cue: &CueOut, out: &mut ArrayVec<u8, 180>)
    ensures spelled { out.new.items ≡ cue_bytes cue.now }
    ensures checked { crc out.new.items ≡ 0 }
{
    out.clear();
    put_unchecked(cue, out);
    seal(out);
}
