// The command splice_insert().
ghost use Rattle.std.specs.Prelude.{◌≡◌, option_map};
ghost use Rattle.scte35_codec.specs.Fields.{front};
ghost use Rattle.scte35_codec.specs.Insert.{splice_time_at, time_unless_at, duration_if_at, inserted_at, splice_insert_at, time_later};

use crate::fields::{byte, is_set, number16, number32, ticks};
use pes_time::Time33;

/// The fields of a `splice_insert()` of the whole program (ANSI/SCTE 35, splice_insert).
#[derive(Clone, Copy, Debug)]
pub struct SpliceInsert {
    /// `splice_event_id`.
    pub event: u32,
    /// `out_of_network_indicator`: whether the break begins, and not ends.
    pub out: bool,
    /// `pts_time` with `pts_adjustment` added, in 90 kHz ticks modulo 2^33. `None` where the splice is immediate, or
    /// where its time isn't specified.
    pub time: Option<Time33>,
    /// `break_duration()`: whether the return is automatic, and the duration in 90 kHz ticks.
    pub length: Option<(bool, Time33)>,
    /// `unique_program_id`.
    pub program: u16,
    /// `avail_num`.
    pub avail: u8,
    /// `avails_expected`.
    pub expected: u8,
}

/// What a `splice_insert()` is.
#[derive(Clone, Copy, Debug)]
pub enum Command {
    /// With `splice_event_cancel_indicator`.
    Cancelled(u32),
    /// With times of single components, which aren't read.
    Components,
    /// Of the whole program, with `pts_time` as it stands.
    Inserted(SpliceInsert),
}

#[tactic(auto, unfolding(crate::specs::Insert::splice_time_at))]
fn splice_time(bytes: &[u8]) -> Option<(Option<Time33>, &[u8])>
    ensures { option_map front result ≡ splice_time_at bytes.now }
{
    let Some((first, rest)) = byte(bytes) else {
        return None;
    };
    if !is_set(first, 7) {
        return Some((None, rest));
    }
    let Some((_, time, rest)) = ticks(bytes) else {
        return None;
    };
    Some((Some(time), rest))
}

#[tactic(auto, unfolding(crate::specs::Insert::time_unless_at))]
fn time_unless(immediate: bool, bytes: &[u8]) -> Option<(Option<Time33>, &[u8])>
    ensures { option_map front result ≡ time_unless_at immediate bytes.now }
{
    if immediate {
        Some((None, bytes))
    } else {
        splice_time(bytes)
    }
}

#[tactic(auto, unfolding(crate::specs::Insert::duration_if_at))]
fn duration_if(given: bool, bytes: &[u8]) -> Option<(Option<(bool, Time33)>, &[u8])>
    ensures { option_map front result ≡ duration_if_at given bytes.now }
{
    if !given {
        return Some((None, bytes));
    }
    let Some((auto_return, duration, rest)) = ticks(bytes) else {
        return None;
    };
    Some((Some((auto_return, duration)), rest))
}

#[tactic(auto, unfolding(crate::specs::Insert::inserted_at))]
fn inserted(event: u32, flags: u8, bytes: &[u8]) -> Option<(SpliceInsert, &[u8])>
    ensures { option_map front result ≡ inserted_at event flags bytes.now }
{
    let Some((time, rest)) = time_unless(is_set(flags, 4), bytes) else {
        return None;
    };
    let Some((length, rest)) = duration_if(is_set(flags, 5), rest) else {
        return None;
    };
    let Some((program, rest)) = number16(rest) else {
        return None;
    };
    let Some((avail, rest)) = byte(rest) else {
        return None;
    };
    let Some((expected, rest)) = byte(rest) else {
        return None;
    };
    let out = is_set(flags, 7);
    let insert = SpliceInsert {
        event,
        out,
        time,
        length,
        program,
        avail,
        expected,
    };
    Some((insert, rest))
}

#[tactic(auto, unfolding(crate::specs::Insert::splice_insert_at))]
pub fn splice_insert(bytes: &[u8]) -> Option<(Command, &[u8])>
    ensures { option_map front result ≡ splice_insert_at bytes.now }
{
    let Some((event, rest)) = number32(bytes) else {
        return None;
    };
    let Some((cancel, rest)) = byte(rest) else {
        return None;
    };
    if is_set(cancel, 7) {
        return Some((Command::Cancelled(event), rest));
    }
    let Some((flags, rest)) = byte(rest) else {
        return None;
    };
    if !is_set(flags, 6) {
        return Some((Command::Components, rest));
    }
    let Some((insert, rest)) = inserted(event, flags, rest) else {
        return None;
    };
    Some((Command::Inserted(insert), rest))
}

/// The time moved by `pts_adjustment`.
pub fn adjusted(time: Option<Time33>, adjustment: Time33) -> Option<Time33>
    ensures { result ≡ time_later adjustment time }
{
    match time {
        None => None,
        Some(time) => Some(time.plus(adjustment.ticks())),
    }
}
