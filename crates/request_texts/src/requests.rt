//! What an automation system asks for, and the bytes of its message.

ghost use Rattle.std.specs.Prelude.{◌≡◌};
ghost use Rattle.request_texts.specs.Requests.{start_data, end_data, cancel_data, AsksFor};

use arrayvec::ArrayVec;
use scte104_codec::{Head, SpliceRequest, write_alive_request, write_init_request, write_request};
use wire_fields::put;

/// A break that is to start, by its `splice_request_data`.
#[derive(Clone, Copy, Debug, PartialEq, Eq)]
pub struct BreakStart {
    /// `splice_event_id`.
    pub event: u32,
    /// `unique_program_id`: the number of the advertisement.
    pub program_id: u16,
    /// `pre_roll_time`: how long before the start the message comes, in milliseconds.
    pub pre_roll: u16,
    /// `break_duration`, in tenths of a second.
    pub duration: u16,
    /// `avail_num`.
    pub avail: u8,
    /// `avails_expected`.
    pub avails: u8,
    /// `auto_return_flag`: whether the break ends by itself.
    pub auto_return: bool,
}

/// A break that is to end early.
#[derive(Clone, Copy, Debug, PartialEq, Eq)]
pub struct BreakEnd {
    /// `splice_event_id`.
    pub event: u32,
    /// `pre_roll_time`: how long before the end the message comes, in milliseconds.
    pub pre_roll: u16,
}

/// What a message asks for.
#[derive(Clone, Copy, Debug, PartialEq, Eq)]
pub enum RequestKind {
    /// A `splice_request` that starts a break: `splice_insert_type` 1, start normal.
    Start(BreakStart),
    /// One that ends a break early: `splice_insert_type` 3, end normal.
    End(BreakEnd),
    /// One that cancels the break of this `splice_event_id`: `splice_insert_type` 5.
    Cancel(u32),
    /// An `init_request`.
    Init,
    /// An `alive_request` without data.
    Alive,
}

/// The data of a request that starts a break.
fn start_data(start: BreakStart) -> SpliceRequest
    ensures { result ≡ start_data start }
{
    SpliceRequest {
        splice_insert_type: 1,
        splice_event_id: start.event,
        unique_program_id: start.program_id,
        pre_roll_time: start.pre_roll,
        break_duration: start.duration,
        avail_num: start.avail,
        avails_expected: start.avails,
        auto_return: start.auto_return,
    }
}

/// The data of a request that ends a break early: the fields that say nothing of an end are 0.
fn end_data(end: BreakEnd) -> SpliceRequest
    ensures { result ≡ end_data end }
{
    SpliceRequest {
        splice_insert_type: 3,
        splice_event_id: end.event,
        unique_program_id: 0,
        pre_roll_time: end.pre_roll,
        break_duration: 0,
        avail_num: 0,
        avails_expected: 0,
        auto_return: false,
    }
}

/// The data of a request that cancels a break: all other fields are 0.
fn cancel_data(event: u32) -> SpliceRequest
    ensures { result ≡ cancel_data event }
{
    SpliceRequest {
        splice_insert_type: 5,
        splice_event_id: event,
        unique_program_id: 0,
        pre_roll_time: 0,
        break_duration: 0,
        avail_num: 0,
        avails_expected: 0,
        auto_return: false,
    }
}

/// The bytes of a message without data, with the room that a `splice_request` needs.
fn with_room(bytes: &ArrayVec<u8, 13>) -> ArrayVec<u8, 30>
    ensures { result.items ≡ bytes.now.items }
{
    let mut roomy = ArrayVec::new();
    put(&mut roomy, bytes.as_slice());
    roomy
}

/// The bytes of the message with this head that asks for this.
pub fn message_bytes(head: Head, kind: RequestKind) -> ArrayVec<u8, 30>
    ensures { AsksFor result.items head kind }
{
    match kind {
        RequestKind::Start(start) => write_request(head, start_data(start)),
        RequestKind::End(end) => write_request(head, end_data(end)),
        RequestKind::Cancel(event) => write_request(head, cancel_data(event)),
        RequestKind::Init => with_room(&write_init_request(head)),
        RequestKind::Alive => with_room(&write_alive_request(head)),
    }
}
