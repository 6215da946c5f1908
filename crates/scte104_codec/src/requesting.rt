//! The bytes of the messages by which an automation system asks.

ghost use Rattle.std.specs.Prelude.{◌≡◌, []};
ghost use Rattle.scte104_codec.specs.Reading.{message_of, init, alive};
ghost use Rattle.scte104_codec.specs.Requesting.{Asks, AsksPlainly, asking_bytes, plain_bytes};

use crate::head::Head;
use crate::operation_ids::{ALIVE_REQUEST, INIT_REQUEST, MULTIPLE_OPERATION, SPLICE_REQUEST};
use crate::requests::SpliceRequest;
use arrayvec::ArrayVec;
use wire_fields::{put, put_number16, put_number32};

/// The bytes of a `multiple_operation_message` without a time whose one operation is this `splice_request`: 30 bytes.
/// `protocol_version` and `SCTE35_protocol_version` are 0, and `auto_return_flag` is 1 for yes.
pub fn write_request(head: Head, request: SpliceRequest) -> ArrayVec<u8, 30>
    ensures bytes { result.items ≡ asking_bytes head request }
    ensures asks { Asks result.items head request }
{
    write_asking(head, request)
}

/// The same.
fn write_asking(head: Head, request: SpliceRequest) -> ArrayVec<u8, 30>
    ensures { result.items ≡ asking_bytes head request }
{
    let mut bytes = ArrayVec::new();
    put_number16(&mut bytes, MULTIPLE_OPERATION);
    put_number16(&mut bytes, 30);
    put(&mut bytes, &[0, head.as_index, head.number]);
    put_number16(&mut bytes, head.index);
    put(&mut bytes, &[0, 0, 1]);
    put_number16(&mut bytes, SPLICE_REQUEST);
    put_number16(&mut bytes, 14);
    put(&mut bytes, &[request.splice_insert_type]);
    put_number32(&mut bytes, request.splice_event_id);
    put_number16(&mut bytes, request.unique_program_id);
    put_number16(&mut bytes, request.pre_roll_time);
    put_number16(&mut bytes, request.break_duration);
    let auto_return_flag = if request.auto_return { 1 } else { 0 };
    put(
        &mut bytes,
        &[request.avail_num, request.avails_expected, auto_return_flag],
    );
    bytes
}

/// The bytes of an `init_request`: 13 bytes.
pub fn write_init_request(head: Head) -> ArrayVec<u8, 13>
    ensures asks { AsksPlainly result.items 0x0001 head }
    ensures read { message_of result.items ≡ init head }
{
    write_plain(INIT_REQUEST, head)
}

/// The bytes of an `alive_request` without data: 13 bytes.
pub fn write_alive_request(head: Head) -> ArrayVec<u8, 13>
    ensures asks { AsksPlainly result.items 0x0003 head }
    ensures read { message_of result.items ≡ alive head [] }
{
    write_plain(ALIVE_REQUEST, head)
}

/// The bytes of a `single_operation_message` without data. `result` and `result_extension` are 0xFFFF, as in all requests.
fn write_plain(op: u16, head: Head) -> ArrayVec<u8, 13>
    ensures { result.items ≡ plain_bytes op head }
{
    let mut bytes = ArrayVec::new();
    put_number16(&mut bytes, op);
    put_number16(&mut bytes, 13);
    put_number16(&mut bytes, 0xFFFF);
    put_number16(&mut bytes, 0xFFFF);
    put(&mut bytes, &[0, head.as_index, head.number]);
    put_number16(&mut bytes, head.index);
    bytes
}
