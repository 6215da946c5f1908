//! The requests of lines.

ghost use Rattle.std.specs.Prelude.{◌≡◌};
ghost use Rattle.break_plans.specs.Requests.{start_request, end_request, cancel_request};

use scte104_codec::SpliceRequest;

/// The start of a break, a `splice_insert_type`.
const START_NORMAL: u8 = 1;

/// The end of a break, a `splice_insert_type`.
const END_NORMAL: u8 = 3;

/// A cancel, a `splice_insert_type`.
const CANCEL: u8 = 5;

/// The start of a break with an advertisement, so many milliseconds ahead, that lasts so many tenths of a second.
pub(crate) fn start_request(event: u32, advert: u16, pre_roll: u16, tenths: u16) -> SpliceRequest
    ensures { result ≡ start_request event advert pre_roll tenths }
{
    SpliceRequest {
        splice_insert_type: START_NORMAL,
        splice_event_id: event,
        unique_program_id: advert,
        pre_roll_time: pre_roll,
        break_duration: tenths,
        avail_num: 0,
        avails_expected: 0,
        auto_return: true,
    }
}

/// The end of a break, so many milliseconds ahead.
pub(crate) fn end_request(event: u32, pre_roll: u16) -> SpliceRequest
    ensures { result ≡ end_request event pre_roll }
{
    SpliceRequest {
        splice_insert_type: END_NORMAL,
        ..start_request(event, 0, pre_roll, 0)
    }
}

/// The cancel of a break.
pub(crate) fn cancel_request(event: u32) -> SpliceRequest
    ensures { result ≡ cancel_request event }
{
    SpliceRequest {
        splice_insert_type: CANCEL,
        ..start_request(event, 0, 0, 0)
    }
}
