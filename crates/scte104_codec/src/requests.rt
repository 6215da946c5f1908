//! The data of the operations that ask for a break.

ghost use Rattle.std.specs.Prelude.{◌≡◌, ◌+◌, ◌*◌, Some, length, slice_index};
ghost use Rattle.scte104_codec.specs.Requests.{splice_request_of, avail_ids_of};

use wire_fields::{bytes_from, number16, number32};

/// `splice_request_data`, by its fields.
#[derive(Clone, Copy, Debug, PartialEq, Eq)]
pub struct SpliceRequest {
    /// `splice_insert_type`: 1 start normal, 2 start immediate, 3 end normal, 4 end immediate, 5 cancel.
    pub splice_insert_type: u8,
    /// `splice_event_id`.
    pub splice_event_id: u32,
    /// `unique_program_id`.
    pub unique_program_id: u16,
    /// `pre_roll_time`, in milliseconds.
    pub pre_roll_time: u16,
    /// `break_duration`, in tenths of a second.
    pub break_duration: u16,
    /// `avail_num`.
    pub avail_num: u8,
    /// `avails_expected`.
    pub avails_expected: u8,
    /// `auto_return_flag`: 0 is no, any other value yes.
    pub auto_return: bool,
}

impl SpliceRequest {
    /// Reads the data of a `splice_request`, 14 bytes.
    #[tactic(auto, unfolding(crate::specs::Requests::splice_request_of))]
    pub(crate) fn of_data(bytes: &[u8]) -> SpliceRequest
        requires { length bytes.now ≡ 14 }
        ensures { splice_request_of bytes.now ≡ Some result }
    {
        SpliceRequest {
            splice_insert_type: bytes[0],
            splice_event_id: number32(bytes, 1),
            unique_program_id: number16(bytes, 5),
            pre_roll_time: number16(bytes, 7),
            break_duration: number16(bytes, 9),
            avail_num: bytes[11],
            avails_expected: bytes[12],
            auto_return: bytes[13] != 0,
        }
    }
}

/// The ids of an `insert_avail_descriptor_request_data` in order: each is a `provider_avail_id`.
#[derive(Clone, Copy, Debug)]
pub struct AvailIds<'a> {
    count: u8,
    bytes: &'a [u8],
}

impl<'a> AvailIds<'a> {
    ghost use Rattle.scte104_codec.specs.AvailIdsLeft.{avail_ids_left};

    /// Reads the data of an `insert_avail_descriptor`: a count and as many ids of four bytes.
    #[tactic(auto, unfolding(crate::specs::Requests::avail_ids_of, crate::specs::AvailIdsLeft::avail_ids_left))]
    pub(crate) fn of_data(bytes: &'a [u8]) -> AvailIds<'a>
        requires { length bytes.now ≡ 1 + 4 * slice_index bytes.now 0 }
        ensures { avail_ids_of bytes.now ≡ Some (avail_ids_left result) }
    {
        AvailIds {
            count: bytes[0],
            bytes: bytes_from(bytes, 1),
        }
    }
}

impl<'a> Iterator for AvailIds<'a> {
    ghost use Rattle.std.specs.Iterator.{YieldsFirst, item_count};
    ghost use Rattle.scte104_codec.specs.AvailIdsLeft.{avail_ids_left};

    type Item = u32;

    ghost next_gives = { YieldsFirst avail_ids_left };

    ghost remaining = { item_count avail_ids_left };

    #[tactic(auto, unfolding(crate::specs::AvailIdsLeft::avail_ids_left), using(crate::proofs::RequestLemmas::ids_ended, crate::proofs::RequestLemmas::ids_short, crate::proofs::RequestLemmas::ids_more))]
    fn next(&mut self) -> Option<u32> {
        if self.count == 0 || self.bytes.len() < 4 {
            return None;
        }
        let id = number32(self.bytes, 0);
        self.count -= 1;
        self.bytes = bytes_from(self.bytes, 4);
        Some(id)
    }
}
