//! A `multiple_operation_message`, and what its operations ask for.

ghost use Rattle.std.specs.Prelude.{◌≡◌, ◌+◌, ◌≤◌, ◌++◌, ◌↔◌, IsTrue, length};
ghost use Rattle.std.specs.Bool.{OnTrue};
ghost use Rattle.arrayvec.specs.ArrayVec.{array_vec_len};
ghost use Rattle.scte104_codec.specs.AvailIdsLeft.{avail_ids_left};
ghost use Rattle.scte104_codec.specs.Asked.{is_known};

use crate::head::Head;
use crate::operation_ids::{
    INSERT_AVAIL_DESCRIPTOR, INSERT_DESCRIPTOR, INSERT_SEGMENTATION_DESCRIPTOR, INSERT_TIER,
    SPLICE_REQUEST,
};
use crate::operations::Operations;
use crate::requests::{AvailIds, SpliceRequest};
use arrayvec::ArrayVec;

/// The fields of a `multiple_operation_message`.
#[derive(Clone, Copy, Debug)]
pub struct Multi<'a> {
    /// `AS_index`, `message_number` and `DPI_PID_index`.
    pub head: Head,
    /// `protocol_version`.
    pub version: u8,
    /// `SCTE35_protocol_version`.
    pub cue_version: u8,
    /// `time_type` of `timestamp()`: 0 where the message has no time. A message with another value isn't read past this
    /// field.
    pub time_kind: u8,
    /// The operations in order. None where the message has a time.
    pub operations: Operations<'a>,
}

/// Whether this profile knows the `opID` of an operation.
#[tactic(auto, unfolding(crate::specs::Asked::is_known))]
fn is_known_id(op: u16) -> bool
    ensures { result ≡ is_known op }
{
    matches!(
        op,
        SPLICE_REQUEST
            | INSERT_DESCRIPTOR
            | INSERT_AVAIL_DESCRIPTOR
            | INSERT_SEGMENTATION_DESCRIPTOR
            | INSERT_TIER
    )
}

/// Adds the ids behind those that are there, and answers false where they don't fit.
fn add_ids<const N: usize>(ids: &mut ArrayVec<u32, N>, more: AvailIds<'_>) -> bool
    requires { array_vec_len ids.old ≤ N }
    ensures fits { IsTrue result ↔ (array_vec_len ids.old + length (avail_ids_left more.entry) ≤ N) }
    ensures added { OnTrue result (ids.new.items ≡ ids.old.items ++ avail_ids_left more.entry) }
{
    for id in more {
        if ids.try_push(id).is_err() {
            return false;
        }
    }
    true
}

impl<'a> Multi<'a> {
    ghost use Rattle.std.specs.Prelude.{IfSome, IsNone, ◌<◌};
    ghost use Rattle.scte104_codec.specs.OperationsLeft.{operations_left};
    ghost use Rattle.scte104_codec.specs.Asked.{all_known, splice_requests, avail_ids};
    ghost use Rattle.scte104_codec.specs.RequestsLeft.{splice_requests_left};

    /// Whether this profile knows each operation. Besides `splice_request` and `insert_avail_descriptor` it knows
    /// `insert_descriptor`, `insert_segmentation_descriptor` and `insert_tier`, which ask for nothing that it serves.
    pub fn is_known(&self) -> bool
        ensures { result ≡ all_known (operations_left self.now.operations) }
    {
        for (op, _) in self.operations {
            if !is_known_id(op) {
                return false;
            }
        }
        true
    }

    /// The `splice_request`s among the operations, in order.
    #[tactic(auto, unfolding(crate::specs::RequestsLeft::splice_requests_left))]
    pub fn splice_requests(&self) -> SpliceRequests<'a>
        ensures { splice_requests_left result ≡ splice_requests (operations_left self.now.operations) }
    {
        SpliceRequests {
            operations: self.operations,
        }
    }

    /// The avail ids of all `insert_avail_descriptor`s, in order. `None` where there are more than `N`.
    pub fn avail_ids<const N: usize>(&self) -> Option<ArrayVec<u32, N>>
        ensures all { IfSome result (λ ids. ids.items ≡ avail_ids (operations_left self.now.operations)) }
        ensures many { IsNone result ↔ (N < length (avail_ids (operations_left self.now.operations))) }
    {
        let mut ids = ArrayVec::new();
        for (op, data) in self.operations {
            if op == INSERT_AVAIL_DESCRIPTOR && !add_ids(&mut ids, AvailIds::of_data(data)) {
                return None;
            }
        }
        Some(ids)
    }
}

/// The `splice_request`s of a message, in order: an iterator.
#[derive(Clone, Copy, Debug)]
pub struct SpliceRequests<'a> {
    operations: Operations<'a>,
}

impl<'a> Iterator for SpliceRequests<'a> {
    ghost use Rattle.std.specs.Iterator.{YieldsFirst, item_count};
    ghost use Rattle.scte104_codec.specs.RequestsLeft.{splice_requests_left};

    type Item = SpliceRequest;

    ghost next_gives = { YieldsFirst splice_requests_left };

    ghost remaining = { item_count splice_requests_left };

    fn next(&mut self) -> Option<SpliceRequest> {
        while let Some((op, data)) = self.operations.next() {
            if op == SPLICE_REQUEST {
                return Some(SpliceRequest::of_data(data));
            }
        }
        None
    }
}
