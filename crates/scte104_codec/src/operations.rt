//! The operations of a `multiple_operation_message`: of each `opID`, `data_length` and the data.

ghost use Rattle.std.specs.Prelude.{◌≡◌, IsTrue, option_map, is_some};
ghost use Rattle.scte104_codec.specs.Operations.{taken, operation_at, operations_in, operations_from, is_well_formed, are_well_formed};

use crate::operation_ids::{INSERT_AVAIL_DESCRIPTOR, SPLICE_REQUEST};
use wire_fields::number16;

/// The operations of a `multiple_operation_message`, in order: an iterator over the `opID` and the data of each. The
/// data lie in the message.
#[derive(Clone, Copy, Debug)]
pub struct Operations<'a> {
    count: u8,
    bytes: &'a [u8],
    pub ghost well_formed: { IsTrue (are_well_formed (operations_from count bytes.now)) },
}

#[tactic(auto, unfolding(crate::specs::Operations::operation_at))]
fn first_of(bytes: &[u8]) -> Option<(u16, &[u8], &[u8])>
    ensures { option_map taken result ≡ operation_at bytes.now }
{
    if bytes.len() < 4 {
        return None;
    }
    let (_, rest) = bytes.split_at(4);
    let size = number16(bytes, 2) as usize;
    if rest.len() < size {
        return None;
    }
    let (data, after) = rest.split_at(size);
    Some((number16(bytes, 0), data, after))
}

#[tactic(auto, unfolding(crate::specs::Operations::is_well_formed))]
fn has_its_size(op: u16, body: &[u8]) -> bool
    ensures { result ≡ is_well_formed (record { op = op; body = body.now }) }
{
    match op {
        SPLICE_REQUEST => body.len() == 14,
        INSERT_AVAIL_DESCRIPTOR => !body.is_empty() && body.len() == 1 + 4 * body[0] as usize,
        _ => true,
    }
}

/// Whether this many operations, each of the size that its `opID` has, fill the bytes exactly.
fn fill(count: u8, bytes: &[u8]) -> bool
    ensures { result ≡ is_some (operations_in count bytes.now) }
{
    let mut rest = bytes;
    for _ in 0..count {
        let Some((op, data, after)) = first_of(rest) else {
            return false;
        };
        if !has_its_size(op, data) {
            return false;
        }
        rest = after;
    }
    rest.is_empty()
}

impl<'a> Operations<'a> {
    ghost use Rattle.std.specs.Prelude.{[]};
    ghost use Rattle.scte104_codec.specs.OperationsLeft.{operations_left};

    #[tactic(auto, unfolding(crate::specs::OperationsLeft::operations_left, crate::specs::Operations::operations_from))]
    pub(crate) fn none(bytes: &'a [u8]) -> Operations<'a>
        ensures { operations_left result ≡ [] }
    {
        Operations { count: 0, bytes }
    }

    #[tactic(auto, unfolding(crate::specs::OperationsLeft::operations_left), using(crate::proofs::OperationLemmas::left_all))]
    pub(crate) fn all(count: u8, bytes: &'a [u8]) -> Option<Operations<'a>>
        ensures { option_map operations_left result ≡ operations_in count bytes.now }
    {
        if fill(count, bytes) {
            Some(Operations { count, bytes })
        } else {
            None
        }
    }
}

impl<'a> Iterator for Operations<'a> {
    ghost use Rattle.std.specs.Iterator.{YieldsFirstBy, item_count};
    ghost use Rattle.scte104_codec.specs.OperationsLeft.{operation_of, operations_left};

    type Item = (u16, &'a [u8]);

    ghost next_gives = { YieldsFirstBy operation_of operations_left };

    ghost remaining = { item_count operations_left };

    #[tactic(auto, unfolding(crate::specs::OperationsLeft::operations_left), using(crate::proofs::OperationLemmas::left_none, crate::proofs::OperationLemmas::left_ended, crate::proofs::OperationLemmas::left_more))]
    fn next(&mut self) -> Option<(u16, &'a [u8])> {
        if self.count == 0 {
            return None;
        }
        let (op, data, after) = first_of(self.bytes)?;
        self.count -= 1;
        self.bytes = after;
        Some((op, data))
    }
}
