//! The ring in which the bytes of the next message gather.

ghost use Rattle.std.specs.Prelude.{◌≡◌, ◌+◌, ◌-◌, ◌<◌, ◌≤◌, ◌++◌, length, take, min, slice_index, true, IfSome};
ghost use Rattle.circular_buffer.specs.Buffer.{buffer};
ghost use Rattle.scte104_codec.specs.Framing.{frame_of, size_in};
ghost use Rattle.as_session.specs.Pending.{is_partial, TakesIn};

use circular_buffer::HeapCircularBuffer;
use scte104_codec::{Frame, frame_size};
use std::alloc::Allocator;

/// The size of the longest message in bytes: its field has two bytes.
pub const MESSAGE_ROOM: usize = 65_535;

/// Moves bytes into the ring until it has as many as wanted, or the piece ends. Answers how many.
fn fill_to<A: Allocator>(ring: &mut HeapCircularBuffer<u8, A>, wanted: usize, piece: &[u8]) -> usize
    requires { wanted ≤ ring.old.capacity }
    ensures used { result ≡ min (length piece.now) (wanted - length ring.old.items) }
    ensures items { ring.new ≡ buffer (ring.old.items ++ take result piece.now) ring.old.capacity }
{
    let used = piece.len().min(wanted.saturating_sub(ring.len()));
    let (front, _) = piece.split_at(used);
    ring.fill_from_slice(front);
    used
}

fn byte<A: Allocator>(ring: &HeapCircularBuffer<u8, A>, place: usize) -> u8
    requires { place < length ring.now.items }
    ensures { result ≡ slice_index ring.now.items place }
{
    match ring.get(place) {
        Some(byte) => *byte,
        None => unreachable!(),
    }
}

#[tactic(auto, using(crate::proofs::FrameLemmas::size_of_front))]
fn size_pending<A: Allocator>(ring: &HeapCircularBuffer<u8, A>) -> Option<usize>
    requires { 4 ≤ length ring.now.items }
    ensures size { result ≡ size_in ring.now.items }
    ensures bounds { IfSome result (λ size. (12 ≤ size) × (size < 65536)) }
{
    frame_size(&[byte(ring, 0), byte(ring, 1), byte(ring, 2), byte(ring, 3)])
}

/// Moves bytes of the piece into the ring, up to the end of a message or the fourth byte of a bad size. Answers how
/// many, and how far the message has come.
pub fn gather<A: Allocator>(ring: &mut HeapCircularBuffer<u8, A>, piece: &[u8]) -> (usize, Frame)
    requires room { ring.old.capacity ≡ 65535 }
    requires partial { is_partial ring.old.items ≡ true }
    ensures capacity { ring.new.capacity ≡ 65535 }
    ensures frame { result.1 ≡ frame_of (ring.old.items ++ piece.now) }
    ensures gathers { TakesIn ring.old.items piece.now result.0 ring.new.items result.1 }
{
    let first = fill_to(ring, 4, piece);
    if ring.len() < 4 {
        return (first, Frame::NeedMore(4 - ring.len()));
    }
    let Some(size) = size_pending(ring) else {
        return (first, Frame::BadSize);
    };
    let (_, rest) = piece.split_at(first);
    let used = first + fill_to(ring, size, rest);
    if ring.len() < size {
        return (used, Frame::NeedMore(size - ring.len()));
    }
    (used, Frame::Whole(size))
}
