//! The descriptor loop, and the avail descriptors in it.

ghost use Rattle.std.specs.Prelude.{◌≡◌, ◌≤◌, ◌==◌, length, option_map};
ghost use Rattle.scte35_codec.specs.Descriptors.{descriptor_at, descriptor_taken, descriptors_of, descriptor_loop_at, avail_id, avails_of};
ghost use Rattle.scte35_codec.specs.AvailsLeft.{avails_left};

use crate::fields::{byte, leading32, number16};

/// `identifier` of an `avail_descriptor`, the four characters `CUEI`.
const CUEI: u32 = 0x4355_4549;

/// The `provider_avail_id` of each `avail_descriptor` in a descriptor loop, in order (ANSI/SCTE 35, avail_descriptor).
/// Other descriptors are passed over. The bytes lie in the section.
#[derive(Clone, Copy, Debug)]
pub struct Avails<'a> {
    bytes: &'a [u8],
}

#[tactic(auto, unfolding(crate::specs::Descriptors::descriptor_at))]
fn descriptor(bytes: &[u8]) -> Option<(u8, &[u8], &[u8])>
    ensures { option_map descriptor_taken result ≡ descriptor_at bytes.now }
{
    let (tag, rest) = byte(bytes)?;
    let (size, rest) = byte(rest)?;
    let size = size as usize;
    if rest.len() < size {
        return None;
    }
    let (body, rest) = rest.split_at(size);
    Some((tag, body, rest))
}

#[tactic(auto, using(crate::proofs::DescriptorLemmas::other_tag, crate::proofs::DescriptorLemmas::other_size, crate::proofs::DescriptorLemmas::other_identifier, crate::proofs::DescriptorLemmas::avail_is))]
fn avail_id_of(tag: u8, body: &[u8]) -> Option<u32>
    ensures { result ≡ avail_id (record { tag = tag; body = body.now }) }
{
    if tag != 0 || body.len() != 8 || leading32(body) != CUEI {
        return None;
    }
    let (_, id) = body.split_at(4);
    Some(leading32(id))
}

/// Whether whole descriptors fill the bytes.
#[tactic(auto, using(crate::proofs::DescriptorLemmas::descriptor_shorter, crate::proofs::DescriptorLemmas::of_more, crate::proofs::DescriptorLemmas::of_none))]
fn are_descriptors(bytes: &[u8]) -> bool
    ensures { result ≡ (length (descriptors_of bytes.now).1 == 0) }
{
    let mut rest = bytes;
    while let Some((_, _, after)) = descriptor(rest) {
        rest = after;
    }
    rest.is_empty()
}

/// Reads `descriptor_loop_length` and as many bytes, which whole descriptors have to fill. Other bytes may follow.
#[tactic(auto, unfolding(crate::specs::Descriptors::descriptor_loop_at, crate::specs::AvailsLeft::avails_left))]
pub fn descriptor_loop(bytes: &[u8]) -> Option<Avails<'_>>
    ensures { option_map avails_left result ≡ option_map avails_of (descriptor_loop_at bytes.now) }
{
    let (size, rest) = number16(bytes)?;
    let size = size as usize;
    if rest.len() < size {
        return None;
    }
    let (bytes, _) = rest.split_at(size);
    if !are_descriptors(bytes) {
        return None;
    }
    Some(Avails { bytes })
}

impl<'a> Iterator for Avails<'a> {
    ghost use Rattle.std.specs.Iterator.{YieldsFirst, item_count};
    ghost use Rattle.scte35_codec.specs.AvailsLeft.{avails_left};

    type Item = u32;

    ghost next_gives = { YieldsFirst avails_left };

    ghost remaining = { item_count avails_left };

    #[tactic(auto, unfolding(crate::specs::AvailsLeft::avails_left), using(crate::proofs::DescriptorLemmas::descriptor_shorter, crate::proofs::DescriptorLemmas::of_more, crate::proofs::DescriptorLemmas::of_none))]
    fn next(&mut self) -> Option<u32> {
        while let Some((tag, body, rest)) = descriptor(self.bytes) {
            self.bytes = rest;
            if let Some(id) = avail_id_of(tag, body) {
                return Some(id);
            }
        }
        None
    }
}
