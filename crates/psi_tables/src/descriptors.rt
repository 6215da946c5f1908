//! The descriptors of a program.

ghost use Rattle.std.specs.Prelude.{◌≡◌, ◌≤◌, length, is_some, true, option_map, ◌==◌, ◌&&◌};
ghost use Rattle.psi_tables.specs.Runs.{run_of, things_of};
ghost use Rattle.psi_tables.specs.Descriptors.{taken_descriptor, shown_descriptor, descriptor_at, registers_cues, without_registration};
ghost use Rattle.psi_tables.specs.ProgramMap.{descriptors_bytes};

use crate::writing::Section;
use arrayvec::ArrayVec;
use wire_fields::put;

/// The registration descriptor of programs with cues.
pub const CUE_REGISTRATION: [u8; 6] = [5, 4, b'C', b'U', b'E', b'I'];

/// The first descriptor's own bytes and those behind it.
#[tactic(auto, unfolding(crate::specs::Descriptors::descriptor_at))]
fn first_descriptor(bytes: &[u8]) -> Option<(&[u8], &[u8])>
    ensures { option_map taken_descriptor result ≡ option_map (shown_descriptor bytes.now) (descriptor_at bytes.now) }
{
    if bytes.len() < 2 {
        return None;
    }
    let size = 2 + bytes[1] as usize;
    if bytes.len() < size {
        return None;
    }
    Some(bytes.split_at(size))
}

/// Whether descriptors fill the bytes exactly.
#[tactic(auto, using(crate::proofs::DescriptorLemmas::descriptor_shorter, crate::proofs::DescriptorLemmas::descriptors_fill_more, crate::proofs::DescriptorLemmas::descriptors_fill_ends, crate::proofs::DescriptorLemmas::descriptors_fill_done))]
pub fn descriptors_fill(bytes: &[u8]) -> bool
    ensures { result ≡ is_some (run_of descriptor_at bytes.now) }
{
    let mut rest = bytes;
    while !rest.is_empty() {
        let Some((_, after)) = first_descriptor(rest) else {
            return false;
        };
        rest = after;
    }
    true
}

#[tactic(auto, unfolding(crate::specs::Descriptors::registers_cues))]
fn is_cue_registration(bytes: &[u8]) -> bool
    ensures { result ≡ registers_cues bytes.now }
{
    bytes.len() == 6
        && bytes[0] == 5
        && bytes[1] == 4
        && bytes[2] == b'C'
        && bytes[3] == b'U'
        && bytes[4] == b'E'
        && bytes[5] == b'I'
}

/// Whether this descriptor registers cues, and no other is behind it.
fn ends_in_registration(front: &[u8], after: &[u8]) -> bool
    ensures { result ≡ ((length after.now == 0) && registers_cues front.now) }
{
    after.is_empty() && is_cue_registration(front)
}

/// The descriptors without the last, where that is the registration descriptor.
#[tactic(auto, using(crate::proofs::DescriptorLemmas::descriptor_shorter, crate::proofs::DescriptorLemmas::descriptor_kept, crate::proofs::DescriptorLemmas::descriptors_fill_more, crate::proofs::DescriptorLemmas::last_dropped, crate::proofs::DescriptorLemmas::none_kept, crate::proofs::DescriptorLemmas::front_fits))]
pub fn before_registration(bytes: &[u8]) -> Section
    requires sound { is_some (run_of descriptor_at bytes.now) ≡ true }
    requires size { length bytes.now ≤ 1021 }
    ensures value { result.items ≡ descriptors_bytes (without_registration (things_of descriptor_at bytes.now)) }
    ensures shorter { length result.items ≤ length bytes.now }
{
    let mut kept = ArrayVec::new();
    let mut rest = bytes;
    while let Some((front, after)) = first_descriptor(rest) {
        if ends_in_registration(front, after) {
            return kept;
        }
        put(&mut kept, front);
        rest = after;
    }
    kept
}
