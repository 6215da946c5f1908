//! Descriptors found by their tags.

ghost use Rattle.std.specs.Prelude.{◌≡◌, option_map, length};
ghost use Rattle.psi_tables.specs.Descriptors.{descriptor_at};
ghost use Rattle.table_descriptors.specs.Finding.{body_in, taken_descriptor, shown_descriptor};

/// The tag of the first descriptor, its data and the bytes behind it; `None` where the bytes end before it does.
#[tactic(auto, unfolding(psi_tables::specs::Descriptors::descriptor_at))]
fn first_descriptor(bytes: &[u8]) -> Option<(u8, &[u8], &[u8])>
    ensures { option_map taken_descriptor result ≡ option_map shown_descriptor (descriptor_at bytes.now) }
{
    if bytes.len() < 2 {
        return None;
    }
    let size = bytes[1] as usize;
    if bytes.len() < 2 + size {
        return None;
    }
    Some((bytes[0], &bytes[2..2 + size], &bytes[2 + size..]))
}

/// The data of the first descriptor with this tag among those that the bytes begin with.
#[tactic(auto, using(crate::proofs::FindingLemmas::body_here, crate::proofs::FindingLemmas::body_later, crate::proofs::FindingLemmas::body_never, crate::proofs::FindingLemmas::descriptor_shorter))]
pub fn find_descriptor(bytes: &[u8], tag: u8) -> Option<&[u8]>
    ensures { option_map (λ b. b.now) result ≡ body_in tag bytes.now }
{
    let mut rest = bytes;
    while let Some((found, body, after)) = first_descriptor(rest) {
        if found == tag {
            return Some(body);
        }
        rest = after;
    }
    None
}
