//! Sections that stand in bytes one after another.

use crate::front::{Front, front_of, is_bad};

/// The sections that stand in some bytes one after another, but for those whose CRC_32 fails.
#[derive(Clone, Copy, Debug)]
pub struct Sections<'a> {
    bytes: &'a [u8],
}

impl<'a> Sections<'a> {
    ghost use Rattle.std.specs.Prelude.{◌≡◌, [], filter};
    ghost use Rattle.psi_section.specs.Sections.{taken, is_good};
    ghost use Rattle.psi_section.specs.SectionsLeft.{sections_left};

    /// No section.
    #[tactic(auto, unfolding(crate::specs::SectionsLeft::sections_left))]
    pub fn none() -> Sections<'a>
        ensures { sections_left result ≡ [] }
    {
        Sections { bytes: &[] }
    }

    #[tactic(auto, unfolding(crate::specs::SectionsLeft::sections_left))]
    pub(crate) fn of(bytes: &'a [u8]) -> Sections<'a>
        ensures { sections_left result ≡ filter is_good (taken bytes.now).finished }
    {
        Sections { bytes }
    }
}

impl<'a> Iterator for Sections<'a> {
    ghost use Rattle.std.specs.Iterator.{YieldsFirstRef, item_count};
    ghost use Rattle.psi_section.specs.SectionsLeft.{sections_left};

    type Item = &'a [u8];

    ghost next_gives = { YieldsFirstRef sections_left };

    ghost remaining = { item_count sections_left };

    #[tactic(auto, using(crate::proofs::SectionsLeftLemmas::left_good, crate::proofs::SectionsLeftLemmas::left_failed, crate::proofs::SectionsLeftLemmas::left_part, crate::proofs::SectionsLeftLemmas::left_nothing, crate::proofs::SectionsLeftLemmas::whole_fits, crate::proofs::SectionsLeftLemmas::whole_shortens), unfolding(crate::specs::SectionsLeft::sections_left))]
    fn next(&mut self) -> Option<&'a [u8]> {
        loop {
            match front_of(self.bytes) {
                Front::Whole(size) => {
                    let (section, behind) = self.bytes.split_at(size);
                    self.bytes = behind;
                    if !is_bad(section) {
                        return Some(section);
                    }
                }
                Front::Part => return None,
                Front::Nothing => return None,
            }
        }
    }
}
