//! The map that was found without a fault last.

ghost use Rattle.std.specs.Prelude.{◌≡◌, Option, None, is_some, true};
ghost use Rattle.program_follower.specs.Program.{Program};
ghost use Rattle.program_follower.specs.Judging.{fault_of_section};
ghost use Rattle.program_follower.specs.Known.{IsFaultless};

use crate::purpose::{Listed, Purpose};
use arrayvec::ArrayVec;

/// A map of the program (ISO/IEC 13818-1, 2.4.4.8) that was judged when the program was known, and found without a fault, with what it was
/// judged by. A network repeats its map again and again, mostly with the same bytes, which are not judged anew.
#[derive(Drop)]
pub(crate) struct FaultlessMap {
    /// For what and by which entry of the PAT the map was judged; `None` where there is no such map.
    by: Option<(Purpose, Listed)>,
    /// The section of the map, of at most 1,024 bytes.
    section: ArrayVec<u8, 1024>,
}

impl FaultlessMap {
    /// No map was judged.
    pub(crate) fn new() -> FaultlessMap
        ensures { (known : Option Program) → IsFaultless result known }
    {
        FaultlessMap {
            by: None,
            section: ArrayVec::new(),
        }
    }

    /// The same map, kept once more: for a reader that looks at a packet.
    pub(crate) fn copied(&self) -> FaultlessMap
        ensures { (known : Option Program) → IsFaultless self.now known → IsFaultless result known }
    {
        let mut copy = FaultlessMap::new();
        if let Some((purpose, listed)) = &self.by {
            copy.keep(purpose, listed, self.section.as_slice());
        }
        copy
    }

    /// The section is that map again, and is to be judged by the same.
    pub(crate) fn comes_again(&self, purpose: &Purpose, listed: &Listed, section: &[u8]) -> bool
        ensures { (known : Option Program) → IsFaultless self.now known → result ≡ true
            → (fault_of_section purpose.now listed.now known section.now ≡ None) × (is_some known ≡ true) }
    {
        let Some((by, at)) = &self.by else {
            return false;
        };
        *by == *purpose && *at == *listed && self.section.as_slice() == section
    }

    /// Keeps a map that was found without a fault. One of more than 1,024 bytes, which is none, is not kept.
    pub(crate) fn keep(&mut self, purpose: &Purpose, listed: &Listed, section: &[u8])
        ensures { (known : Option Program) → fault_of_section purpose.now listed.now known section.now ≡ None
            → is_some known ≡ true → IsFaultless self.new known }
    {
        self.by = None;
        self.section.clear();
        match self.section.try_extend_from_slice(section) {
            Ok(()) => self.by = Some((*purpose, *listed)),
            Err(_) => {}
        }
    }
}
