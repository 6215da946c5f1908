//! The sections on the PID of the map.

ghost use Rattle.std.specs.Prelude.{◌≡◌, ◌&&◌, ◌==◌, Option, option_map};
ghost use Rattle.psi_tables.specs.ProgramMap.{map_of, pmt};
ghost use Rattle.program_follower.specs.Program.{is_map_of, map_read};

use psi_section::Sections;
use psi_tables::Pmt;

/// A section on the PID of the map, lent.
#[derive(Clone, Copy, Debug)]
pub struct LentTable<'a> {
    /// The section, from `table_id` to its last byte.
    pub section: &'a [u8],
    /// The section as a map, where it is one of the program that applies now and stands in one section.
    pub map: Option<Pmt<'a>>,
}

/// The sections that a packet on the PID of the map finishes, in order.
#[derive(Clone, Copy, Debug)]
pub struct Tables<'a> {
    sections: Sections<'a>,
    program: u16,
}

impl<'a> Tables<'a> {
    ghost use Rattle.std.specs.Prelude.{map};
    ghost use Rattle.psi_section.specs.SectionsLeft.{sections_left};
    ghost use Rattle.program_follower.specs.Program.{table_of};
    ghost use Rattle.program_follower.specs.Standing.{tables_left};

    #[tactic(auto, unfolding(crate::specs::Standing::tables_left))]
    pub(crate) fn of(sections: Sections<'a>, program: u16) -> Tables<'a>
        ensures { tables_left result ≡ map (table_of program) (sections_left sections.entry) }
    {
        Tables { sections, program }
    }
}

impl<'a> Iterator for Tables<'a> {
    ghost use Rattle.std.specs.Iterator.{YieldsFirstBy, item_count};
    ghost use Rattle.program_follower.specs.Standing.{tables_left, table_seen};

    type Item = LentTable<'a>;

    ghost next_gives = { YieldsFirstBy table_seen tables_left };

    ghost remaining = { item_count tables_left };

    #[tactic(auto, unfolding(crate::specs::Standing::tables_left))]
    fn next(&mut self) -> Option<LentTable<'a>> {
        let Some(section) = self.sections.next() else {
            return None;
        };
        let map = map_of_program(self.program, section);
        Some(LentTable { section, map })
    }
}

/// The map of the program that the section is, if it is one that applies now and stands in one section.
pub(crate) fn map_of_program(program: u16, section: &[u8]) -> Option<Pmt<'_>>
    ensures { option_map (λ p. map_of p.bytes.now) result ≡ map_read program (pmt section.now) }
{
    let Ok(pmt) = Pmt::read(section) else {
        return None;
    };
    if is_map_of(program, &pmt) {
        Some(pmt)
    } else {
        None
    }
}

/// The map is of the program, applies now, and stands in one section.
fn is_map_of(program: u16, pmt: &Pmt<'_>) -> bool
    ensures { result ≡ is_map_of program (map_of pmt.now.bytes.now) }
{
    let (number, last) = pmt.numbers();
    pmt.program() == program && pmt.current() && number == 0 && last == 0
}
