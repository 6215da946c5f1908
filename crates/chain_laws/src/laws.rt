//! The headline, piece by piece: each law on a function of its own.

ghost use Rattle.ad_library.specs.Library.{held};
ghost use Rattle.chain_laws.specs.Breaks.{BreaksAreArmed};
ghost use Rattle.chain_laws.specs.Clocks.{ClocksAreTheNetworks, UnitsHaveNoClocks};
ghost use Rattle.chain_laws.specs.Exactly.{HistoriesAreSo};
ghost use Rattle.chain_laws.specs.Libraries.{LibrariesArePacked};
ghost use Rattle.chain_laws.specs.Order.{OrderIsTheNetworks};
ghost use Rattle.chain_laws.specs.Others.{OthersAreUnchanged, NoProgramIsNoChange, NoBreakIsNoChange};
ghost use Rattle.chain_laws.specs.Reports.{BreaksAreCounted};
ghost use Rattle.chain_laws.specs.Streams.{StreamsCarryPlaced, StreamsCarrySplice};
ghost use Rattle.chain_laws.specs.Tables.{TablesAreTheNetworks, PmtIsSections};
ghost use Rattle.chain_laws.specs.UnitSplices.{PlacedIsUnitSplice};

use ad_library::AdLibrary;
use std::alloc::Allocator;

/// In a stream that is conditioned at the starts of the breaks, what is placed is the splice of its units.
pub fn placed_is_unit_splice()
    ensures { PlacedIsUnitSplice }
{}

/// The events that a switch is armed with by the cued stream are, of those that are not cancelled, exactly the accepted ones, each with its
/// last end.
pub fn breaks_are_armed()
    ensures { BreaksAreArmed }
{}

/// On any network without a fault the payload packets of a switched stream are its lead and then packets that carry its units outside all
/// played breaks, with what goes out of each reached break before the first unit at or past its start.
pub fn streams_carry_placed()
    ensures { StreamsCarryPlaced }
{}

/// Where the stream is conditioned at the starts of the played breaks, they carry the splice: its units outside them with the slice of each
/// reached break in its place.
pub fn streams_carry_splice()
    ensures { StreamsCarrySplice }
{}

/// The clock references of a switched stream are the network's, as one list, in order: none is lost, put in twice or moved.
pub fn clocks_are_the_networks()
    ensures { ClocksAreTheNetworks }
{}

/// No packet that a unit of an advertisement is put in has a clock reference: so a switch moves and adds none, whoever put the cues in.
pub fn units_have_no_clocks()
    ensures { UnitsHaveNoClocks }
{}

/// The packets marked in error, and those of all PIDs but the switched ones, the PMT's and that of the cues, are one list, byte for byte.
pub fn others_are_unchanged()
    ensures { OthersAreUnchanged }
{}

/// Across all PIDs the output is in the network's order: packet by packet of the cued stream, what is put in before it and what stands for
/// it. So no packet is held back, packets without payload stay, and counters go on by the rule.
pub fn order_is_the_networks()
    ensures { OrderIsTheNetworks }
{}

/// Where no PAT lists the program, the output is the network.
pub fn no_program_is_no_change()
    ensures { NoProgramIsNoChange }
{}

/// Where no break is played, every packet is the network's, in order across all PIDs, but on the PID of the PMT; there its sections are.
pub fn no_break_is_no_change()
    ensures { NoBreakIsNoChange }
{}

/// The report counts the accepted requests that were not cancelled, by the advertisements and the network's units.
pub fn breaks_are_counted()
    ensures { BreaksAreCounted }
{}

/// Of a network without a fault, whatever was taken from an automation and answered, and whatever was filed in a library, the output and the
/// report of a run are as the headline says.
pub fn histories_are_so<A: Allocator>(library: &AdLibrary<A>)
    ensures { HistoriesAreSo (held library.now) }
{}

/// Each unit of an advertisement that has a byte is packed, whatever the first counter.
pub fn libraries_are_packed()
    ensures { LibrariesArePacked }
{}

/// On any network without a fault a reader of the output finds the network's PAT and sections, and no unmarked packet of the cue PID.
pub fn tables_are_the_networks()
    ensures { TablesAreTheNetworks }
{}

/// On the PID of the PMT the output has the network's packets up to the PAT, byte for byte, and then all sections behind it, each in packets
/// of its own whose counters go on.
pub fn pmt_is_sections()
    ensures { PmtIsSections }
{}
