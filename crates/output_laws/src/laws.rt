//! What holds of every output of a splice, over the definitions alone.

ghost use Rattle.output_laws.specs.Laws.{OutputStaysGapless, OutputHasUnits, OutputCarriesUnits, AllKeptIsUnchanged, FedIsNeeded};
ghost use Rattle.output_laws.specs.Spliced.{SplicedCarries, SplicedHasUnits, MovesAreSpliced, SplicedOthersPass};
ghost use Rattle.output_laws.specs.Others.{OthersPass};

/// Where the network is gapless on a PID, the output is, if the PID has a payload packet before the
/// first unit that is put in.
pub fn output_stays_gapless()
    ensures { OutputStaysGapless }
{}

/// The units read off such an output are those kept and those put in, in order.
pub fn output_has_units()
    ensures { OutputHasUnits }
{}

/// With nothing put in and nothing left out every packet goes out as it came.
pub fn all_kept_is_unchanged()
    ensures { AllKeptIsUnchanged }
{}

/// On any network, the PID's payload packets in the output are those before its first unit start,
/// unchanged, and then packets that carry the units kept and those put in, in order.
pub fn output_carries_units()
    ensures { OutputCarriesUnits }
{}

/// The law on gapless output needs its premise on the first unit put in.
pub fn fed_is_needed()
    ensures { FedIsNeeded }
{}

/// On any network, each switched PID of a spliced run carries, behind its packets before the first
/// unit start, its units outside all events with each slice in its place.
pub fn spliced_carries()
    ensures { SplicedCarries }
{}

/// Where the network is gapless on it, so is the output, and its units there are these.
pub fn spliced_has_units()
    ensures { SplicedHasUnits }
{}

/// The moves of a splice are its acts, and what it leaves out.
pub fn moves_are_spliced()
    ensures { MovesAreSpliced }
{}

/// The packets of all other PIDs, and those marked in error, are the same list, byte for byte.
pub fn others_pass()
    ensures { OthersPass }
{}

/// In the output of a splice the packets of all but the switched PIDs, and those marked in error,
/// are the run's.
pub fn spliced_others_pass()
    ensures { SplicedOthersPass }
{}
