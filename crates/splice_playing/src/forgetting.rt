//! The report of the events that are forgotten, and of those that stand.

ghost use Rattle.std.specs.Prelude.{◌≡◌, ◌<◌, ◌+◌, ℤ, List, length, Option};
ghost use Rattle.event_table.specs.Standing.{Standing, IsTimeAt};
ghost use Rattle.event_table.specs.Rings.{CanAdvance};
ghost use Rattle.event_table.specs.Tables.{StandsFor, high_time_of};
ghost use Rattle.ad_library.specs.Library.{held};
ghost use Rattle.splice_plans.specs.Reporting.{EventCounts as Reported, ReportIs};
ghost use Rattle.splice_playing.specs.Forgetting.{with_out, with_first_out, with_standing};

use ad_library::AdLibrary;
use event_table::Table;
use pes_time::Time33;
use psi_tables::Stream;
use splice_plans::{Plan, SwitchReport};

/// The report with each event more that is forgotten at this greatest time.
pub(crate) fn with_forgotten(
    report: SwitchReport,
    table: &Table<Plan>,
    high: Time33,
    streams: &[Stream],
    library: &AdLibrary,
) -> SwitchReport
    ensures { (latest : Option ℤ) (later : ℤ) (es : List Standing) (counts : Reported) →
        StandsFor table.now latest es → CanAdvance (high_time_of table.now) high → IsTimeAt latest high later → ReportIs report counts →
        ReportIs result (with_out (held library.now) streams.now table.now es later counts) }
{
    let mut counted = report;
    for at in 0..table.standing().len() {
        counted = with_one_forgotten(counted, table, at, high, streams, library);
    }
    counted
}

/// The report of the events before this place, with that at this place where it is forgotten at this greatest time.
fn with_one_forgotten(
    report: SwitchReport,
    table: &Table<Plan>,
    at: usize,
    high: Time33,
    streams: &[Stream],
    library: &AdLibrary,
) -> SwitchReport
    requires { at < length table.now.entries.items }
    ensures { (latest : Option ℤ) (later : ℤ) (es : List Standing) (counts : Reported) →
        StandsFor table.now latest es → CanAdvance (high_time_of table.now) high → IsTimeAt latest high later →
        ReportIs report (with_first_out (held library.now) streams.now table.now es at later counts) →
        ReportIs result (with_first_out (held library.now) streams.now table.now es (at + 1) later counts) }
{
    let entry = table.standing()[at];
    if !entry.event.is_forgotten_at(high) {
        return report;
    }
    let fits = library.fits(entry.event.program, streams, entry.event.asked);
    report.with_event(entry.event.cancelled, fits, entry.value.is_crossed)
}

/// The report with each event more that stands.
pub(crate) fn with_all(
    report: SwitchReport,
    table: &Table<Plan>,
    streams: &[Stream],
    library: &AdLibrary,
) -> SwitchReport
    ensures { (latest : Option ℤ) (es : List Standing) (counts : Reported) → StandsFor table.now latest es →
        ReportIs report counts →
        ReportIs result (with_standing (held library.now) streams.now table.now es counts) }
{
    let mut counted = report;
    for at in 0..table.standing().len() {
        let entry = table.standing()[at];
        let fits = library.fits(entry.event.program, streams, entry.event.asked);
        counted = counted.with_event(entry.event.cancelled, fits, entry.value.is_crossed);
    }
    counted
}
