//! What the report of a run on air has besides.

ghost use Rattle.std.specs.Prelude.{◌≡◌};

use on_air::AirReport;
use passages::air_running::OnAir;
use report_texts::AirCounts;

/// What a run on air counted besides its messages and events.
pub(crate) fn air_counts<T>(ran: &OnAir<AirReport<T>>) -> AirCounts
    ensures stretches { result.stretches ≡ ran.now.report.stretches }
    ensures lost { result.lost ≡ ran.now.report.lost }
    ensures unjudged { result.unjudged ≡ ran.now.report.unjudged }
    ensures mended { result.mended ≡ ran.now.mended }
    ensures skipped { result.skipped ≡ ran.now.skipped }
{
    AirCounts {
        stretches: ran.report.stretches,
        lost: ran.report.lost,
        unjudged: ran.report.unjudged,
        mended: ran.mended,
        skipped: ran.skipped,
    }
}
