//! The lines of reports on devices: they are out where all was written and flushed, and not else.

use chain_engine::Report;
use failing_devices::{Calls, Ending, FailTarget};
use report_texts::{
    AirCounts, print_air_counts, print_messages, print_report, print_service, print_switched,
};
use splice_plans::SwitchReport;
use std::process::Abort;
use std::test::Fail;

/// What is printed.
#[derive(Clone, Copy, Debug)]
enum Part {
    Messages,
    Switched,
    Service,
    Air,
    Cued,
    Played,
}

/// What became of events.
const EVENTS: SwitchReport = SwitchReport {
    played: 4,
    not_fitted: 5,
    unconditioned: 6,
    ignored: 18_446_744_073_709_551_615,
};

/// What a run on air counted.
const AIR: AirCounts = AirCounts {
    stretches: 1,
    lost: 2,
    unjudged: 3,
    mended: 4,
    skipped: 5,
};

/// Whether it is out.
fn print(part: Part, printed: &mut FailTarget) -> bool {
    let report = Report {
        messages: 1,
        accepted: 2,
        refused: 3,
        switch: EVENTS,
    };
    match part {
        Part::Messages => print_messages(printed, 1, 2, 3),
        Part::Switched => print_switched(printed, &EVENTS),
        Part::Service => print_service(printed, 65_535, &EVENTS),
        Part::Air => print_air_counts(printed, &AIR),
        Part::Cued => print_report(printed, &report, false),
        Part::Played => print_report(printed, &report, true),
    }
}

const MESSAGES_TEXT: &str = "messages 1\naccepted 2\nrefused 3\n";

const EVENTS_TEXT: &str = "played 4\nnot-fitted 5\nunconditioned 6\nignored 18446744073709551615\n";

const SERVICE_TEXT: &str =
    "service 65535\nplayed 4\nnot-fitted 5\nunconditioned 6\nignored 18446744073709551615\n";

const AIR_TEXT: &str = "stretches 1\nlost 2\nunjudged 3\nmended 4\nskipped 5\n";

const PLAYED_TEXT: &str =
    "messages 1\naccepted 2\nrefused 3\nplayed 4\nnot-fitted 5\nunconditioned 6\nignored 18446744073709551615\n";

/// The part has this text on a device that takes a byte a call; it is not out where the last byte is not taken, or a flush fails.
fn expect<R: AllocGlobal + Abort>(rt: &R, part: Part, text: &str) {
    let slow = Calls {
        step: 1,
        good: text.len(),
        ending: Ending::Fails,
    };
    let mut whole = FailTarget::new(rt.alloc(), slow);
    assert!(rt; print(part, &mut whole), "{part:?}");
    assert!(rt; whole.taken().as_slice() == text.as_bytes(), "{part:?}");
    let short = Calls {
        good: text.len().saturating_sub(1),
        ..slow
    };
    let mut device = FailTarget::new(rt.alloc(), short);
    assert!(rt; !print(part, &mut device), "{part:?}");
    let mut device = FailTarget::failing_to_flush(rt.alloc(), slow);
    assert!(rt; !print(part, &mut device), "{part:?}");
}

#[test]
fn reports_are_out_where_they_were_flushed(rt: HostRuntime) -> Result<(), Fail> {
    expect(&rt, Part::Messages, MESSAGES_TEXT);
    expect(&rt, Part::Switched, EVENTS_TEXT);
    expect(&rt, Part::Service, SERVICE_TEXT);
    expect(&rt, Part::Air, AIR_TEXT);
    expect(&rt, Part::Cued, MESSAGES_TEXT);
    expect(&rt, Part::Played, PLAYED_TEXT);
    Ok(())
}
