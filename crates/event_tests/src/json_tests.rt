//! The lines of a log, read as JSON: each is an object of the keys that docs/EVENTS.md has for its kind, with these values.

use crate::runs::*;
use crate::stream::Item::*;
use crate::stream::{AAC, AVC, Item};
use event_logs::EventLog;
use injector::MessageCounts;
use report_texts::AirCounts;
use serde_json::Value;
use splice_switch::SwitchReport;
use std::alloc::Global;
use std::process::Abort;
use std::test::Fail;
use ts_packet::Pid;

/// What a key of a line has for a value.
#[derive(Clone, Copy, Debug, PartialEq, Eq)]
enum Member {
    Number(u64),
    Word(&'static str),
    Flag(bool),
}

use Member::*;

impl Member {
    /// This value is that.
    fn is(self, value: &Value) -> bool {
        match self {
            Number(number) => value.as_u64() == Some(number),
            Word(word) => value.as_str() == Some(word),
            Flag(flag) => value.as_bool() == Some(flag),
        }
    }
}

/// The keys of a line, with their values.
type Line = &'static [(&'static str, Member)];

/// A line is an object of these keys and no other, with these values, and the first is its kind.
fn expect_line<R: Abort>(rt: &R, alloc: Global, line: &str, members: Line) -> Result<(), Fail> {
    assert!(rt; line.starts_with("{\"kind\":\""), "{line}");
    let Ok(value) = Value::from_str(alloc, line) else {
        return Err(Fail::from("a line of JSON"));
    };
    let object = value.as_object().ok_or("an object")?;
    assert_eq!(rt; object.len(), members.len(), "{line}");
    for (key, member) in members {
        let value = value.get(*key).ok_or("a key")?;
        assert!(rt; member.is(value), "{key} in {line}");
    }
    Ok(())
}

/// A log has these lines.
fn expect_lines<R: Abort>(
    rt: &R,
    alloc: Global,
    log: &[u8],
    lines: &'static [Line],
) -> Result<(), Fail> {
    let Ok(text) = str::from_utf8(log) else {
        return Err(Fail::from("a text"));
    };
    assert!(rt; text.ends_with("\n"));
    let mut count = 0;
    for line in text.lines() {
        let members = lines.get(count).ok_or("a line more")?;
        expect_line(rt, alloc, line, members)?;
        count += 1;
    }
    assert_eq!(rt; count, lines.len());
    Ok(())
}

/// A network in which a break that is asked for before packet 4 begins with packet 4, at no random access point; its sound steps back over
/// its start, and its pictures are past its end with packet 8, at no such point.
const NETWORK: &[Item] = &[
    Pat,
    Map(1, &[(AVC, VIDEO), (AAC, SOUND)]),
    Point(VIDEO, 90_000),
    Unit(SOUND, 90_000),
    Unit(VIDEO, 450_000),
    Unit(SOUND, 450_000),
    Unit(SOUND, 448_000),
    Point(VIDEO, 900_000),
    Unit(VIDEO, 1_350_000),
];

/// What is told of it: of the request, its cue, the break in both streams, its edges and its count.
const LINES: &[Line] = &[
    &[
        ("kind", Word("request")),
        ("packet", Number(4)),
        ("message", Number(5)),
        ("as_index", Number(0)),
        ("index", Number(1)),
        ("operation", Word("start")),
        ("event", Number(1)),
        ("program_id", Number(7)),
        ("pre_roll", Number(4000)),
        ("duration", Number(100)),
        ("auto_return", Flag(true)),
        ("result", Number(100)),
        ("verdict", Word("Success")),
        ("accepted", Flag(true)),
        ("answered", Flag(true)),
    ],
    &[
        ("kind", Word("cue")),
        ("packet", Number(4)),
        ("cue", Word("start")),
        ("event", Number(1)),
        ("pts", Number(450_000)),
        ("duration", Number(900_000)),
        ("program_id", Number(7)),
    ],
    &[
        ("kind", Word("begun")),
        ("packet", Number(4)),
        ("event", Number(1)),
        ("pid", Number(256)),
        ("pts", Number(450_000)),
    ],
    &[
        ("kind", Word("edge")),
        ("packet", Number(4)),
        ("event", Number(1)),
        ("edge", Word("start")),
        ("pid", Number(256)),
        ("pts", Number(450_000)),
        ("why", Word("no_random_access")),
    ],
    &[
        ("kind", Word("begun")),
        ("packet", Number(5)),
        ("event", Number(1)),
        ("pid", Number(257)),
        ("pts", Number(450_000)),
    ],
    &[
        ("kind", Word("edge")),
        ("packet", Number(6)),
        ("event", Number(1)),
        ("edge", Word("start")),
        ("pid", Number(257)),
        ("pts", Number(448_000)),
        ("why", Word("stepped_back")),
        ("ticks", Number(2_000)),
    ],
    &[
        ("kind", Word("over")),
        ("packet", Number(6)),
        ("event", Number(1)),
        ("pid", Number(257)),
        ("pts", Number(448_000)),
    ],
    &[
        ("kind", Word("random_access")),
        ("packet", Number(7)),
        ("event", Number(1)),
        ("edge", Word("start")),
        ("pid", Number(256)),
        ("pts", Number(450_000)),
        ("ticks", Number(450_000)),
    ],
    &[
        ("kind", Word("over")),
        ("packet", Number(8)),
        ("event", Number(1)),
        ("pid", Number(256)),
        ("pts", Number(1_350_000)),
    ],
    &[
        ("kind", Word("edge")),
        ("packet", Number(8)),
        ("event", Number(1)),
        ("edge", Word("end")),
        ("pid", Number(256)),
        ("pts", Number(1_350_000)),
        ("why", Word("no_random_access")),
    ],
    &[
        ("kind", Word("played")),
        ("packet", Number(9)),
        ("event", Number(1)),
        ("pts", Number(450_000)),
        ("duration", Number(900_000)),
        ("program_id", Number(7)),
    ],
    &[
        ("kind", Word("unconditioned")),
        ("packet", Number(9)),
        ("event", Number(1)),
        ("pts", Number(450_000)),
        ("duration", Number(900_000)),
        ("program_id", Number(7)),
    ],
    &[("kind", Word("end")), ("packet", Number(9))],
];

#[test]
fn a_run_is_told_in_json(rt: HostRuntime) -> Result<(), Fail> {
    let outcome = run(
        rt.alloc(),
        Kind::Run,
        NETWORK,
        "4 FFFF001E00000500010000010101000E010000000100070FA00064000001\n",
    )?;
    expect_lines(&rt, rt.alloc(), outcome.log.as_slice(), LINES)
}

/// What is told of a break of ten seconds whose advertisement is too short for it, a cancel, and a message that breaks the syntax.
const CANCELLED: &[Line] = &[
    &[
        ("kind", Word("request")),
        ("packet", Number(3)),
        ("message", Number(5)),
        ("as_index", Number(0)),
        ("index", Number(1)),
        ("operation", Word("start")),
        ("event", Number(4_294_967_295)),
        ("program_id", Number(7)),
        ("pre_roll", Number(65_535)),
        ("duration", Number(200)),
        ("auto_return", Flag(true)),
        ("result", Number(100)),
        ("verdict", Word("Success")),
        ("accepted", Flag(true)),
        ("answered", Flag(true)),
    ],
    &[
        ("kind", Word("cue")),
        ("packet", Number(3)),
        ("cue", Word("start")),
        ("event", Number(4_294_967_295)),
        ("pts", Number(5_988_150)),
        ("duration", Number(1_800_000)),
        ("program_id", Number(7)),
        ("why", Word("too_short")),
        ("too_short_by", Number(900_000)),
    ],
    &[
        ("kind", Word("request")),
        ("packet", Number(4)),
        ("message", Number(6)),
        ("as_index", Number(0)),
        ("index", Number(1)),
        ("operation", Word("cancel")),
        ("event", Number(4_294_967_295)),
        ("program_id", Number(0)),
        ("pre_roll", Number(0)),
        ("duration", Number(0)),
        ("auto_return", Flag(false)),
        ("result", Number(100)),
        ("verdict", Word("Success")),
        ("accepted", Flag(true)),
        ("answered", Flag(true)),
    ],
    &[
        ("kind", Word("cue")),
        ("packet", Number(4)),
        ("cue", Word("cancel")),
        ("event", Number(4_294_967_295)),
    ],
    &[
        ("kind", Word("cancelled")),
        ("packet", Number(4)),
        ("event", Number(4_294_967_295)),
        ("pts", Number(5_988_150)),
        ("duration", Number(1_800_000)),
        ("program_id", Number(7)),
    ],
    &[
        ("kind", Word("request")),
        ("packet", Number(5)),
        ("message", Number(7)),
        ("as_index", Number(2)),
        ("index", Number(1)),
        ("operation", Word("bad_syntax")),
        ("result", Number(0x8001)),
        ("verdict", Word("BadSyntax")),
        ("accepted", Flag(false)),
        ("answered", Flag(true)),
    ],
    &[("kind", Word("end")), ("packet", Number(6))],
];

#[test]
fn a_cancel_and_refusals_are_told_in_json(rt: HostRuntime) -> Result<(), Fail> {
    // The third message states one operation and has none.
    let outcome = run(
        rt.alloc(),
        Kind::Run,
        &NETWORK[..6],
        "3 FFFF001E00000500010000010101000E01FFFFFFFF0007FFFF00C8000001\n4 FFFF001E00000600010000010101000E05FFFFFFFF000000000000000000\n5 FFFF000C0002070001000001\n",
    )?;
    expect_lines(&rt, rt.alloc(), outcome.log.as_slice(), CANCELLED)
}

/// The greatest count.
const MOST: u64 = u64::MAX;

/// What a run on air of services writes of itself.
const WIDEST: &[Line] = &[
    &[
        ("kind", Word("stretch")),
        ("service", Number(65_535)),
        ("packet", Number(MOST)),
        ("stretch", Number(MOST)),
        ("pid", Number(8_191)),
        ("fault", Word("TooManyStreams")),
    ],
    &[
        ("kind", Word("unjudged")),
        ("packet", Number(7)),
        ("more_before", Number(0)),
    ],
    &[
        ("kind", Word("unjudged")),
        ("packet", Number(16_391)),
        ("more_before", Number(2)),
    ],
    &[
        ("kind", Word("report")),
        ("messages", Number(MOST)),
        ("accepted", Number(MOST)),
        ("refused", Number(MOST)),
        ("played", Number(MOST)),
        ("not_fitted", Number(MOST)),
        ("unconditioned", Number(MOST)),
        ("ignored", Number(MOST)),
        ("stretches", Number(MOST)),
        ("lost", Number(MOST)),
        ("unjudged", Number(MOST)),
        ("mended", Number(MOST)),
        ("skipped", Number(MOST)),
    ],
    &[
        ("kind", Word("service_report")),
        ("service", Number(65_535)),
        ("played", Number(MOST)),
        ("not_fitted", Number(MOST)),
        ("unconditioned", Number(MOST)),
        ("ignored", Number(MOST)),
    ],
    &[("kind", Word("fault")), ("fault", Word("Io"))],
];

#[test]
fn the_longest_lines_are_whole(rt: HostRuntime) -> Result<(), Fail> {
    // Unjudged packets 8 and 16390 follow the line of packet 7 too closely: packet 16391 has one again, which counts them.
    let mut log = EventLog::new(Vec::new(rt.alloc()));
    let counts = SwitchReport {
        played: MOST,
        not_fitted: MOST,
        unconditioned: MOST,
        ignored: MOST,
    };
    let pid = Pid::new(8_191).ok_or("a PID")?;
    log.begin(Some(65_535), MOST, MOST, pid, "TooManyStreams");
    for packet in [7, 8, 16_390, 16_391] {
        log.leave(packet);
    }
    log.report(
        Some(MessageCounts {
            messages: MOST,
            accepted: MOST,
            refused: MOST,
        }),
        Some(counts),
        Some(AirCounts {
            stretches: MOST,
            lost: MOST,
            unjudged: MOST,
            mended: MOST,
            skipped: MOST,
        }),
    );
    log.report_service(65_535, &counts);
    log.fault("Io");
    let lines = log.into_stream();
    expect_lines(&rt, rt.alloc(), lines.as_slice(), WIDEST)
}
