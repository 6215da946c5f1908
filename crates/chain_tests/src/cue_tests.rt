//! Cues of all kinds before a break and in it, each with what becomes of the network and of the report.

use crate::item::Item::{self, *};
use crate::runs::{SEVEN, expect_splice, library};
use crate::stream::Stream;
use std::alloc::{AllocError, Global};
use std::process::Abort;
use std::test::*;

/// Its name; cues behind the unit of 900,000, and cues behind that of 1,500,000; what goes out behind the unit of 1,200,000; and the events
/// played, not fitted and unconditioned, and the cues ignored.
#[derive(Clone, Copy)]
struct CueRow(
    &'static str,
    &'static [Item],
    &'static [Item],
    &'static [Item],
    [u64; 4],
);

/// A break from 1,500,000 for 900,000.
const BREAK: Item = Start(1, 1_500_000, 900_000);

/// The network as it is.
const KEPT: &[Item] = &[
    Video(1_500_000),
    Video(1_800_000),
    Video(2_100_000),
    Video(2_400_000),
    Video(2_700_000),
];

/// That break, played.
const PLAYED: &[Item] = &[
    Ad(1_500_000),
    Ad(1_800_000),
    Ad(2_100_000),
    Ad(2_355_000),
    Video(2_400_000),
    Video(2_700_000),
];

/// It ends at 1,900,000.
const SHORT: &[Item] = &[
    Ad(1_500_000),
    Ad(1_800_000),
    Video(2_100_000),
    Video(2_400_000),
    Video(2_700_000),
];

/// It ends at 1,700,000.
const SHORTER: &[Item] = &[
    Ad(1_500_000),
    Video(1_800_000),
    Video(2_100_000),
    Video(2_400_000),
    Video(2_700_000),
];

/// A break of 345,000 ticks follows it at once.
const TOUCHED: &[Item] = &[
    Ad(1_500_000),
    Ad(1_800_000),
    Ad(2_100_000),
    Ad(2_355_000),
    Ad(2_400_000),
    Ad(2_700_000),
];

const NONE: [u64; 4] = [0, 0, 0, 0];

const ONE: [u64; 4] = [1, 0, 0, 0];

const IGNORED: [u64; 4] = [0, 0, 0, 1];

const ONE_AND_IGNORED: [u64; 4] = [1, 0, 0, 1];

/// What a section says that is no good cue, or a cue in another spelling.
const SECTIONS: &[CueRow] = &[
    CueRow("none", &[], &[], KEPT, NONE),
    CueRow("a break", &[BREAK], &[], PLAYED, ONE),
    CueRow("its spelling", &[Changed(&[])], &[], PLAYED, ONE),
    CueRow(
        "a wrong CRC_32",
        &[Damaged(1, 1_500_000, 900_000)],
        &[],
        KEPT,
        NONE,
    ),
    CueRow(
        "over two packets",
        &[Cut(1, 1_500_000, 900_000)],
        &[],
        PLAYED,
        ONE,
    ),
    CueRow(
        "a start and its cancel in one packet",
        &[Pair(1, 1_500_000, 900_000)],
        &[],
        KEPT,
        NONE,
    ),
    CueRow("a wrong length", &[Changed(&[(12, 0x15)])], &[], KEPT, NONE),
    CueRow(
        "no length",
        &[Changed(&[(11, 0xFF), (12, 0xFF)])],
        &[],
        PLAYED,
        ONE,
    ),
    CueRow("encrypted", &[Changed(&[(4, 0x80)])], &[], KEPT, NONE),
    CueRow("a version", &[Changed(&[(3, 1)])], &[], KEPT, NONE),
    CueRow("another table", &[Changed(&[(0, 0xFD)])], &[], KEPT, NONE),
    CueRow("splice_null", &[Changed(&[(13, 0)])], &[], KEPT, NONE),
    CueRow("splice_schedule", &[Changed(&[(13, 4)])], &[], KEPT, NONE),
    CueRow("time_signal", &[Changed(&[(13, 6)])], &[], KEPT, NONE),
    CueRow("a reservation", &[Changed(&[(13, 7)])], &[], KEPT, NONE),
    CueRow("private", &[Changed(&[(13, 0xFF)])], &[], KEPT, NONE),
    CueRow("components", &[Changed(&[(19, 0xAF)])], &[], KEPT, NONE),
    CueRow("no return", &[Changed(&[(25, 0x7E)])], &[], KEPT, IGNORED),
    CueRow(
        "no time at all",
        &[Changed(&[(27, 0), (28, 0), (29, 0)])],
        &[],
        KEPT,
        IGNORED,
    ),
    CueRow(
        "an adjustment",
        &[Changed(&[(8, 0x60), (24, 0x00)])],
        &[],
        PLAYED,
        ONE,
    ),
    CueRow(
        "at once",
        &[Raw(&[
            0xFC, 0x30, 0x20, 0, 0, 0, 0, 0, 0, 0xFF, 0xFF, 0xF0, 0x0F, 5, 0, 0, 0, 1, 0x7F, 0xFF,
            0xFE, 0x00, 0x0D, 0xBB, 0xA0, 0, 7, 0, 0, 0, 0,
        ])],
        &[],
        KEPT,
        IGNORED,
    ),
    CueRow(
        "without a time",
        &[Raw(&[
            0xFC, 0x30, 0x21, 0, 0, 0, 0, 0, 0, 0xFF, 0xFF, 0xF0, 0x10, 5, 0, 0, 0, 1, 0x7F, 0xEF,
            0x7F, 0xFE, 0x00, 0x0D, 0xBB, 0xA0, 0, 7, 0, 0, 0, 0,
        ])],
        &[],
        KEPT,
        IGNORED,
    ),
    CueRow(
        "without a duration",
        &[Raw(&[
            0xFC, 0x30, 0x20, 0, 0, 0, 0, 0, 0, 0xFF, 0xFF, 0xF0, 0x0F, 5, 0, 0, 0, 1, 0x7F, 0xCF,
            0xFE, 0x00, 0x16, 0xE3, 0x60, 0, 7, 0, 0, 0, 0,
        ])],
        &[],
        KEPT,
        IGNORED,
    ),
];

/// What starts, cancels and ends are refused, and which are repeats.
const EVENTS: &[CueRow] = &[
    CueRow(
        "no advertisement",
        &[StartOf(1, 1_500_000, 900_000, 8)],
        &[],
        KEPT,
        [0, 1, 0, 0],
    ),
    CueRow(
        "at the greatest time",
        &[Start(1, 900_000, 900_000)],
        &[],
        KEPT,
        IGNORED,
    ),
    CueRow(
        "as late as can be",
        &[Start(1, 537_770_912, 900_000)],
        &[],
        KEPT,
        ONE,
    ),
    CueRow(
        "too late",
        &[Start(1, 537_770_913, 900_000)],
        &[],
        KEPT,
        IGNORED,
    ),
    CueRow(
        "as long as can be",
        &[Start(1, 1_500_000, 1_073_741_824)],
        &[],
        KEPT,
        [0, 1, 0, 0],
    ),
    CueRow(
        "too long",
        &[Start(1, 1_500_000, 1_073_741_825)],
        &[],
        KEPT,
        IGNORED,
    ),
    CueRow("a cancel alone", &[Cancel(1)], &[], KEPT, IGNORED),
    CueRow("an end alone", &[End(1, 1_900_000)], &[], KEPT, IGNORED),
    CueRow("cancelled", &[BREAK, Cancel(1)], &[], KEPT, NONE),
    CueRow("twice", &[BREAK, Cancel(1), Cancel(1)], &[], KEPT, NONE),
    CueRow(
        "and asked again",
        &[BREAK, Cancel(1), BREAK],
        &[],
        KEPT,
        NONE,
    ),
    CueRow(
        "and ended",
        &[BREAK, Cancel(1), End(1, 1_900_000)],
        &[],
        KEPT,
        IGNORED,
    ),
    CueRow(
        "another is cancelled",
        &[BREAK, Cancel(2)],
        &[],
        PLAYED,
        ONE_AND_IGNORED,
    ),
    CueRow(
        "an end before the start",
        &[BREAK, End(1, 1_499_999)],
        &[],
        PLAYED,
        ONE_AND_IGNORED,
    ),
    CueRow(
        "an end at the start",
        &[BREAK, End(1, 1_500_000)],
        &[],
        PLAYED,
        ONE_AND_IGNORED,
    ),
    CueRow("its own end", &[BREAK, End(1, 2_400_000)], &[], PLAYED, ONE),
    CueRow(
        "an end past its own",
        &[BREAK, End(1, 2_400_001)],
        &[],
        PLAYED,
        ONE_AND_IGNORED,
    ),
    CueRow("an early end", &[BREAK, End(1, 1_900_000)], &[], SHORT, ONE),
    CueRow(
        "an early end twice",
        &[BREAK, End(1, 1_900_000), End(1, 1_900_000)],
        &[],
        SHORT,
        ONE,
    ),
    CueRow(
        "two early ends",
        &[BREAK, End(1, 1_900_000), End(1, 1_700_000)],
        &[],
        SHORTER,
        ONE,
    ),
    CueRow(
        "a later end behind an early one",
        &[BREAK, End(1, 1_700_000), End(1, 1_900_000)],
        &[],
        SHORTER,
        ONE_AND_IGNORED,
    ),
    CueRow(
        "a repeat behind an early end",
        &[BREAK, End(1, 1_900_000), BREAK],
        &[],
        SHORT,
        ONE,
    ),
    CueRow(
        "five times",
        &[BREAK, BREAK, BREAK, BREAK, BREAK],
        &[],
        PLAYED,
        ONE,
    ),
    CueRow(
        "its number in use",
        &[BREAK, Start(1, 1_600_000, 900_000)],
        &[],
        PLAYED,
        ONE_AND_IGNORED,
    ),
    CueRow(
        "another program",
        &[BREAK, StartOf(1, 1_500_000, 900_000, 8)],
        &[],
        PLAYED,
        ONE_AND_IGNORED,
    ),
    CueRow(
        "meeting its end",
        &[BREAK, Start(2, 2_399_999, 345_000)],
        &[],
        PLAYED,
        ONE_AND_IGNORED,
    ),
    CueRow(
        "meeting its start",
        &[BREAK, Start(2, 1_400_000, 100_001)],
        &[],
        PLAYED,
        ONE_AND_IGNORED,
    ),
    CueRow(
        "touching",
        &[BREAK, Start(2, 2_400_000, 345_000)],
        &[],
        TOUCHED,
        [2, 0, 0, 0],
    ),
    CueRow(
        "touching the other way",
        &[Start(2, 2_400_000, 345_000), BREAK],
        &[],
        TOUCHED,
        [2, 0, 0, 0],
    ),
    CueRow("a repeat while it runs", &[BREAK], &[BREAK], PLAYED, ONE),
    CueRow("a late start", &[], &[BREAK], KEPT, IGNORED),
    CueRow(
        "a late cancel",
        &[BREAK],
        &[Cancel(1)],
        PLAYED,
        ONE_AND_IGNORED,
    ),
    CueRow(
        "an early end while it runs",
        &[BREAK],
        &[End(1, 1_900_000)],
        SHORT,
        ONE,
    ),
    CueRow(
        "an end that is past",
        &[BREAK],
        &[End(1, 1_500_000)],
        PLAYED,
        ONE_AND_IGNORED,
    ),
];

/// The network with the cues of a row.
fn network(alloc: Global, cues: &[Item], inside: &[Item]) -> Result<Stream, AllocError> {
    let mut stream = Stream::of(alloc, &[Pat, CuedMap, Video(900_000)])?;
    stream.add(cues)?;
    stream.add(&[Video(1_200_000), Video(1_500_000)])?;
    stream.add(inside)?;
    stream.add(&KEPT[1..])?;
    Ok(stream)
}

/// What goes out, with this behind the unit of 1,200,000.
fn wanted(alloc: Global, behind: &[Item]) -> Result<Stream, AllocError> {
    let mut stream = Stream::of(alloc, &[Pat, Map, Video(900_000), Video(1_200_000)])?;
    stream.add(behind)?;
    Ok(stream)
}

fn expect_cues<R: AllocGlobal + Abort>(rt: &R, rows: &[CueRow]) -> Result<(), Fail> {
    let library = library(rt.alloc(), SEVEN)?;
    for CueRow(name, cues, inside, behind, report) in rows {
        let network = network(rt.alloc(), cues, inside)?;
        let want = wanted(rt.alloc(), behind)?;
        expect_splice(rt, name, network.bytes(), &library, want.bytes(), *report)?;
    }
    Ok(())
}

#[test]
fn sections_of_cues(rt: HostRuntime) -> Result<(), Fail> {
    expect_cues(&rt, SECTIONS)
}

#[test]
fn events_of_cues(rt: HostRuntime) -> Result<(), Fail> {
    expect_cues(&rt, EVENTS)
}
