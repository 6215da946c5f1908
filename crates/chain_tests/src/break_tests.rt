//! Breaks and the units about them: where each unit of network and advertisement goes out.

use crate::item::Item::*;
use crate::runs::{Filed, Row, SEVEN, expect_rows, expect_splice, library};
use crate::stream::Stream;
use std::alloc::{AllocError, Global};
use std::test::*;

/// Advertisements with video and audio: 7 as long as a break of 900,000; 8, whose video begins 300,000 behind its audio; 9, of one unit in
/// each stream, that of audio at offset 50,000.
const BOTH: &[Filed] = &[
    (
        7,
        &[
            Pat,
            Maps,
            Ad(90_000),
            AdAudio(90_000),
            Ad(390_000),
            AdAudio(490_000),
            Ad(690_000),
            Ad(945_000),
            AdAudio(945_000),
        ],
    ),
    (
        8,
        &[
            Pat,
            Maps,
            AdAudio(90_000),
            Ad(390_000),
            AdAudio(945_000),
            Ad(945_000),
        ],
    ),
    (9, &[Pat, Maps, Ad(90_000), AdAudio(140_000)]),
];

/// Of video alone.
const VIDEO_ROWS: &[Row] = &[
    Row {
        name: "before the PAT, in the head and before the first unit",
        network: &[
            Start(1, 1_500_000, 900_000),
            Pat,
            Start(1, 1_500_000, 900_000),
            CuedMap,
            Start(1, 1_500_000, 900_000),
            Untimed,
            Start(1, 1_500_000, 900_000),
            Video(1_200_000),
            Video(1_500_000),
        ],
        want: &[Pat, Map, Untimed, Video(1_200_000), Video(1_500_000)],
        report: [0, 0, 0, 4],
    },
    Row {
        name: "marked in error",
        network: &[
            Pat,
            CuedMap,
            Video(1_200_000),
            Marked(1, 1_500_000, 900_000),
            Video(1_500_000),
        ],
        want: &[
            Pat,
            Map,
            Video(1_200_000),
            Marked(1, 1_500_000, 900_000),
            Video(1_500_000),
        ],
        report: [0, 0, 0, 0],
    },
    Row {
        name: "between two units",
        network: &[
            Pat,
            CuedMap,
            Video(1_200_000),
            Start(1, 1_250_000, 40_000),
            Video(1_249_999),
            Video(1_290_000),
        ],
        want: &[
            Pat,
            Map,
            Video(1_200_000),
            Video(1_249_999),
            Ad(1_250_000),
            Video(1_290_000),
        ],
        report: [1, 0, 0, 0],
    },
    Row {
        name: "of one unit",
        network: &[
            Pat,
            CuedMap,
            Video(1_200_000),
            Start(1, 1_500_000, 300_000),
            Video(1_500_000),
            Video(1_799_999),
            Video(1_800_000),
        ],
        want: &[Pat, Map, Video(1_200_000), Ad(1_500_000), Video(1_800_000)],
        report: [1, 0, 0, 0],
    },
    Row {
        name: "a network that ends in it",
        network: &[
            Pat,
            CuedMap,
            Video(1_200_000),
            Start(1, 1_500_000, 900_000),
            Video(1_500_000),
        ],
        want: &[
            Pat,
            Map,
            Video(1_200_000),
            Ad(1_500_000),
            Ad(1_800_000),
            Ad(2_100_000),
            Ad(2_355_000),
        ],
        report: [1, 0, 0, 0],
    },
    Row {
        name: "a network that ends before it",
        network: &[
            Pat,
            CuedMap,
            Video(1_200_000),
            Start(1, 1_500_000, 900_000),
            Video(1_499_999),
        ],
        want: &[Pat, Map, Video(1_200_000), Video(1_499_999)],
        report: [1, 0, 0, 0],
    },
    Row {
        name: "units without a time",
        network: &[
            Pat,
            CuedMap,
            Untimed,
            Video(1_200_000),
            Untimed,
            Start(1, 1_500_000, 345_000),
            Video(1_500_000),
            Untimed,
            Untimed,
            Video(1_900_000),
            Untimed,
        ],
        want: &[
            Pat,
            Map,
            Untimed,
            Video(1_200_000),
            Untimed,
            Ad(1_500_000),
            Ad(1_800_000),
            Video(1_900_000),
            Untimed,
        ],
        report: [1, 0, 0, 0],
    },
    Row {
        name: "units out of order",
        network: &[
            Pat,
            CuedMap,
            Video(1_200_000),
            Start(1, 1_500_000, 345_000),
            Video(1_500_000),
            Video(1_499_999),
            Video(1_844_999),
            Video(1_900_000),
            Video(1_844_000),
            Video(2_000_000),
        ],
        want: &[
            Pat,
            Map,
            Video(1_200_000),
            Ad(1_500_000),
            Ad(1_800_000),
            Video(1_499_999),
            Video(1_900_000),
            Video(2_000_000),
        ],
        report: [1, 0, 1, 0],
    },
    Row {
        name: "packets that stand twice",
        network: &[
            Pat,
            CuedMap,
            Twice(1_200_000),
            Start(1, 1_500_000, 345_000),
            Twice(1_500_000),
            Twice(1_700_000),
            Twice(1_900_000),
        ],
        want: &[
            Pat,
            Map,
            Twice(1_200_000),
            Ad(1_500_000),
            Ad(1_800_000),
            Twice(1_900_000),
        ],
        report: [1, 0, 0, 0],
    },
    Row {
        name: "units of two packets",
        network: &[
            Pat,
            CuedMap,
            Other(1),
            Long(1_200_000),
            Start(1, 1_500_000, 345_000),
            Other(2),
            Long(1_500_000),
            Other(3),
            Long(1_700_000),
            Long(1_900_000),
            Other(4),
        ],
        want: &[
            Pat,
            Map,
            Other(1),
            Long(1_200_000),
            Other(2),
            Ad(1_500_000),
            Other(3),
            Ad(1_800_000),
            Long(1_900_000),
            Other(4),
        ],
        report: [1, 0, 0, 0],
    },
    Row {
        name: "clock references, discontinuities and random access",
        network: &[
            Pat,
            CuedMap,
            Field(1_200_000, &[0xD0, 1, 2, 3, 4, 5, 6]),
            Start(1, 1_500_000, 345_000),
            Alone(&[0x10, 2, 2, 3, 4, 5, 6]),
            Field(1_500_000, &[0xD0, 3, 2, 3, 4, 5, 6]),
            Alone(&[0x90, 4, 2, 3, 4, 5, 6, 0xAA]),
            Field(1_600_000, &[0xC0]),
            Alone(&[0x80]),
            Field(1_900_000, &[0xC0]),
        ],
        want: &[
            Pat,
            Map,
            Field(1_200_000, &[0xD0, 1, 2, 3, 4, 5, 6]),
            Alone(&[0x10, 2, 2, 3, 4, 5, 6]),
            Ad(1_500_000),
            Alone(&[0x10, 3, 2, 3, 4, 5, 6]),
            Alone(&[0x90, 4, 2, 3, 4, 5, 6, 0xAA]),
            Alone(&[0x80]),
            Ad(1_800_000),
            Field(1_900_000, &[0xC0]),
        ],
        report: [1, 0, 0, 0],
    },
];

/// Of video and audio.
const BOTH_ROWS: &[Row] = &[
    Row {
        name: "a network that ends in it",
        network: &[
            Pat,
            CuedMaps,
            Video(1_200_000),
            Audio(1_200_000),
            Start(1, 1_500_000, 900_000),
            Audio(1_500_000),
            Video(1_500_000),
        ],
        want: &[
            Pat,
            Maps,
            Video(1_200_000),
            Audio(1_200_000),
            AdAudio(1_500_000),
            Ad(1_500_000),
            Ad(1_800_000),
            Ad(2_100_000),
            Ad(2_355_000),
            AdAudio(1_900_000),
            AdAudio(2_355_000),
        ],
        report: [1, 0, 0, 0],
    },
    Row {
        name: "video of the advertisement begins later",
        network: &[
            Pat,
            CuedMaps,
            Video(1_200_000),
            Audio(1_200_000),
            StartOf(1, 1_500_000, 900_000, 8),
            Video(1_500_000),
            Audio(1_500_000),
            Video(1_799_999),
            Video(1_800_000),
            Video(2_400_000),
            Audio(2_400_000),
        ],
        want: &[
            Pat,
            Maps,
            Video(1_200_000),
            Audio(1_200_000),
            AdAudio(1_500_000),
            Ad(1_800_000),
            Ad(2_355_000),
            AdAudio(2_355_000),
            Video(2_400_000),
            Audio(2_400_000),
        ],
        report: [1, 0, 0, 0],
    },
    Row {
        name: "no unit of audio",
        network: &[
            Pat,
            CuedMaps,
            Video(1_200_000),
            Audio(1_200_000),
            StartOf(1, 1_500_000, 40_000, 9),
            Video(1_500_000),
            Audio(1_500_000),
            Video(1_540_000),
            Audio(1_540_000),
        ],
        want: &[
            Pat,
            Maps,
            Video(1_200_000),
            Audio(1_200_000),
            Ad(1_500_000),
            Video(1_540_000),
            Audio(1_540_000),
        ],
        report: [1, 0, 0, 0],
    },
    Row {
        name: "audio silent while it runs",
        network: &[
            Pat,
            CuedMaps,
            Audio(1_200_000),
            Video(1_200_000),
            StartOf(1, 1_500_000, 40_000, 9),
            Start(2, 1_540_000, 345_000),
            Video(1_500_000),
            Video(1_540_000),
            Video(1_885_000),
            Video(2_785_000),
            Audio(2_785_000),
            Video(2_785_001),
        ],
        want: &[
            Pat,
            Maps,
            Audio(1_200_000),
            Video(1_200_000),
            Ad(1_500_000),
            Ad(1_540_000),
            Ad(1_840_000),
            Video(1_885_000),
            Video(2_785_000),
            Audio(2_785_000),
            Video(2_785_001),
        ],
        report: [2, 0, 0, 0],
    },
    Row {
        name: "audio silent nearly too long",
        network: &[
            Pat,
            CuedMaps,
            Audio(1_200_000),
            Video(1_200_000),
            Start(2, 1_540_000, 445_000),
            Video(1_540_000),
            Video(1_985_000),
            Video(2_884_999),
            Audio(2_884_999),
            Video(2_885_000),
        ],
        want: &[
            Pat,
            Maps,
            Audio(1_200_000),
            Video(1_200_000),
            Ad(1_540_000),
            Ad(1_840_000),
            Video(1_985_000),
            Video(2_884_999),
            AdAudio(1_540_000),
            AdAudio(1_940_000),
            Audio(2_884_999),
            Video(2_885_000),
        ],
        report: [1, 0, 0, 0],
    },
    Row {
        name: "the first unit of video in it, with a clock reference and the counter 15",
        network: &[
            Pat,
            CuedMaps,
            Audio(1_200_000),
            Start(1, 1_500_000, 345_000),
            Counter(15),
            Field(1_500_000, &[0x10, 1, 2, 3, 4, 5, 6]),
            Audio(1_500_000),
            Video(1_900_000),
            Audio(1_900_000),
        ],
        want: &[
            Pat,
            Maps,
            Audio(1_200_000),
            Ad(1_500_000),
            Counter(0),
            Alone(&[0x10, 1, 2, 3, 4, 5, 6]),
            AdAudio(1_500_000),
            Ad(1_800_000),
            Video(1_900_000),
            Audio(1_900_000),
        ],
        report: [1, 0, 0, 0],
    },
    Row {
        name: "not long enough for audio",
        network: &[
            Pat,
            CuedMaps,
            Audio(1_200_000),
            Start(1, 1_500_000, 900_001),
            Audio(1_500_000),
            Video(1_500_000),
        ],
        want: &[
            Pat,
            Maps,
            Audio(1_200_000),
            Audio(1_500_000),
            Video(1_500_000),
        ],
        report: [0, 1, 0, 0],
    },
];

/// At a unit at which a decoder can begin goes out a packet that is so marked.
const ACCESS: &[Filed] = &[(
    7,
    &[Pat, Map, AdAccess(90_000), Ad(390_000), AdAccess(391_000)],
)];

const ACCESS_ROWS: &[Row] = &[Row {
    name: "random access of an advertisement",
    network: &[
        Pat,
        CuedMap,
        Video(1_200_000),
        Start(1, 1_500_000, 345_000),
        Video(1_500_000),
        Video(1_845_000),
    ],
    want: &[
        Pat,
        Map,
        Video(1_200_000),
        AdAccess(1_500_000),
        Ad(1_800_000),
        AdAccess(1_801_000),
        Video(1_845_000),
    ],
    report: [1, 0, 0, 0],
}];

#[test]
fn breaks_of_video(rt: HostRuntime) -> Result<(), Fail> {
    expect_rows(&rt, SEVEN, VIDEO_ROWS)?;
    expect_rows(&rt, ACCESS, ACCESS_ROWS)
}

#[test]
fn breaks_of_video_and_audio(rt: HostRuntime) -> Result<(), Fail> {
    expect_rows(&rt, BOTH, BOTH_ROWS)
}

/// Ten cues of breaks, and video at each of their starts and behind it.
fn ten_cues(alloc: Global) -> Result<Stream, AllocError> {
    let mut network = Stream::of(alloc, &[Pat, CuedMaps, Audio(1_200_000), Video(1_200_000)])?;
    for k in 0..10 {
        network.add(&[Start(k, 1_500_000 + 90_000 * u64::from(k), 40_000)])?;
    }
    for k in 0..10 {
        let start = 1_500_000 + 90_000 * k;
        network.add(&[Video(start), Video(start + 45_000)])?;
    }
    network.add(&[Audio(2_400_000), Video(2_400_000)])?;
    Ok(network)
}

/// What goes out: in audio all of them at its first unit behind them.
fn ten_slices(alloc: Global) -> Result<Stream, AllocError> {
    let mut want = Stream::of(alloc, &[Pat, Maps, Audio(1_200_000), Video(1_200_000)])?;
    for k in 0..10 {
        let start = 1_500_000 + 90_000 * k;
        want.add(&[Ad(start), Video(start + 45_000)])?;
    }
    for k in 0..10 {
        want.add(&[AdAudio(1_500_000 + 90_000 * k)])?;
    }
    want.add(&[Audio(2_400_000), Video(2_400_000)])?;
    Ok(want)
}

/// Ten breaks of one unit each.
#[test]
fn ten_breaks(rt: HostRuntime) -> Result<(), Fail> {
    let library = library(rt.alloc(), BOTH)?;
    let network = ten_cues(rt.alloc())?;
    let want = ten_slices(rt.alloc())?;
    let report = [10, 0, 0, 0];
    expect_splice(&rt, "ten", network.bytes(), &library, want.bytes(), report)
}

/// A network with 33 events of no advertisement, and the last that stands once more.
fn many_cues(alloc: Global) -> Result<Stream, AllocError> {
    let mut network = Stream::of(alloc, &[Pat, CuedMap, Video(900_000)])?;
    for k in 0..33 {
        network.add(&[StartOf(k, 1_500_000 + 10 * u64::from(k), 10, 8)])?;
    }
    network.add(&[StartOf(31, 1_500_310, 10, 8), Video(1_800_000)])?;
    Ok(network)
}

/// The 33rd event is refused, and one that stands is repeated all the same.
#[test]
fn thirty_three_events(rt: HostRuntime) -> Result<(), Fail> {
    let library = library(rt.alloc(), SEVEN)?;
    let network = many_cues(rt.alloc())?;
    let want = Stream::of(rt.alloc(), &[Pat, Map, Video(900_000), Video(1_800_000)])?;
    let report = [0, 32, 0, 1];
    expect_splice(&rt, "33", network.bytes(), &library, want.bytes(), report)
}
