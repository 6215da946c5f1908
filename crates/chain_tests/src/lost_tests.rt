//! Networks of whose cues some are lost, or come twice, and long ones, in which the clock goes round.

use crate::fail_automation::FailAutomation;
use crate::item::Item::{self, *};
use crate::runs::{Filed, SEVEN, config, difference, expect_splice, library};
use crate::stream::Stream;
use chain_engine::{Chain, run_inject};
use std::alloc::{AllocError, Global};
use std::test::*;
use ts_packet::{Device, PacketReader, PacketWriter};

/// The cue of a break from 1,440,000 for 900,000.
const BREAK: Item = Start(1, 1_440_000, 900_000);

/// Units before each of which a cue comes, as the injector sends them: a second apart.
const UNITS: [Item; 5] = [
    Video(900_000),
    Video(990_000),
    Video(1_080_000),
    Video(1_170_000),
    Video(1_260_000),
];

/// What comes behind them.
const BEHIND: [Item; 5] = [
    Video(1_500_000),
    Video(1_800_000),
    Video(2_100_000),
    Video(2_400_000),
    Video(2_700_000),
];

/// That break, played.
const PLAYED: [Item; 6] = [
    Ad(1_440_000),
    Ad(1_740_000),
    Ad(2_040_000),
    Ad(2_295_000),
    Video(2_400_000),
    Video(2_700_000),
];

/// How a cue that is not lost comes.
#[derive(Clone, Copy)]
enum Times {
    Once,
    /// Two packets in a row.
    Twice,
    /// A packet and its duplicate.
    Doubled,
}

/// The network with those of these five cues whose bit is set, and the others lost.
fn thinned(alloc: Global, cues: &[Item; 5], set: u32, times: Times) -> Result<Stream, AllocError> {
    let mut network = Stream::of(alloc, &[Pat, CuedMap])?;
    for ((unit, cue), bit) in UNITS.iter().zip(cues).zip([1, 2, 4, 8, 16]) {
        network.add(&[*unit])?;
        if set & bit == 0 {
            network.add(&[Lost])?;
            continue;
        }
        network.add(&[*cue])?;
        match times {
            Times::Once => {}
            Times::Twice => network.add(&[*cue])?,
            Times::Doubled => network.double()?,
        }
    }
    network.add(&BEHIND)?;
    Ok(network)
}

/// What goes out before such a break, and this behind it.
fn spliced(alloc: Global, behind: &[Item]) -> Result<Stream, AllocError> {
    let mut want = Stream::of(alloc, &[Pat, Map])?;
    want.add(&UNITS)?;
    want.add(behind)?;
    Ok(want)
}

/// The start of break 1 in 6 seconds, for 10 seconds, and a cancel of it.
const MESSAGES: [u8; 60] = [
    0xFF, 0xFF, 0, 0x1E, 0, 0, 5, 0, 1, 0, 0, 1, 1, 1, 0, 0x0E, 1, 0, 0, 0, 1, 0, 7, 0x17, 0x70, 0,
    0x64, 0, 0, 1, 0xFF, 0xFF, 0, 0x1E, 0, 0, 6, 0, 1, 0, 0, 1, 1, 1, 0, 0x0E, 5, 0, 0, 0, 1, 0, 0,
    0, 0, 0, 0, 0, 0, 0,
];

/// Two starts, and then cancels.
const CANCELLED: [Item; 5] = [BREAK, BREAK, Cancel(1), Cancel(1), Cancel(1)];

/// What `run_inject` makes of the network without cues, where so many bytes of the messages come, one before the second unit and one before
/// the fourth.
fn injected(alloc: Global, size: usize) -> Result<Vec<u8>, Fail> {
    let mut network = Stream::of(alloc, &[Pat, Map])?;
    network.add(&UNITS)?;
    network.add(&BEHIND)?;
    let mut automation = FailAutomation::of(
        alloc,
        &MESSAGES[..size.min(60)],
        &[0, 0, 0, 30, 0, 30],
    );
    let Ok(chain) = Chain::new(alloc, config()?) else {
        return Err(Fail::from("memory"));
    };
    let mut input = Device::new(network.bytes());
    let mut reader = PacketReader::new(&mut input);
    let mut target = Device::new(Vec::new(alloc));
    let mut out = PacketWriter::new(&mut target);
    if run_inject(chain, &mut reader, &mut automation, &mut out).is_err() {
        return Err(Fail::from("a run"));
    }
    Ok(target.into_inner())
}

/// The cues of the other tests are those that a chain sends.
#[test]
fn the_cues_are_the_injectors(rt: HostRuntime) -> Result<(), Fail> {
    for (cues, size) in [(&[BREAK; 5], 30), (&CANCELLED, 60)] {
        let want = thinned(rt.alloc(), cues, 31, Times::Once)?;
        let got = injected(rt.alloc(), size)?;
        assert_eq!(rt;
            difference(got.as_slice(), want.bytes()),
            None,
            "with {size} bytes"
        );
    }
    Ok(())
}

/// Any cue of a break does for all of them.
#[test]
fn each_choice_of_cues(rt: HostRuntime) -> Result<(), Fail> {
    let library = library(rt.alloc(), SEVEN)?;
    let want = spliced(rt.alloc(), &PLAYED)?;
    for set in 1..32 {
        for times in [Times::Once, Times::Twice, Times::Doubled] {
            let network = thinned(rt.alloc(), &[BREAK; 5], set, times)?;
            expect_splice(
                &rt,
                "a choice",
                network.bytes(),
                &library,
                want.bytes(),
                [1, 0, 0, 0],
            )?;
        }
    }
    Ok(())
}

/// Any cancel does for all of them, and so does no start at all.
#[test]
fn each_choice_of_cancels(rt: HostRuntime) -> Result<(), Fail> {
    let library = library(rt.alloc(), SEVEN)?;
    let want = spliced(rt.alloc(), &BEHIND)?;
    for set in 0..32u32 {
        let cancels = u64::from((set >> 2 & 1) + (set >> 3 & 1) + (set >> 4 & 1));
        let has_start = set & 3 != 0;
        if has_start && cancels == 0 {
            continue;
        }
        let ignored = if has_start { 0 } else { cancels };
        let network = thinned(rt.alloc(), &CANCELLED, set, Times::Once)?;
        let report = [0, 0, 0, ignored];
        expect_splice(
            &rt,
            "a cancel",
            network.bytes(),
            &library,
            want.bytes(),
            report,
        )?;
    }
    Ok(())
}

/// Any repeat of an early end does, where its first cue came, and at least one cue of the start before it.
#[test]
fn each_choice_of_ends(rt: HostRuntime) -> Result<(), Fail> {
    let library = library(rt.alloc(), SEVEN)?;
    let cues = [
        BREAK,
        BREAK,
        End(1, 1_900_000),
        End(1, 1_900_000),
        End(1, 1_900_000),
    ];
    let want = spliced(
        rt.alloc(),
        &[
            Ad(1_440_000),
            Ad(1_740_000),
            Video(2_100_000),
            Video(2_400_000),
            Video(2_700_000),
        ],
    )?;
    for set in 0..32 {
        if set & 3 == 0 || set & 28 == 0 {
            continue;
        }
        let network = thinned(rt.alloc(), &cues, set, Times::Once)?;
        expect_splice(
            &rt,
            "an end",
            network.bytes(),
            &library,
            want.bytes(),
            [1, 0, 0, 0],
        )?;
    }
    Ok(())
}

/// With audio too.
const BOTH: &[Filed] = &[(
    7,
    &[
        Pat,
        Maps,
        Ad(90_000),
        AdAudio(90_000),
        Ad(945_000),
        AdAudio(945_000),
    ],
)];

/// Where of these long networks the three breaks lie: the unit before each is the one before the clock begins anew.
const TURNS: [u64; 3] = [9_543, 19_087, 28_632];

/// Video for more than three turns of the clock, units ten seconds apart. In each turn a break lies where the clock begins anew. Audio
/// has a unit at the first time and one at the last.
fn turning(alloc: Global) -> Result<Stream, AllocError> {
    let mut network = Stream::of(alloc, &[Pat, CuedMaps, Audio(0)])?;
    for k in 0..28_700 {
        network.add(&[Video(900_000 * k)])?;
        if TURNS.contains(&k) {
            network.add(&[Start(1, 900_000 * k + 900_000, 900_000)])?;
        }
    }
    network.add(&[Audio(900_000 * 28_699)])?;
    Ok(network)
}

/// What goes out of it: in each break the unit at its start makes room for the two of the advertisement, and audio is as it was.
fn turned(alloc: Global) -> Result<Stream, AllocError> {
    let mut want = Stream::of(alloc, &[Pat, Maps, Audio(0)])?;
    for k in 0..28_700u64 {
        let time = 900_000 * k;
        if TURNS.contains(&k.wrapping_sub(1)) {
            want.add(&[Ad(time), Ad(time + 855_000)])?;
        } else {
            want.add(&[Video(time)])?;
        }
    }
    want.add(&[Audio(900_000 * 28_699)])?;
    Ok(want)
}

/// A break that begins before the clock turns, and ends behind that, three times over.
#[test]
fn three_turns_of_the_clock(rt: HostRuntime) -> Result<(), Fail> {
    let library = library(rt.alloc(), BOTH)?;
    let network = turning(rt.alloc())?;
    let want = turned(rt.alloc())?;
    let report = [3, 0, 0, 0];
    expect_splice(
        &rt,
        "turns",
        network.bytes(),
        &library,
        want.bytes(),
        report,
    )
}
