//! Advertisements that do not fit.

use crate::runs::*;
use crate::stream::Item::*;
use crate::stream::{AAC, AVC, Item, Stream};
use std::test::Fail;

/// The start of a program, up to the first time past a break of ten seconds from 450,000 on.
const NETWORK: &[Item] = &[
    Pat,
    Map(1, &[(AVC, VIDEO), (AAC, SOUND)]),
    Point(VIDEO, 90_000),
    Unit(SOUND, 90_000),
    Point(VIDEO, 450_000),
    Unit(SOUND, 450_000),
    Point(VIDEO, 1_350_000),
    Point(VIDEO, 2_250_000),
];

#[test]
fn an_advertisement_that_is_not_listed_is_told(rt: HostRuntime) -> Result<(), Fail> {
    let outcome = run(
        rt.alloc(),
        Kind::Run,
        NETWORK,
        "4 FFFF001E00000500010000010101000E010000000100090FA00064000001\n",
    )?;
    expect(
        &rt,
        &outcome,
        r#"{"kind":"request","packet":4,"message":5,"as_index":0,"index":1,"operation":"start","event":1,"program_id":9,"pre_roll":4000,"duration":100,"auto_return":true,"result":100,"verdict":"Success","accepted":true,"answered":true}
{"kind":"cue","packet":4,"cue":"start","event":1,"pts":450000,"duration":900000,"program_id":9,"why":"no_advertisement"}
{"kind":"not_fitted","packet":7,"event":1,"pts":450000,"duration":900000,"program_id":9,"why":"no_advertisement"}
{"kind":"end","packet":8}
"#,
        "warning: breaks whose advertisement is not in the list: 1, the first event 1 with 9\n",
    );
    Ok(())
}

#[test]
fn an_advertisement_without_a_stream_is_told(rt: HostRuntime) -> Result<(), Fail> {
    let alloc = rt.alloc();
    let network = Stream::of(alloc, NETWORK)?;
    // It has pictures alone.
    let outcome = run_bytes(
        alloc,
        Kind::Run,
        &[
            Pat,
            Map(1, &[(AVC, VIDEO)]),
            Point(VIDEO, 90_000),
            Unit(VIDEO, 945_000),
        ],
        network.bytes(),
        "4 FFFF001E00000500010000010101000E010000000100070FA00064000001\n",
    )?;
    expect(
        &rt,
        &outcome,
        r#"{"kind":"request","packet":4,"message":5,"as_index":0,"index":1,"operation":"start","event":1,"program_id":7,"pre_roll":4000,"duration":100,"auto_return":true,"result":100,"verdict":"Success","accepted":true,"answered":true}
{"kind":"cue","packet":4,"cue":"start","event":1,"pts":450000,"duration":900000,"program_id":7,"why":"no_stream","pid":257,"stream_type":15}
{"kind":"not_fitted","packet":7,"event":1,"pts":450000,"duration":900000,"program_id":7,"why":"no_stream","pid":257,"stream_type":15}
{"kind":"end","packet":8}
"#,
        "",
    );
    Ok(())
}

#[test]
fn an_advertisement_that_is_too_short_is_told(rt: HostRuntime) -> Result<(), Fail> {
    let alloc = rt.alloc();
    let network = Stream::of(alloc, NETWORK)?;
    // Its last unit of sound lies 845,000 past its first: with half a second it fills 890,000 of 900,000.
    let outcome = run_bytes(
        alloc,
        Kind::Run,
        &[
            Pat,
            Map(1, &[(AVC, VIDEO), (AAC, SOUND)]),
            Point(VIDEO, 90_000),
            Unit(SOUND, 90_000),
            Unit(VIDEO, 945_000),
            Unit(SOUND, 935_000),
        ],
        network.bytes(),
        "4 FFFF001E00000500010000010101000E010000000100070FA00064000001\n",
    )?;
    expect(
        &rt,
        &outcome,
        r#"{"kind":"request","packet":4,"message":5,"as_index":0,"index":1,"operation":"start","event":1,"program_id":7,"pre_roll":4000,"duration":100,"auto_return":true,"result":100,"verdict":"Success","accepted":true,"answered":true}
{"kind":"cue","packet":4,"cue":"start","event":1,"pts":450000,"duration":900000,"program_id":7,"why":"too_short","too_short_by":10000}
{"kind":"not_fitted","packet":7,"event":1,"pts":450000,"duration":900000,"program_id":7,"why":"too_short","too_short_by":10000}
{"kind":"end","packet":8}
"#,
        "",
    );
    Ok(())
}
