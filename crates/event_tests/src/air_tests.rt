//! What is told of runs on air.

use crate::runs::*;
use crate::stream::Item::*;
use crate::stream::{AAC, AVC, Item};
use std::test::Fail;

/// A network whose clock begins anew with packet 6, in a break.
const ANEW: &[Item] = &[
    Pat,
    Map(1, &[(AVC, VIDEO), (AAC, SOUND)]),
    Point(VIDEO, 90_000),
    Unit(SOUND, 90_000),
    Point(VIDEO, 450_000),
    Unit(SOUND, 450_000),
    Point(VIDEO, 9_000_000),
    Point(VIDEO, 9_100_000),
];

#[test]
fn a_break_is_lost_with_its_stretch(rt: HostRuntime) -> Result<(), Fail> {
    // Packet 6 lies far off and is left unjudged; so does packet 7, with which a stretch begins anew: the break that runs is counted, and lost.
    let outcome = run(
        rt.alloc(),
        Kind::RunOnAir,
        ANEW,
        "4 FFFF001E00000500010000010101000E010000000100070FA00064000001\n",
    )?;
    expect(
        &rt,
        &outcome,
        r#"{"kind":"request","packet":4,"message":5,"as_index":0,"index":1,"operation":"start","event":1,"program_id":7,"pre_roll":4000,"duration":100,"auto_return":true,"result":100,"verdict":"Success","accepted":true,"answered":true}
{"kind":"cue","packet":4,"cue":"start","event":1,"pts":450000,"duration":900000,"program_id":7}
{"kind":"begun","packet":4,"event":1,"pid":256,"pts":450000}
{"kind":"begun","packet":5,"event":1,"pid":257,"pts":450000}
{"kind":"played","packet":7,"event":1,"pts":450000,"duration":900000,"program_id":7}
{"kind":"lost","packet":7,"count":1}
{"kind":"end","packet":8}
"#,
        "",
    );
    Ok(())
}

/// The same network, in which packet 5 is scrambled.
const SCRAMBLED: &[Item] = &[
    Pat,
    Map(1, &[(AVC, VIDEO), (AAC, SOUND)]),
    Point(VIDEO, 90_000),
    Unit(SOUND, 90_000),
    Point(VIDEO, 450_000),
    Scrambled(SOUND),
    Unit(SOUND, 460_000),
];

#[test]
fn packets_that_are_left_unjudged_are_counted(rt: HostRuntime) -> Result<(), Fail> {
    // The packet behind the scrambled one still has its number.
    let outcome = run(
        rt.alloc(),
        Kind::RunOnAir,
        SCRAMBLED,
        "4 FFFF001E00000500010000010101000E010000000100070FA00064000001\n",
    )?;
    expect(
        &rt,
        &outcome,
        r#"{"kind":"request","packet":4,"message":5,"as_index":0,"index":1,"operation":"start","event":1,"program_id":7,"pre_roll":4000,"duration":100,"auto_return":true,"result":100,"verdict":"Success","accepted":true,"answered":true}
{"kind":"cue","packet":4,"cue":"start","event":1,"pts":450000,"duration":900000,"program_id":7}
{"kind":"begun","packet":4,"event":1,"pid":256,"pts":450000}
{"kind":"begun","packet":6,"event":1,"pid":257,"pts":460000}
{"kind":"played","packet":7,"event":1,"pts":450000,"duration":900000,"program_id":7}
{"kind":"end","packet":7}
"#,
        "",
    );
    Ok(())
}
