//! Breaks, from the request to the count.

use crate::runs::*;
use crate::stream::Item::*;
use crate::stream::{AAC, AVC, Item};
use std::test::Fail;

/// A network with a random access point at the start and at the end of a break of ten seconds from 450,000 on.
const CLEAN: &[Item] = &[
    Pat,
    Map(1, &[(AVC, VIDEO), (AAC, SOUND)]),
    Point(VIDEO, 90_000),
    Unit(SOUND, 90_000),
    Point(VIDEO, 450_000),
    Unit(SOUND, 450_000),
    Unit(VIDEO, 900_000),
    Unit(SOUND, 900_000),
    Point(VIDEO, 1_350_000),
    Unit(SOUND, 1_350_000),
    Unit(VIDEO, 2_250_000),
    Unit(SOUND, 2_250_000),
];

#[test]
fn a_clean_break_is_told(rt: HostRuntime) -> Result<(), Fail> {
    // Before packet 4, at the time 90,000, event 1 is asked for in 4 seconds, for 10, with advertisement 7.
    let outcome = run(
        rt.alloc(),
        Kind::Run,
        CLEAN,
        "4 FFFF001E00000500010000010101000E010000000100070FA00064000001\n",
    )?;
    expect(
        &rt,
        &outcome,
        r#"{"kind":"request","packet":4,"message":5,"as_index":0,"index":1,"operation":"start","event":1,"program_id":7,"pre_roll":4000,"duration":100,"auto_return":true,"result":100,"verdict":"Success","accepted":true,"answered":true}
{"kind":"cue","packet":4,"cue":"start","event":1,"pts":450000,"duration":900000,"program_id":7}
{"kind":"begun","packet":4,"event":1,"pid":256,"pts":450000}
{"kind":"begun","packet":5,"event":1,"pid":257,"pts":450000}
{"kind":"over","packet":8,"event":1,"pid":256,"pts":1350000}
{"kind":"over","packet":9,"event":1,"pid":257,"pts":1350000}
{"kind":"played","packet":10,"event":1,"pts":450000,"duration":900000,"program_id":7}
{"kind":"end","packet":12}
"#,
        "",
    );
    Ok(())
}

#[test]
fn a_break_that_stands_is_counted_at_the_end(rt: HostRuntime) -> Result<(), Fail> {
    let outcome = run(
        rt.alloc(),
        Kind::Run,
        &CLEAN[..6],
        "4 FFFF001E00000500010000010101000E010000000100070FA00064000001\n",
    )?;
    expect(
        &rt,
        &outcome,
        r#"{"kind":"request","packet":4,"message":5,"as_index":0,"index":1,"operation":"start","event":1,"program_id":7,"pre_roll":4000,"duration":100,"auto_return":true,"result":100,"verdict":"Success","accepted":true,"answered":true}
{"kind":"cue","packet":4,"cue":"start","event":1,"pts":450000,"duration":900000,"program_id":7}
{"kind":"begun","packet":4,"event":1,"pid":256,"pts":450000}
{"kind":"begun","packet":5,"event":1,"pid":257,"pts":450000}
{"kind":"played","packet":6,"event":1,"pts":450000,"duration":900000,"program_id":7}
{"kind":"end","packet":6}
"#,
        "",
    );
    Ok(())
}

#[test]
fn a_cancelled_break_is_counted_nowhere(rt: HostRuntime) -> Result<(), Fail> {
    // Before packet 4 message 6 cancels event 1.
    let outcome = run(
        rt.alloc(),
        Kind::Run,
        CLEAN,
        "3 FFFF001E00000500010000010101000E010000000100070FA00064000001\n4 FFFF001E00000600010000010101000E0500000001000000000000000000\n",
    )?;
    expect(
        &rt,
        &outcome,
        r#"{"kind":"request","packet":3,"message":5,"as_index":0,"index":1,"operation":"start","event":1,"program_id":7,"pre_roll":4000,"duration":100,"auto_return":true,"result":100,"verdict":"Success","accepted":true,"answered":true}
{"kind":"cue","packet":3,"cue":"start","event":1,"pts":450000,"duration":900000,"program_id":7}
{"kind":"request","packet":4,"message":6,"as_index":0,"index":1,"operation":"cancel","event":1,"program_id":0,"pre_roll":0,"duration":0,"auto_return":false,"result":100,"verdict":"Success","accepted":true,"answered":true}
{"kind":"cue","packet":4,"cue":"cancel","event":1}
{"kind":"cancelled","packet":4,"event":1,"pts":450000,"duration":900000,"program_id":7}
{"kind":"end","packet":12}
"#,
        "",
    );
    Ok(())
}

#[test]
fn an_early_end_is_told(rt: HostRuntime) -> Result<(), Fail> {
    // Before packet 6, at the time 450,000, message 6 ends event 1 in 5 seconds, at 900,000.
    let outcome = run(
        rt.alloc(),
        Kind::Run,
        CLEAN,
        "4 FFFF001E00000500010000010101000E010000000100070FA00064000001\n6 FFFF001E00000600010000010101000E0300000001000013880000000000\n",
    )?;
    expect(
        &rt,
        &outcome,
        r#"{"kind":"request","packet":4,"message":5,"as_index":0,"index":1,"operation":"start","event":1,"program_id":7,"pre_roll":4000,"duration":100,"auto_return":true,"result":100,"verdict":"Success","accepted":true,"answered":true}
{"kind":"cue","packet":4,"cue":"start","event":1,"pts":450000,"duration":900000,"program_id":7}
{"kind":"begun","packet":4,"event":1,"pid":256,"pts":450000}
{"kind":"begun","packet":5,"event":1,"pid":257,"pts":450000}
{"kind":"request","packet":6,"message":6,"as_index":0,"index":1,"operation":"end","event":1,"program_id":0,"pre_roll":5000,"duration":0,"auto_return":false,"result":100,"verdict":"Success","accepted":true,"answered":true}
{"kind":"cue","packet":6,"cue":"end","event":1,"pts":900000}
{"kind":"ended_early","packet":6,"event":1,"pts":450000,"duration":450000,"program_id":7}
{"kind":"over","packet":6,"event":1,"pid":256,"pts":900000}
{"kind":"edge","packet":6,"event":1,"edge":"end","pid":256,"pts":900000,"why":"no_random_access"}
{"kind":"over","packet":7,"event":1,"pid":257,"pts":900000}
{"kind":"random_access","packet":8,"event":1,"edge":"end","pid":256,"pts":900000,"ticks":450000}
{"kind":"played","packet":10,"event":1,"pts":450000,"duration":450000,"program_id":7}
{"kind":"end","packet":12}
"#,
        "warning: the end of event 1 is not clean on PID 256 (0x0100), packet 6: no random access point\n",
    );
    Ok(())
}

#[test]
fn cues_that_go_out_first_are_told(rt: HostRuntime) -> Result<(), Fail> {
    // The cue of the start goes out once more a second later, and is told once.
    let outcome = run(
        rt.alloc(),
        Kind::Inject,
        CLEAN,
        "4 FFFF001E00000500010000010101000E010000000100070FA00064000001\n6 FFFF001E00000600010000010101000E0300000001000013880000000000\n",
    )?;
    expect(
        &rt,
        &outcome,
        r#"{"kind":"request","packet":4,"message":5,"as_index":0,"index":1,"operation":"start","event":1,"program_id":7,"pre_roll":4000,"duration":100,"auto_return":true,"result":100,"verdict":"Success","accepted":true,"answered":true}
{"kind":"cue","packet":4,"cue":"start","event":1,"pts":450000,"duration":900000,"program_id":7}
{"kind":"request","packet":6,"message":6,"as_index":0,"index":1,"operation":"end","event":1,"program_id":0,"pre_roll":5000,"duration":0,"auto_return":false,"result":100,"verdict":"Success","accepted":true,"answered":true}
{"kind":"cue","packet":6,"cue":"end","event":1,"pts":900000}
{"kind":"end","packet":12}
"#,
        "",
    );
    Ok(())
}

#[test]
fn cues_of_a_stream_are_told(rt: HostRuntime) -> Result<(), Fail> {
    let alloc = rt.alloc();
    // The cue stands before packet 4 of the network: it is packet 4 of the stream with cues, and all behind it come one later; the repetition,
    // a second later, comes before the unit at 900,000 no more, since the break has begun.
    let cued = run(
        alloc,
        Kind::Inject,
        CLEAN,
        "4 FFFF001E00000500010000010101000E010000000100070FA00064000001\n",
    )?;
    let outcome = run_bytes(alloc, Kind::Splice, ADVERT, cued.out.as_slice(), "")?;
    expect(
        &rt,
        &outcome,
        r#"{"kind":"cue","packet":4,"cue":"start","event":1,"pts":450000,"duration":900000,"program_id":7}
{"kind":"begun","packet":5,"event":1,"pid":256,"pts":450000}
{"kind":"begun","packet":6,"event":1,"pid":257,"pts":450000}
{"kind":"over","packet":9,"event":1,"pid":256,"pts":1350000}
{"kind":"over","packet":10,"event":1,"pid":257,"pts":1350000}
{"kind":"played","packet":11,"event":1,"pts":450000,"duration":900000,"program_id":7}
{"kind":"end","packet":13}
"#,
        "",
    );
    Ok(())
}

/// A network whose sound stands still from the start of a break of ten seconds from 450,000 on, until ten seconds behind its end.
const STILL: &[Item] = &[
    Pat,
    Map(1, &[(AVC, VIDEO), (AAC, SOUND)]),
    Point(VIDEO, 90_000),
    Unit(SOUND, 90_000),
    Point(VIDEO, 450_000),
    Unit(SOUND, 450_000),
    Point(VIDEO, 1_350_000),
    Point(VIDEO, 2_250_000),
    Unit(SOUND, 2_250_000),
];

#[test]
fn a_break_that_is_counted_is_told_of_no_more(rt: HostRuntime) -> Result<(), Fail> {
    // With packet 7 the break is counted: that the sound is past its end with packet 8 is not told.
    let outcome = run(
        rt.alloc(),
        Kind::Run,
        STILL,
        "4 FFFF001E00000500010000010101000E010000000100070FA00064000001\n",
    )?;
    expect(
        &rt,
        &outcome,
        r#"{"kind":"request","packet":4,"message":5,"as_index":0,"index":1,"operation":"start","event":1,"program_id":7,"pre_roll":4000,"duration":100,"auto_return":true,"result":100,"verdict":"Success","accepted":true,"answered":true}
{"kind":"cue","packet":4,"cue":"start","event":1,"pts":450000,"duration":900000,"program_id":7}
{"kind":"begun","packet":4,"event":1,"pid":256,"pts":450000}
{"kind":"begun","packet":5,"event":1,"pid":257,"pts":450000}
{"kind":"over","packet":6,"event":1,"pid":256,"pts":1350000}
{"kind":"played","packet":7,"event":1,"pts":450000,"duration":900000,"program_id":7}
{"kind":"end","packet":9}
"#,
        "",
    );
    Ok(())
}
