//! What is told of services.

use crate::runs::*;
use crate::stream::Item::*;
use crate::stream::{AAC, AVC, Item};
use std::process::Abort;
use std::test::Fail;

/// A network of program 1.
const NETWORK: &[Item] = &[
    Pat,
    Map(1, &[(AVC, VIDEO), (AAC, SOUND)]),
    Point(VIDEO, 90_000),
    Unit(SOUND, 90_000),
    Point(VIDEO, 450_000),
    Unit(SOUND, 450_000),
    Unit(VIDEO, 1_350_000),
];

#[test]
fn lines_name_their_service(rt: HostRuntime) -> Result<(), Fail> {
    let outcome = run(
        rt.alloc(),
        Kind::Services,
        NETWORK,
        "4 FFFF001E00000500010000010101000E010000000100070FA00064000001\n",
    )?;
    expect(
        &rt,
        &outcome,
        r#"{"kind":"request","packet":4,"message":5,"as_index":0,"index":1,"operation":"start","event":1,"program_id":7,"pre_roll":4000,"duration":100,"auto_return":true,"result":100,"verdict":"Success","accepted":true,"answered":true}
{"kind":"cue","service":1,"packet":4,"cue":"start","event":1,"pts":450000,"duration":900000,"program_id":7}
{"kind":"begun","service":1,"packet":4,"event":1,"pid":256,"pts":450000}
{"kind":"begun","service":1,"packet":5,"event":1,"pid":257,"pts":450000}
{"kind":"over","service":1,"packet":6,"event":1,"pid":256,"pts":1350000}
{"kind":"edge","service":1,"packet":6,"event":1,"edge":"end","pid":256,"pts":1350000,"why":"no_random_access"}
{"kind":"played","service":1,"packet":7,"event":1,"pts":450000,"duration":900000,"program_id":7}
{"kind":"end","packet":7}
"#,
        "warning: service 1: the end of event 1 is not clean on PID 256 (0x0100), packet 6: no random access point\n",
    );
    Ok(())
}

#[test]
fn services_on_air_are_told_as_services(rt: HostRuntime) -> Result<(), Fail> {
    let outcome = run(
        rt.alloc(),
        Kind::ServicesOnAir,
        NETWORK,
        "4 FFFF001E00000500010000010101000E010000000100070FA00064000001\n",
    )?;
    expect(
        &rt,
        &outcome,
        r#"{"kind":"request","packet":4,"message":5,"as_index":0,"index":1,"operation":"start","event":1,"program_id":7,"pre_roll":4000,"duration":100,"auto_return":true,"result":100,"verdict":"Success","accepted":true,"answered":true}
{"kind":"cue","service":1,"packet":4,"cue":"start","event":1,"pts":450000,"duration":900000,"program_id":7}
{"kind":"begun","service":1,"packet":4,"event":1,"pid":256,"pts":450000}
{"kind":"begun","service":1,"packet":5,"event":1,"pid":257,"pts":450000}
{"kind":"over","service":1,"packet":6,"event":1,"pid":256,"pts":1350000}
{"kind":"edge","service":1,"packet":6,"event":1,"edge":"end","pid":256,"pts":1350000,"why":"no_random_access"}
{"kind":"played","service":1,"packet":7,"event":1,"pts":450000,"duration":900000,"program_id":7}
{"kind":"end","packet":7}
"#,
        "warning: service 1: the end of event 1 is not clean on PID 256 (0x0100), packet 6: no random access point\n",
    );
    Ok(())
}

#[test]
fn a_program_that_is_not_there_is_told(rt: HostRuntime) -> Result<(), Fail> {
    let outcome = run(rt.alloc(), Kind::OtherOnAir, &NETWORK[..4], "")?;
    expect(
        &rt,
        &outcome,
        r#"{"kind":"not_found","service":3,"packet":4,"program":3}
{"kind":"end","packet":4}
"#,
        "warning: program 3 was not found in 4 packets\n",
    );
    Ok(())
}

#[test]
fn off_air_it_is_told_of_the_service_too(rt: HostRuntime) -> Result<(), Fail> {
    let outcome = run(rt.alloc(), Kind::OtherService, &NETWORK[..4], "")?;
    expect(
        &rt,
        &outcome,
        r#"{"kind":"not_found","service":3,"packet":4,"program":3}
{"kind":"end","packet":4}
"#,
        "warning: program 3 was not found in 4 packets\n",
    );
    Ok(())
}

/// The same network, with a null packet before the break and in it a unit of pictures whose time lies far below its start.
const HARMED: &[Item] = &[
    Pat,
    Map(1, &[(AVC, VIDEO), (AAC, SOUND)]),
    Point(VIDEO, 90_000),
    Unit(SOUND, 90_000),
    Null,
    Point(VIDEO, 450_000),
    Unit(SOUND, 450_000),
    Unit(VIDEO, 8_589_000_000),
    Unit(SOUND, 900_000),
    Point(VIDEO, 1_350_000),
];

/// What is told of it, where event 1 is asked for before the null packet. The unit is left unjudged: no edge is at it.
fn expect_harmed<R: Abort>(rt: &R, outcome: &Outcome) {
    expect(
        rt,
        outcome,
        r#"{"kind":"request","packet":4,"message":5,"as_index":0,"index":1,"operation":"start","event":1,"program_id":7,"pre_roll":4000,"duration":100,"auto_return":true,"result":100,"verdict":"Success","accepted":true,"answered":true}
{"kind":"cue","service":1,"packet":4,"cue":"start","event":1,"pts":450000,"duration":900000,"program_id":7}
{"kind":"begun","service":1,"packet":5,"event":1,"pid":256,"pts":450000}
{"kind":"begun","service":1,"packet":6,"event":1,"pid":257,"pts":450000}
{"kind":"over","service":1,"packet":9,"event":1,"pid":256,"pts":1350000}
{"kind":"played","service":1,"packet":10,"event":1,"pts":450000,"duration":900000,"program_id":7}
{"kind":"end","packet":10}
"#,
        "",
    );
}

#[test]
fn what_is_left_unjudged_is_at_no_edge(rt: HostRuntime) -> Result<(), Fail> {
    let outcome = run(
        rt.alloc(),
        Kind::ServicesOnAir,
        HARMED,
        "4 FFFF001E00000500010000010101000E010000000100070FA00064000001\n",
    )?;
    expect_harmed(&rt, &outcome);
    Ok(())
}

#[test]
fn and_of_one_service_too(rt: HostRuntime) -> Result<(), Fail> {
    let outcome = run(rt.alloc(), Kind::Other, &NETWORK[..4], "")?;
    expect(
        &rt,
        &outcome,
        r#"{"kind":"not_found","packet":4,"program":3}
{"kind":"end","packet":4}
"#,
        "warning: program 3 was not found in 4 packets\n",
    );
    Ok(())
}
