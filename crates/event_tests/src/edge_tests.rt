//! Edges that are not clean.

use crate::runs::*;
use crate::stream::Item::*;
use crate::stream::{AAC, AVC, Item};
use std::test::Fail;

/// A network that has no random access point at the start of a break from 450,000 on, and steps back over it and over its end at 1,350,000.
const CROSSED: &[Item] = &[
    Pat,
    Map(1, &[(AVC, VIDEO), (AAC, SOUND)]),
    Point(VIDEO, 90_000),
    Unit(SOUND, 90_000),
    Unit(VIDEO, 450_000),
    Unit(SOUND, 450_000),
    Unit(VIDEO, 446_400),
    Unit(SOUND, 900_000),
    Point(VIDEO, 900_000),
    Unit(SOUND, 1_350_000),
    Unit(SOUND, 1_348_000),
    Unit(SOUND, 1_347_000),
    Point(VIDEO, 1_350_000),
    Unit(SOUND, 2_250_000),
];

#[test]
fn each_edge_is_told_once_in_each_stream(rt: HostRuntime) -> Result<(), Fail> {
    // With a unit below its start the break is over in that stream.
    let outcome = run(
        rt.alloc(),
        Kind::Run,
        CROSSED,
        "4 FFFF001E00000500010000010101000E010000000100070FA00064000001\n",
    )?;
    expect(
        &rt,
        &outcome,
        r#"{"kind":"request","packet":4,"message":5,"as_index":0,"index":1,"operation":"start","event":1,"program_id":7,"pre_roll":4000,"duration":100,"auto_return":true,"result":100,"verdict":"Success","accepted":true,"answered":true}
{"kind":"cue","packet":4,"cue":"start","event":1,"pts":450000,"duration":900000,"program_id":7}
{"kind":"begun","packet":4,"event":1,"pid":256,"pts":450000}
{"kind":"edge","packet":4,"event":1,"edge":"start","pid":256,"pts":450000,"why":"no_random_access"}
{"kind":"begun","packet":5,"event":1,"pid":257,"pts":450000}
{"kind":"edge","packet":6,"event":1,"edge":"start","pid":256,"pts":446400,"why":"stepped_back","ticks":3600}
{"kind":"over","packet":6,"event":1,"pid":256,"pts":446400}
{"kind":"random_access","packet":8,"event":1,"edge":"start","pid":256,"pts":450000,"ticks":450000}
{"kind":"over","packet":9,"event":1,"pid":257,"pts":1350000}
{"kind":"edge","packet":10,"event":1,"edge":"end","pid":257,"pts":1348000,"why":"stepped_back","ticks":2000}
{"kind":"played","packet":13,"event":1,"pts":450000,"duration":900000,"program_id":7}
{"kind":"unconditioned","packet":13,"event":1,"pts":450000,"duration":900000,"program_id":7}
{"kind":"end","packet":14}
"#,
        "warning: the start of event 1 is not clean on PID 256 (0x0100), packet 4: no random access point\nwarning: the start of event 1 is not clean on PID 256 (0x0100), packet 6: the time stamps step back over it by 3600 ticks\nwarning: the end of event 1 is not clean on PID 257 (0x0101), packet 10: the time stamps step back over it by 2000 ticks\n",
    );
    Ok(())
}

/// A network whose sound steps back over the start, and whose video has random access points nowhere.
const MANY: &[Item] = &[
    Pat,
    Map(1, &[(AVC, VIDEO), (AAC, SOUND)]),
    Unit(VIDEO, 90_000),
    Unit(SOUND, 90_000),
    Unit(VIDEO, 450_000),
    Unit(SOUND, 450_000),
    Unit(SOUND, 440_000),
    Unit(VIDEO, 440_000),
    Unit(SOUND, 1_000_000),
    Unit(VIDEO, 1_350_000),
];

#[test]
fn the_first_three_edges_are_warned_of_with_their_place(rt: HostRuntime) -> Result<(), Fail> {
    let outcome = run(
        rt.alloc(),
        Kind::Run,
        MANY,
        "4 FFFF001E00000500010000010101000E010000000100070FA00064000001\n",
    )?;
    expect(
        &rt,
        &outcome,
        r#"{"kind":"request","packet":4,"message":5,"as_index":0,"index":1,"operation":"start","event":1,"program_id":7,"pre_roll":4000,"duration":100,"auto_return":true,"result":100,"verdict":"Success","accepted":true,"answered":true}
{"kind":"cue","packet":4,"cue":"start","event":1,"pts":450000,"duration":900000,"program_id":7}
{"kind":"begun","packet":4,"event":1,"pid":256,"pts":450000}
{"kind":"edge","packet":4,"event":1,"edge":"start","pid":256,"pts":450000,"why":"no_random_access"}
{"kind":"begun","packet":5,"event":1,"pid":257,"pts":450000}
{"kind":"edge","packet":6,"event":1,"edge":"start","pid":257,"pts":440000,"why":"stepped_back","ticks":10000}
{"kind":"over","packet":6,"event":1,"pid":257,"pts":440000}
{"kind":"edge","packet":7,"event":1,"edge":"start","pid":256,"pts":440000,"why":"stepped_back","ticks":10000}
{"kind":"over","packet":7,"event":1,"pid":256,"pts":440000}
{"kind":"edge","packet":9,"event":1,"edge":"end","pid":256,"pts":1350000,"why":"no_random_access"}
{"kind":"played","packet":10,"event":1,"pts":450000,"duration":900000,"program_id":7}
{"kind":"unconditioned","packet":10,"event":1,"pts":450000,"duration":900000,"program_id":7}
{"kind":"end","packet":10}
"#,
        "warning: the start of event 1 is not clean on PID 256 (0x0100), packet 4: no random access point\nwarning: the start of event 1 is not clean on PID 257 (0x0101), packet 6: the time stamps step back over it by 10000 ticks\nwarning: the start of event 1 is not clean on PID 256 (0x0100), packet 7: the time stamps step back over it by 10000 ticks\nwarning: edges that are not clean: 1 more\n",
    );
    Ok(())
}

/// A network with a random access point of an open group at the start and behind the end of a break of ten seconds from 450,000 on.
const OPEN: &[Item] = &[
    Pat,
    Map(1, &[(AVC, VIDEO), (AAC, SOUND)]),
    Point(VIDEO, 90_000),
    Unit(SOUND, 90_000),
    Open(VIDEO, 450_000),
    Unit(SOUND, 450_000),
    Open(VIDEO, 900_000),
    Unit(VIDEO, 1_350_000),
    Open(VIDEO, 1_360_000),
    Point(VIDEO, 1_370_000),
];

#[test]
fn a_picture_that_goes_on_is_at_no_clean_edge(rt: HostRuntime) -> Result<(), Fail> {
    let outcome = run(
        rt.alloc(),
        Kind::Run,
        OPEN,
        "4 FFFF001E00000500010000010101000E010000000100070FA00064000001\n",
    )?;
    expect(
        &rt,
        &outcome,
        r#"{"kind":"request","packet":4,"message":5,"as_index":0,"index":1,"operation":"start","event":1,"program_id":7,"pre_roll":4000,"duration":100,"auto_return":true,"result":100,"verdict":"Success","accepted":true,"answered":true}
{"kind":"cue","packet":4,"cue":"start","event":1,"pts":450000,"duration":900000,"program_id":7}
{"kind":"begun","packet":4,"event":1,"pid":256,"pts":450000}
{"kind":"edge","packet":4,"event":1,"edge":"start","pid":256,"pts":450000,"why":"no_entry_picture"}
{"kind":"begun","packet":5,"event":1,"pid":257,"pts":450000}
{"kind":"over","packet":7,"event":1,"pid":256,"pts":1350000}
{"kind":"edge","packet":7,"event":1,"edge":"end","pid":256,"pts":1350000,"why":"no_random_access"}
{"kind":"random_access","packet":9,"event":1,"edge":"start","pid":256,"pts":450000,"ticks":920000}
{"kind":"random_access","packet":9,"event":1,"edge":"end","pid":256,"pts":1350000,"ticks":20000}
{"kind":"played","packet":10,"event":1,"pts":450000,"duration":900000,"program_id":7}
{"kind":"end","packet":10}
"#,
        "warning: the start of event 1 is not clean on PID 256 (0x0100), packet 4: its picture goes on from those before it\nwarning: the end of event 1 is not clean on PID 256 (0x0100), packet 7: no random access point\n",
    );
    Ok(())
}
