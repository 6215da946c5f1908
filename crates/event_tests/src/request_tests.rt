//! Requests, each with its verdict.

use crate::runs::*;
use crate::stream::Item::*;
use crate::stream::{AAC, AVC, Item};
use automations::Sessions;
use event_logs::{Listening, Telling, Warnings};
use run_events::Hearing;
use std::alloc::Global;
use std::cell::RefCell;
use std::test::Fail;

/// Two units of a program.
const SHORT: &[Item] = &[
    Pat,
    Map(1, &[(AVC, VIDEO), (AAC, SOUND)]),
    Point(VIDEO, 90_000),
    Unit(SOUND, 90_000),
];

#[test]
fn each_reply_finds_its_message(rt: HostRuntime) -> Result<(), Fail> {
    // Three messages come in one piece: event 1, event 1 again, and one of another index.
    let outcome = run(
        rt.alloc(),
        Kind::Run,
        SHORT,
        "3 FFFF001E00000500010000010101000E010000000100070FA00064000001FFFF001E00000600010000010101000E010000000100070FA00064000001FFFF001E00000700020000010101000E010000000200070FA00064000001\n",
    )?;
    expect(
        &rt,
        &outcome,
        r#"{"kind":"request","packet":3,"message":5,"as_index":0,"index":1,"operation":"start","event":1,"program_id":7,"pre_roll":4000,"duration":100,"auto_return":true,"result":100,"verdict":"Success","accepted":true,"answered":true}
{"kind":"request","packet":3,"message":6,"as_index":0,"index":1,"operation":"start","event":1,"program_id":7,"pre_roll":4000,"duration":100,"auto_return":true,"result":32783,"verdict":"InUse","accepted":false,"answered":true}
{"kind":"request","packet":3,"message":7,"as_index":0,"index":2,"operation":"start","event":2,"program_id":7,"pre_roll":4000,"duration":100,"auto_return":true,"result":32771,"verdict":"WrongIndex","accepted":false,"answered":true}
{"kind":"cue","packet":3,"cue":"start","event":1,"pts":450000,"duration":900000,"program_id":7}
{"kind":"played","packet":4,"event":1,"pts":450000,"duration":900000,"program_id":7}
{"kind":"end","packet":4}
"#,
        "",
    );
    Ok(())
}

#[test]
fn a_message_in_two_pieces_is_told_where_it_ends(rt: HostRuntime) -> Result<(), Fail> {
    let outcome = run(
        rt.alloc(),
        Kind::Inject,
        SHORT,
        "1 FFFF001E000005000100\n3 00010101000E010000000100070FA00064000001\n",
    )?;
    expect(
        &rt,
        &outcome,
        r#"{"kind":"request","packet":3,"message":5,"as_index":0,"index":1,"operation":"start","event":1,"program_id":7,"pre_roll":4000,"duration":100,"auto_return":true,"result":100,"verdict":"Success","accepted":true,"answered":true}
{"kind":"cue","packet":3,"cue":"start","event":1,"pts":450000,"duration":900000,"program_id":7}
{"kind":"end","packet":4}
"#,
        "",
    );
    Ok(())
}

#[test]
fn messages_without_a_request_are_told(rt: HostRuntime) -> Result<(), Fail> {
    // init_request, and a message of no operation.
    let outcome = run(
        rt.alloc(),
        Kind::Inject,
        SHORT,
        "2 0001000DFFFFFFFF0000090000FFFF000C00000A0001000000\n",
    )?;
    expect(
        &rt,
        &outcome,
        r#"{"kind":"request","packet":2,"message":9,"as_index":0,"index":0,"operation":"init","result":100,"verdict":"Success","accepted":true,"answered":true}
{"kind":"request","packet":2,"message":10,"as_index":0,"index":1,"operation":"no_single_request","result":32774,"verdict":"NoRequest","accepted":false,"answered":true}
{"kind":"end","packet":4}
"#,
        "",
    );
    Ok(())
}

#[test]
fn a_bad_size_closes_the_session(rt: HostRuntime) -> Result<(), Fail> {
    // The second message states a size of 3 bytes.
    let outcome = run(
        rt.alloc(),
        Kind::Inject,
        SHORT,
        "2 0001000DFFFFFFFF000009000000010003\n",
    )?;
    expect(
        &rt,
        &outcome,
        r#"{"kind":"request","packet":2,"message":9,"as_index":0,"index":0,"operation":"init","result":100,"verdict":"Success","accepted":true,"answered":true}
{"kind":"session","packet":2,"end":"bad_size"}
{"kind":"end","packet":4}
"#,
        "warning: a session of the automation was closed by a size that no message has\n",
    );
    Ok(())
}

/// An automation that has ended so many sessions for their sizes.
#[derive(Drop)]
struct Closed(u64);

impl Sessions for Closed {
    ghost closed_so_far = { λ closed. closed.0 };

    fn closed(&self) -> u64 {
        self.0
    }
}

/// The warnings behind a run of such an automation, of which no request was told.
fn warned_behind(alloc: Global, automation: &Closed) -> Result<Vec<u8>, Fail> {
    let told: RefCell<Telling<Vec<u8>, Vec<u8>>> = RefCell::new(Telling::new(
        None,
        Some(Warnings::new()),
        None,
    ));
    let mut hearing: Hearing<Listening<'_, Vec<u8>, Vec<u8>>> = Hearing {
        watch: Listening::new(&told),
        overheard: None,
    };
    hearing.tell_closed(automation);
    drop(hearing);
    let (_, warnings) = told.into_inner().into_parts();
    let mut warned = Vec::new(alloc);
    warnings.ok_or("warnings")?.print(&mut warned);
    Ok(warned)
}

#[test]
fn closed_sessions_are_warned_of_at_the_end(rt: HostRuntime) -> Result<(), Fail> {
    assert_eq!(rt;
        warned_behind(rt.alloc(), &Closed(0))?.as_slice(),
        b"".as_slice()
    );
    assert_eq!(rt;
        warned_behind(rt.alloc(), &Closed(2))?.as_slice(),
        b"warning: a session of the automation was closed by a size that no message has\n".as_slice(),
    );
    Ok(())
}
