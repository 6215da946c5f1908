//! Replies among the packets of a run that may pause: each is given once the packet before which its message comes was read, behind all packets
//! that came in before that read, and before anything more is read.

use crate::live::network::{expect_prompt, null_packets, pauses};
use dpi_program::program::program;
use failing_devices::{Failing, Moment, Record, RecordedReplies, RecordedSource, RecordedTarget};
use std::net::Net;
use std::process::Abort;
use std::rt::Files;
use std::test::Fail;
use std::{env, fs};

/// An alive_request before the packets 0, 3, 7, 8 and 9.
const SCRIPT: &str =
    "0 0003000DFFFFFFFF0000070001\n3 0003000DFFFFFFFF0000070001\n7 0003000DFFFFFFFF0000070001\n8 0003000DFFFFFFFF0000070001\n9 0003000DFFFFFFFF0000070001\n";

/// The line of the alive_response to each, with the number of success.
const REPLY: &str = "reply 0004000D0064FFFF0000070001\n";

/// How many bytes had come in, and how many were out, when each reply was given.
const PLACES: [(usize, usize); 5] = [
    (1_316, 0),
    (1_316, 0),
    (1_504, 1_316),
    (1_786, 1_504),
    (1_880, 1_692),
];

/// The replies were given in these places.
fn expect_places<R: Abort>(rt: &R, moments: &[Moment]) -> Result<(), Fail> {
    for (place, at) in PLACES.iter().enumerate() {
        let moment = moments.get(place).copied().ok_or("a reply")?;
        assert_eq!(*rt; (moment.given, moment.written), *at, "reply {place}");
    }
    Ok(())
}

/// A run by these words: packets and replies come in their places.
fn expect_in_place<R: Files + Net + AllocGlobal + Abort>(
    rt: &R,
    words: &[&str],
) -> Result<(), Fail> {
    let network = null_packets(rt.alloc(), 10)?;
    let sizes = pauses(rt.alloc())?;
    let record = Record::new();
    let mut input = RecordedSource::new(rt.alloc(), &network, &sizes, &record);
    let never = Failing::never();
    let mut output = RecordedTarget::new(rt.alloc(), &record, never, never);
    let mut replies = RecordedReplies::new(rt.alloc(), &record);
    let status = program(rt, words, &mut input, &mut output, &mut replies);
    assert_eq!(*rt; status, 0, "{words:?}");
    expect_prompt(rt, input.moments(), 188);
    assert!(*rt; output.taken() == network.as_slice(), "{words:?}");
    expect_places(rt, replies.moments())?;
    let mut lines = Vec::new(rt.alloc());
    for _ in 0..5 {
        lines.extend_from_slice(REPLY.as_bytes())?;
    }
    assert!(*rt; replies.taken().starts_with(lines.as_slice()), "{words:?}");
    Ok(())
}

#[test]
fn replies_of_inject_are_in_place(rt: HostRuntime) -> Result<(), Fail> {
    let script = env::temp_dir(&rt)?.join(rt.alloc(), "program_tests_live_inject.txt")?;
    let script = script.to_str().ok_or("a path")?;
    fs::write(&rt, script, SCRIPT.as_bytes())?;
    let words = [
        "inject",
        "--network",
        "-",
        "--program",
        "1",
        "--cue-pid",
        "496",
        "--index",
        "1",
        "--script",
        script,
        "--out",
        "-",
    ];
    expect_in_place(&rt, &words)?;
    fs::remove_file(&rt, script)?;
    Ok(())
}

#[test]
fn replies_of_run_are_in_place(rt: HostRuntime) -> Result<(), Fail> {
    let script = env::temp_dir(&rt)?.join(rt.alloc(), "program_tests_live_run.txt")?;
    let script = script.to_str().ok_or("a path")?;
    let list = env::temp_dir(&rt)?.join(rt.alloc(), "program_tests_live_run.list")?;
    let list = list.to_str().ok_or("a path")?;
    fs::write(&rt, script, SCRIPT.as_bytes())?;
    fs::write(&rt, list, b"")?;
    let words = [
        "run",
        "--network",
        "-",
        "--program",
        "1",
        "--cue-pid",
        "496",
        "--index",
        "1",
        "--script",
        script,
        "--adverts",
        list,
        "--out",
        "-",
    ];
    expect_in_place(&rt, &words)?;
    fs::remove_file(&rt, list)?;
    fs::remove_file(&rt, script)?;
    Ok(())
}
