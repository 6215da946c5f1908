//! Breaks planned, and made by the script.

use crate::plans::streams::{Pictures, changed_stream, stream, stream_of};
use dpi_program::program::program;
use std::io::Cursor;
use std::net::Net;
use std::path::PathBuf;
use std::process::Abort;
use std::rt::Files;
use std::test::Fail;
use std::{env, fs};

/// Picture `k` of the network is at 900000 + 3600 `k`, and before packet 3 + `k` that is the greatest time. Line 2: from 1436400 on the
/// first entry picture is picture 150, at 1440000. The last packet before which the greatest time is at least 4 seconds before
/// picture 149, at 1436400, is that behind picture 49, packet 52, with 1076400: from there 4,040 milliseconds are 363,600 ticks. Two
/// seconds behind it is picture 200, where a group begins. So with the others: line 4 begins at picture 250, and line 5 ends it at picture
/// 300, as the time stamp 1890001 lies behind picture 275; line 6 begins at picture 375, and line 7 comes when picture 350 has come.
const BREAKS: &[u8] =
    b"# breaks\n5.96 for 2 play 7\r\n\n00:00:10.000 FOR 3 Play 8 AS 40\npts 1890001 end 40\n15 for 2 play 7 as 41\n14 cancel 41 # not this one";

/// What is told of them.
const TOLD: &str =
    "line 2: event 2 plays 7 at 6.000 (pts 1440000) for 2.000 s; start clean; end clean; advertisement fits; asked before packet 52, 4040 ms ahead; taken
line 4: event 40 plays 8 at 10.000 (pts 1800000) for 3.000 s; start clean; end clean; advertisement does not fit: it is not listed; asked before packet 152, 4040 ms ahead; taken
line 5: event 40 ends at 12.000 (pts 1980000); end clean; asked before packet 202, 4040 ms ahead; taken
line 6: event 41 plays 7 at 15.000 (pts 2250000) for 2.000 s; start clean; end clean; advertisement fits; asked before packet 277, 4040 ms ahead; taken
line 7: event 41 is cancelled; asked before packet 353, 0 ms ahead; taken
";

/// The script: 4,040 milliseconds are 0FC8, two seconds 0014 and three 001E tenths; event 40 is 28, and 41 is 29.
const SCRIPT: &[u8] = b"52 FFFF001E00000000010000010101000E010000000200070FC80014000001
152 FFFF001E00000100010000010101000E010000002800080FC8001E000001
202 FFFF001E00000200010000010101000E030000002800000FC80000000001
277 FFFF001E00000300010000010101000E010000002900070FC80014000001
353 FFFF001E00000400010000010101000E0500000029000000000000000001
";

/// What `run` prints: the replies, and that one break played, and one had no advertisement.
const REPORT: &str = "reply 0007000E0064FFFF000000000100
reply 0007000E0064FFFF000001000101
reply 0007000E0064FFFF000002000102
reply 0007000E0064FFFF000003000103
reply 0007000E0064FFFF000004000104
messages 5
accepted 5
refused 0
played 1
not-fitted 1
unconditioned 0
ignored 0
";

/// What `run` warns of.
const WARNING: &str =
    "warning: breaks whose advertisement is not in the list: 1, the first event 40 with 8\n";

/// A file of this name for tests.
fn file(rt: &HostRuntime, name: &str) -> Result<PathBuf, Fail> {
    Ok(env::temp_dir(rt)?.join(rt.alloc(), name)?)
}

/// The words end with this status, and print this on standard output and on standard error.
fn expect<R: Files + Net + AllocGlobal + Abort>(
    rt: &R,
    words: &[&str],
    status: u8,
    printed: &str,
    told: &str,
) {
    let mut output = Vec::new(rt.alloc());
    let mut faults = Vec::new(rt.alloc());
    let mut input = Cursor::new(b"".as_slice());
    let answer = program(rt, words, &mut input, &mut output, &mut faults);
    assert_eq!(rt; answer, status, "{words:?}");
    assert!(rt; output.as_slice() == printed.as_bytes(), "{words:?}");
    assert!(rt; faults.as_slice() == told.as_bytes(), "{words:?}");
}

/// The words of `plan` between these files.
fn plan<'a>(network: &'a str, adverts: &'a str, breaks: &'a str, script: &'a str) -> [&'a str; 13] {
    [
        "plan",
        "--network",
        network,
        "--program",
        "1",
        "--index",
        "1",
        "--adverts",
        adverts,
        "--breaks",
        breaks,
        "--script",
        script,
    ]
}

#[test]
fn planned_breaks_are_made(rt: HostRuntime) -> Result<(), Fail> {
    let network = file(&rt, "program_tests_plans_network.ts")?;
    let network = network.to_str().ok_or("a name")?;
    let advert = file(&rt, "program_tests_plans_advert.ts")?;
    let advert = advert.to_str().ok_or("a name")?;
    let adverts = file(&rt, "program_tests_plans_adverts.txt")?;
    let adverts = adverts.to_str().ok_or("a name")?;
    let breaks = file(&rt, "program_tests_plans_breaks.txt")?;
    let breaks = breaks.to_str().ok_or("a name")?;
    let script = file(&rt, "program_tests_plans_script.txt")?;
    let script = script.to_str().ok_or("a name")?;
    fs::write(&rt, network, stream(rt.alloc(), 500, 900_000)?.as_slice())?;
    fs::write(&rt, advert, stream(rt.alloc(), 50, 0)?.as_slice())?;
    fs::write(
        &rt,
        adverts,
        format!(in rt.alloc(); "7 {advert}\n")?.as_bytes(),
    )?;
    fs::write(&rt, breaks, BREAKS)?;
    expect(&rt, &plan(network, adverts, breaks, script), 0, TOLD, "");
    assert_eq!(rt; fs::read(&rt, script)?.as_slice(), SCRIPT);
    let run = [
        "run",
        "--network",
        network,
        "--program",
        "1",
        "--cue-pid",
        "496",
        "--index",
        "1",
        "--script",
        script,
        "--adverts",
        adverts,
        "--out",
        "/dev/null",
    ];
    expect(&rt, &run, 0, REPORT, WARNING);
    expect(
        &rt,
        &plan(network, adverts, breaks, breaks),
        1,
        "",
        "fault: File\n",
    );
    fs::write(&rt, breaks, b"\n5 play 7\n".as_slice())?;
    expect(
        &rt,
        &plan(network, adverts, breaks, script),
        1,
        "",
        "fault: BadBreaks\nline 2: expected `for`, `cancel` or `end` behind the time\n",
    );
    for path in [network, advert, adverts, breaks, script] {
        fs::remove_file(&rt, path)?;
    }
    Ok(())
}

/// In this network and advertisement most random access pictures are no IDR pictures: each hundredth is one in the network, and the
/// advertisement begins with another one. Line 1 begins at picture 200, at 1620000, the first IDR picture at or behind 1436400: picture 99, at
/// 1256400, is 4 seconds before picture 199, and behind it comes packet 102. Two seconds behind is picture 250, between the IDR pictures 200
/// and 300. Behind 17 seconds there is none; the last is picture 400, at 2340000.
const OPEN_BREAKS: &[u8] = b"5.96 for 2 play 7\n17 for 2 play 7\n";

/// What is told of them.
const OPEN_TOLD: &str =
    "line 1: event 1 plays 7 at 8.000 (pts 1620000) for 2.000 s; start clean; end not clean, a clean one 2.000 s before, a clean one 2.000 s behind; advertisement fits; its first picture goes on from pictures before it; asked before packet 102, 4040 ms ahead; taken
line 2: not planned: no entry picture within 10 s, the nearest before at 16.000 (pts 2340000), none behind
";

/// What is told of a network whose program changes.
const CHANGED: &str = "fault: ProgramChanged
packet 12, byte 2256, PID 32 (0x0020): plan for the part before it; run --on-air goes on behind it
";

#[test]
fn breaks_begin_at_entry_pictures(rt: HostRuntime) -> Result<(), Fail> {
    let network = file(&rt, "program_tests_plans_open_network.ts")?;
    let network = network.to_str().ok_or("a name")?;
    let advert = file(&rt, "program_tests_plans_open_advert.ts")?;
    let advert = advert.to_str().ok_or("a name")?;
    let adverts = file(&rt, "program_tests_plans_open_adverts.txt")?;
    let adverts = adverts.to_str().ok_or("a name")?;
    let breaks = file(&rt, "program_tests_plans_open_breaks.txt")?;
    let breaks = breaks.to_str().ok_or("a name")?;
    let script = file(&rt, "program_tests_plans_open_script.txt")?;
    let script = script.to_str().ok_or("a name")?;
    let pictures = Pictures {
        count: 500,
        first: 900_000,
        from_idr: 0,
        to_idr: 100,
        are_in_two: false,
    };
    fs::write(&rt, network, stream_of(rt.alloc(), pictures)?.as_slice())?;
    let pictures = Pictures {
        count: 50,
        first: 0,
        from_idr: 25,
        to_idr: 100,
        are_in_two: false,
    };
    fs::write(&rt, advert, stream_of(rt.alloc(), pictures)?.as_slice())?;
    fs::write(
        &rt,
        adverts,
        format!(in rt.alloc(); "7 {advert}\n")?.as_bytes(),
    )?;
    fs::write(&rt, breaks, OPEN_BREAKS)?;
    expect(
        &rt,
        &plan(network, adverts, breaks, script),
        0,
        OPEN_TOLD,
        "",
    );
    fs::write(&rt, network, changed_stream(rt.alloc())?.as_slice())?;
    expect(&rt, &plan(network, adverts, breaks, script), 1, "", CHANGED);
    for path in [network, advert, adverts, breaks, script] {
        fs::remove_file(&rt, path)?;
    }
    Ok(())
}

/// The same breaks in such a network whose slices begin in the second packets: behind the first packet of picture 99 comes packet 201.
const SECOND_TOLD: &str =
    "line 1: event 1 plays 7 at 8.000 (pts 1620000) for 2.000 s; start clean; end not clean, a clean one 2.000 s before, a clean one 2.000 s behind; advertisement fits; its first picture goes on from pictures before it; asked before packet 201, 4040 ms ahead; taken
line 2: not planned: no entry picture within 10 s, the nearest before at 16.000 (pts 2340000), none behind
";

#[test]
fn slices_are_looked_for_in_all_packets(rt: HostRuntime) -> Result<(), Fail> {
    let network = file(&rt, "program_tests_plans_second_network.ts")?;
    let network = network.to_str().ok_or("a name")?;
    let advert = file(&rt, "program_tests_plans_second_advert.ts")?;
    let advert = advert.to_str().ok_or("a name")?;
    let adverts = file(&rt, "program_tests_plans_second_adverts.txt")?;
    let adverts = adverts.to_str().ok_or("a name")?;
    let breaks = file(&rt, "program_tests_plans_second_breaks.txt")?;
    let breaks = breaks.to_str().ok_or("a name")?;
    let script = file(&rt, "program_tests_plans_second_script.txt")?;
    let script = script.to_str().ok_or("a name")?;
    let pictures = Pictures {
        count: 500,
        first: 900_000,
        from_idr: 0,
        to_idr: 100,
        are_in_two: true,
    };
    fs::write(&rt, network, stream_of(rt.alloc(), pictures)?.as_slice())?;
    let pictures = Pictures {
        count: 50,
        first: 0,
        from_idr: 25,
        to_idr: 100,
        are_in_two: true,
    };
    fs::write(&rt, advert, stream_of(rt.alloc(), pictures)?.as_slice())?;
    fs::write(
        &rt,
        adverts,
        format!(in rt.alloc(); "7 {advert}\n")?.as_bytes(),
    )?;
    fs::write(&rt, breaks, OPEN_BREAKS)?;
    expect(
        &rt,
        &plan(network, adverts, breaks, script),
        0,
        SECOND_TOLD,
        "",
    );
    for path in [network, advert, adverts, breaks, script] {
        fs::remove_file(&rt, path)?;
    }
    Ok(())
}
