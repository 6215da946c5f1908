//! Runs of the program and of the cut over lines. Expected lines are worked out by hand from the rules, not by the program.

use dpi_program::program::program;
use failing_devices::{Calls, Ending, FailSource, FailTarget};
use packet_lines::{LinesFault, cut_lines};
use pes_time::Time33;
use std::alloc::{AllocError, Global};
use std::io::{Cursor, Read, Write};
use std::net::Net;
use std::process::Abort;
use std::rt::Files;
use std::test::Fail;
use std::{env, fs};
use ts_packet::{Device, Pid, PutFault, ReadFault};
use unit_cut::CutFault;

/// Three packets of PID 256, each the start of a unit: their counters are 0, 1, 2, their times 90000, 93000, 96000.
const FIRST: &str = "47410010000001E00000808005210005BF21";

const SECOND: &str = "47410011000001E00000808005210005D691";

const THIRD: &str = "47410012000001E00000808005210005EE01";

/// The third behind a gap of one packet.
const THIRD_CLOSED: &str = "47410011000001E00000808005210005EE01";

/// Adds a line with these digits in front and these at the end, and `F` between.
fn add_line(text: &mut Vec<u8>, front: &str, back: &str) -> Result<(), AllocError> {
    text.extend_from_slice(front.as_bytes())?;
    for _ in front.len().saturating_add(back.len())..376 {
        text.push(b'F')?;
    }
    text.extend_from_slice(back.as_bytes())?;
    text.push(b'\n')?;
    Ok(())
}

/// Lines with these digits in front.
fn lines(alloc: Global, fronts: &[&str]) -> Result<Vec<u8>, AllocError> {
    let mut text = Vec::new(alloc);
    for front in fronts {
        add_line(&mut text, front, "")?;
    }
    Ok(text)
}

/// A packet of PID 256 that starts a unit with this stamp, filled up with 0xFF.
fn packet(counter: u8, stamp: [u8; 5]) -> [u8; 188] {
    let mut bytes = [0xFF; 188];
    let front = [
        0x47,
        0x41,
        0x00,
        0x10 | counter,
        0,
        0,
        1,
        0xE0,
        0,
        0,
        0x80,
        0x80,
        5,
    ];
    bytes[..13].copy_from_slice(&front);
    bytes[13..18].copy_from_slice(&stamp);
    bytes
}

/// What a run left behind.
#[derive(Drop)]
struct Outcome {
    status: u8,
    output: Vec<u8>,
    faults: Vec<u8>,
}

/// Runs the program on an input.
fn run<R: Files + Net + AllocGlobal>(rt: &R, words: &[&str], input: &[u8]) -> Outcome {
    let mut output = Vec::new(rt.alloc());
    let mut faults = Vec::new(rt.alloc());
    let status = program(rt, words, &mut Cursor::new(input), &mut output, &mut faults);
    Outcome {
        status,
        output,
        faults,
    }
}

/// Cuts PID 256 on lines.
fn cut_words<'a>(from: &'a str, length: &'a str) -> [&'a str; 7] {
    ["cut", "--pid", "256", "--from", from, "--length", length]
}

/// The run on these lines ends with this status and this output, and this is told.
fn expect_outcome<R: Files + Net + AllocGlobal + Abort>(
    rt: &R,
    words: &[&str],
    input: &[u8],
    status: u8,
    expected: &[u8],
    told: &str,
) {
    let run = run(rt, words, input);
    expect_eq!(*rt; run.faults.as_slice(), told.as_bytes());
    expect_eq!(*rt; run.output.as_slice(), expected);
    expect_eq!(*rt; run.status, status);
}

/// The run on these lines ends with this output and this text of its fault, or well where there is none.
fn expect_run<R: Files + Net + AllocGlobal + Abort>(
    rt: &R,
    words: &[&str],
    input: &[u8],
    expected: &[u8],
    fault: &str,
) {
    let status = if fault.is_empty() { 0 } else { 1 };
    expect_outcome(rt, words, input, status, expected, fault);
}

/// The file holds these bytes.
fn expect_content<R: Files + AllocGlobal + Abort>(
    rt: &R,
    path: &str,
    bytes: &[u8],
) -> Result<(), Fail> {
    expect_eq!(*rt; fs::read(rt, path)?.as_slice(), bytes);
    Ok(())
}

#[test]
fn intervals_are_cut_and_the_gap_is_closed(rt: HostRuntime) -> Result<(), Fail> {
    let all = lines(rt.alloc(), &[FIRST, SECOND, THIRD])?;
    let closed = lines(rt.alloc(), &[FIRST, THIRD_CLOSED])?;
    let mut open = lines(rt.alloc(), &[FIRST, SECOND, THIRD])?;
    let _ = open.pop();
    let cases = [
        ("93000", "3000", closed.as_slice()),
        ("00093000", "3000", closed.as_slice()),
        ("93000", "0", all.as_slice()),
        ("90000", "9000", &[]),
    ];
    for (from, length, expected) in cases {
        expect_run(&rt, &cut_words(from, length), all.as_slice(), expected, "");
        expect_run(&rt, &cut_words(from, length), open.as_slice(), expected, "");
    }
    expect_run(&rt, &cut_words("0", "1"), &[], &[], "");
    Ok(())
}

/// With nothing cut, the first line goes out, and then this fault comes at the rest of the text.
fn expect_fault<R: Files + Net + AllocGlobal + Abort>(
    rt: &R,
    rest: &[u8],
    fault: &str,
) -> Result<(), Fail> {
    let first = lines(rt.alloc(), &[FIRST])?;
    let mut text = lines(rt.alloc(), &[FIRST])?;
    text.extend_from_slice(rest)?;
    expect_run(
        rt,
        &cut_words("0", "0"),
        text.as_slice(),
        first.as_slice(),
        fault,
    );
    Ok(())
}

#[test]
fn bad_lines_are_refused_and_earlier_lines_stand(rt: HostRuntime) -> Result<(), Fail> {
    let fault = "fault: BadLine\n";
    for front in ["47410011000001e0", "4741001G", "474100 1", "+7410011"] {
        expect_fault(&rt, lines(rt.alloc(), &[front])?.as_slice(), fault)?;
    }
    for rest in [
        b"\n".as_slice(),
        b"4741\n".as_slice(),
        b"4".as_slice(),
        b"\r\n".as_slice(),
    ] {
        expect_fault(&rt, rest, fault)?;
    }
    for end in [
        b"".as_slice(),
        b"F\n".as_slice(),
        b"\r\n".as_slice(),
        b" \n".as_slice(),
    ] {
        let mut line = lines(rt.alloc(), &[SECOND])?;
        line.truncate(if end.is_empty() { 375 } else { 376 });
        line.extend_from_slice(end)?;
        expect_fault(&rt, line.as_slice(), fault)?;
    }
    Ok(())
}

#[test]
fn packets_are_judged_in_order(rt: HostRuntime) -> Result<(), Fail> {
    let cases = [
        ("48410011", "", "fault: SyncLost\n"),
        ("47410020B8", "", "fault: BadAdaptation\n"),
        ("47410031B7", "", "fault: BadAdaptation\n"),
        ("474100D1", "", "fault: Scrambled\n"),
        ("47410031B500", "0000", "fault: HeaderSplit\n"),
        ("47410031B300", "000001E0", "fault: HeaderSplit\n"),
        ("47410031AF00", "000001E000008080", "fault: HeaderSplit\n"),
        (
            "47410031AA00",
            "000001E0000080800521000FDD",
            "fault: HeaderSplit\n",
        ),
        (
            "47410011000001E0000080800521003D3663",
            "",
            "fault: TimeJump\n",
        ),
        (
            "47410011000001E000008080052FFFCF47DF",
            "",
            "fault: TimeJump\n",
        ),
    ];
    for (front, back, fault) in cases {
        let mut rest = Vec::new(rt.alloc());
        add_line(&mut rest, front, back)?;
        expect_fault(&rt, rest.as_slice(), fault)?;
    }
    for front in [
        "47010020B600",
        "47010000",
        "47410011000002",
        "47410011000001BE",
        "47410011000001E00000808004",
        "47410011000001E0000080800521003D3661",
        "47410011000001E000008080052FFFCF47E1",
    ] {
        let both = lines(rt.alloc(), &[FIRST, front])?;
        expect_run(
            &rt,
            &cut_words("0", "0"),
            both.as_slice(),
            both.as_slice(),
            "",
        );
    }
    Ok(())
}

/// The command line is not taken, and the text for the user has this in it.
fn expect_usage<R: Files + Net + AllocGlobal + Abort>(
    rt: &R,
    words: &[&str],
    text: &str,
) -> Result<(), Fail> {
    let run = run(rt, words, &[]);
    assert_eq!(rt; run.status, 2, "{text}");
    assert!(rt; run.output.is_empty());
    let says = std::str::from_utf8(run.faults.as_slice())?;
    assert!(rt; says.contains(text), "{text} in {says}");
    Ok(())
}

/// Help or the version is asked for: a text that has this in it is the output, and nothing is told.
fn expect_help<R: Files + Net + AllocGlobal + Abort>(
    rt: &R,
    words: &[&str],
    text: &str,
) -> Result<(), Fail> {
    let run = run(rt, words, &[]);
    assert_eq!(rt; run.status, 0, "{text}");
    assert!(rt; run.faults.is_empty());
    let says = std::str::from_utf8(run.output.as_slice())?;
    assert!(rt; says.contains(text), "{text} in {says}");
    Ok(())
}

#[test]
fn help_is_printed_where_it_is_asked_for(rt: HostRuntime) -> Result<(), Fail> {
    expect_help(&rt, &["--help"], "dpi_chain <COMMAND>")?;
    expect_help(&rt, &["-h"], "dpi_chain <COMMAND>")?;
    expect_help(&rt, &["help"], "dpi_chain <COMMAND>")?;
    expect_help(&rt, &["help", "cut"], "--length <TICKS>")?;
    expect_help(&rt, &["cut", "-h"], "--from <TICKS>")?;
    expect_help(&rt, &["cut", "--help"], "ticks of the 90 kHz clock")?;
    expect_help(&rt, &["services", "--help"], "--services <FILE>")?;
    expect_help(&rt, &["--version"], "dpi_chain")?;
    expect_usage(&rt, &["help", "cutting"], "cutting")?;
    expect_usage(&rt, &["--helping"], "--helping")
}

#[test]
fn command_lines_are_judged(rt: HostRuntime) -> Result<(), Fail> {
    for pid in ["+5", "-1", "", " 5", "0x5", "8192", "99999999999999999999"] {
        expect_usage(
            &rt,
            &["cut", "--pid", pid, "--from", "0", "--length", "0"],
            "--pid <PID>': a PID is a decimal number from 0 to 8191",
        )?;
    }
    expect_usage(
        &rt,
        &["cut", "--pid", "0x100", "--from", "0", "--length", "0"],
        "0x100 is 256",
    )?;
    for from in ["+5", "-1", "", "8589934592"] {
        expect_usage(
            &rt,
            &["cut", "--pid", "0", "--from", from, "--length", "0"],
            "--from <TICKS>': a time is a decimal number of 90 kHz ticks from 0 to 8589934591",
        )?;
    }
    for length in ["+5", "-1", "", "4294967296"] {
        expect_usage(
            &rt,
            &["cut", "--pid", "0", "--from", "0", "--length", length],
            "--length <TICKS>': a length is a decimal number of 90 kHz ticks from 0 to 4294967295",
        )?;
    }
    expect_usage(&rt, &[], "subcommand")?;
    expect_usage(&rt, &["cut"], "--pid <PID>")?;
    expect_usage(
        &rt,
        &[
            "cut", "--pid", "0", "--pid", "0", "--from", "0", "--length", "0",
        ],
        "multiple times",
    )?;
    expect_usage(
        &rt,
        &[
            "cut", "--pid", "0", "--from", "0", "--length", "0", "--speed",
        ],
        "--speed",
    )?;
    expect_usage(&rt, &["inject"], "inject")?;
    expect_run(
        &rt,
        &[
            "cut",
            "--pid",
            "8191",
            "--from",
            "8589934591",
            "--length",
            "4294967295",
        ],
        &[],
        &[],
        "",
    );
    Ok(())
}

#[test]
fn files_hold_bytes(rt: HostRuntime) -> Result<(), Fail> {
    let folder = env::temp_dir(&rt)?;
    let input = folder.join(rt.alloc(), "program_tests_files_in.ts")?;
    let output = folder.join(rt.alloc(), "program_tests_files_out.ts")?;
    let (input, output) = (
        input.to_str().ok_or("a name")?,
        output.to_str().ok_or("a name")?,
    );
    let mut bytes = Vec::new(rt.alloc());
    bytes.extend_from_slice(&packet(0, [0x21, 0x00, 0x05, 0xBF, 0x21]))?;
    bytes.extend_from_slice(&packet(1, [0x21, 0x00, 0x05, 0xD6, 0x91]))?;
    bytes.extend_from_slice(&[0x47, 0x41, 0x00])?;
    fs::write(&rt, input, bytes.as_slice())?;
    let lines = lines(rt.alloc(), &[FIRST, SECOND])?;
    let fault = "fault: Truncated\n";
    expect_run(
        &rt,
        &[
            "cut", "--pid", "256", "--from", "0", "--length", "0", "--in", input, "--out", output,
        ],
        &[],
        &[],
        fault,
    );
    expect_content(&rt, output, &bytes[..376.min(bytes.len())])?;
    expect_run(
        &rt,
        &[
            "cut", "--pid", "256", "--from", "0", "--length", "0", "--in", input,
        ],
        &[],
        lines.as_slice(),
        fault,
    );
    expect_run(
        &rt,
        &[
            "cut", "--pid", "256", "--from", "90000", "--length", "1", "--out", output,
        ],
        lines.as_slice(),
        &[],
        "",
    );
    expect_content(&rt, output, &packet(0, [0x21, 0x00, 0x05, 0xD6, 0x91]))?;
    fs::remove_file(&rt, input)?;
    fs::remove_file(&rt, output)?;
    Ok(())
}

#[test]
fn files_that_cannot_be_opened(rt: HostRuntime) {
    expect_run(
        &rt,
        &[
            "cut",
            "--pid",
            "256",
            "--from",
            "0",
            "--length",
            "0",
            "--in",
            "no/such/file",
        ],
        &[],
        &[],
        "fault: File\n",
    );
    expect_run(
        &rt,
        &[
            "cut",
            "--pid",
            "256",
            "--from",
            "0",
            "--length",
            "0",
            "--out",
            "no/such/folder",
        ],
        &[],
        &[],
        "fault: File\n",
    );
}

/// The output is refused since it is the input, and the line behind the fault says so.
fn expect_same_file<R: Files + Net + AllocGlobal + Abort>(
    rt: &R,
    input: &str,
    output: &str,
) -> Result<(), Fail> {
    let words = [
        "cut",
        "--pid",
        "256",
        "--from",
        "90000",
        "--length",
        "1",
        "--in",
        input,
        "--out",
        output,
        "--verbose",
    ];
    let run = run(rt, &words, &[]);
    assert_eq!(rt; run.status, 1, "{output}");
    let says = std::str::from_utf8(run.faults.as_slice())?;
    assert!(rt; says.starts_with("fault: File\nwriting "), "{says}");
    assert!(rt; says.ends_with("it is another file of the run\n"), "{says}");
    Ok(())
}

/// The input is no file that can be read.
fn expect_no_file<R: Files + Net + AllocGlobal + Abort>(rt: &R, input: &str, output: &str) {
    let words = [
        "cut", "--pid", "256", "--from", "90000", "--length", "1", "--in", input, "--out", output,
    ];
    expect_run(rt, &words, &[], &[], "fault: File\n");
}

#[test]
fn the_input_is_never_destroyed(rt: HostRuntime) -> Result<(), Fail> {
    let folder = env::temp_dir(&rt)?;
    let input = folder.join(rt.alloc(), "program_tests_same_in.ts")?;
    let link = folder.join(rt.alloc(), "program_tests_same_link.ts")?;
    let input = input.to_str().ok_or("a name")?;
    let link = link.to_str().ok_or("a name")?;
    let _ = fs::remove_file(&rt, link);
    let bytes = packet(0, [0x21, 0x00, 0x05, 0xBF, 0x21]);
    fs::write(&rt, input, bytes.as_slice())?;
    fs::hard_link(&rt, input, link)?;
    expect_same_file(&rt, input, input)?;
    expect_same_file(&rt, input, link)?;
    expect_no_file(&rt, folder.to_str().ok_or("a name")?, link);
    expect_no_file(&rt, "no/such/file", link);
    expect_content(&rt, input, &bytes)?;
    fs::remove_file(&rt, input)?;
    fs::remove_file(&rt, link)?;
    Ok(())
}

/// Cuts PID 256 from standard input to standard output in bytes, and tells more.
const STANDARD_WORDS: [&str; 12] = [
    "cut",
    "--pid",
    "256",
    "--from",
    "93000",
    "--length",
    "1",
    "--in",
    "-",
    "--out",
    "-",
    "--verbose",
];

#[test]
fn more_is_told_where_it_is_asked_for(rt: HostRuntime) -> Result<(), Fail> {
    let first = packet(0, [0x21, 0x00, 0x05, 0xBF, 0x21]);
    let mut stream = Vec::from_slice(rt.alloc(), &first)?;
    stream.extend_from_slice(&packet(1, [0x21, 0x00, 0x05, 0xD6, 0x91]))?;
    expect_outcome(
        &rt,
        &STANDARD_WORDS,
        stream.as_slice(),
        0,
        &first,
        "cut: 1 of 2 units of PID 256 (0x0100), 1 of 2 packets left out; its time stamps go from 90000 to 93000\n",
    );
    stream.extend_from_slice(&packet(2, [0x21, 0x00, 0x7B, 0x09, 0x01]))?;
    expect_run(
        &rt,
        &STANDARD_WORDS,
        stream.as_slice(),
        &first,
        "fault: TimeJump\nreading standard input: packet 2, byte 376, PID 256 (0x0100)\n",
    );
    let good = lines(rt.alloc(), &[FIRST])?;
    let mut text = lines(rt.alloc(), &[FIRST])?;
    text.push(b'\n')?;
    let words = [
        "cut",
        "--pid",
        "256",
        "--from",
        "0",
        "--length",
        "1",
        "--verbose",
    ];
    expect_run(
        &rt,
        &words,
        text.as_slice(),
        good.as_slice(),
        "fault: BadLine\nreading standard input: line 2\n",
    );
    Ok(())
}

/// Cuts nothing of PID 256 on lines.
fn copy_lines<I: Read, O: Write>(input: &mut I, output: &mut O) -> Option<Result<(), LinesFault>> {
    let (mut input, mut output) = (Device::new(input), Device::new(output));
    Some(cut_lines(&mut input, &mut output, Pid::new(256)?, Time33::new(0)?, 0))
}

#[test]
fn slow_devices_change_nothing(rt: HostRuntime) -> Result<(), Fail> {
    let text = lines(rt.alloc(), &[FIRST, SECOND])?;
    for (input_fails, room, output_fails, fault) in [
        (false, 754, false, None),
        (true, 754, false, Some(CutFault::Read(ReadFault::Io))),
        (false, 0, true, Some(CutFault::Sink(PutFault::Io))),
        (false, 376, true, Some(CutFault::Sink(PutFault::Io))),
        (false, 377, false, Some(CutFault::Sink(PutFault::Stuck))),
        (false, 753, false, Some(CutFault::Sink(PutFault::Stuck))),
    ] {
        let reads = Calls {
            step: 1,
            good: if input_fails { text.len() } else { usize::MAX },
            ending: Ending::Fails,
        };
        let writes = Calls {
            step: 1,
            good: room,
            ending: if output_fails {
                Ending::Fails
            } else {
                Ending::Stops
            },
        };
        let mut input = FailSource::new(text.as_slice(), reads);
        let mut output = FailTarget::new(rt.alloc(), writes);
        let outcome = copy_lines(&mut input, &mut output).ok_or("numbers")?;
        let expected = match fault {
            None => Ok(()),
            Some(fault) => Err(LinesFault::Cut(fault)),
        };
        expect_eq!(rt; outcome, expected);
        expect_eq!(rt; output.taken().as_slice(), &text[..room.min(text.len())]);
    }
    Ok(())
}
