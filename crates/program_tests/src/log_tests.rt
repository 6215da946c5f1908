//! The log of events as a file of a run, and warnings.

use dpi_program::program::program;
use std::io::Cursor;
use std::net::Net;
use std::process::Abort;
use std::rt::Files;
use std::test::Fail;
use std::{env, fs};

/// What the words came to: the status, what was printed and what was told.
fn run<R: Files + Net + AllocGlobal>(
    rt: &R,
    words: &[&str],
    printed: &mut Vec<u8>,
    told: &mut Vec<u8>,
) -> u8 {
    let mut input = Cursor::new(b"".as_slice());
    program(rt, words, &mut input, printed, told)
}

/// The words of `splice` between these ends, with a log.
fn splice<'a>(network: &'a str, adverts: &'a str, output: &'a str, log: &'a str) -> [&'a str; 13] {
    [
        "splice",
        "--network",
        network,
        "--program",
        "1",
        "--cue-pid",
        "496",
        "--adverts",
        adverts,
        "--out",
        output,
        "--events",
        log,
    ]
}

/// The same words, on air.
fn splice_on_air<'a>(
    network: &'a str,
    adverts: &'a str,
    output: &'a str,
    log: &'a str,
) -> [&'a str; 14] {
    [
        "splice",
        "--network",
        network,
        "--program",
        "1",
        "--cue-pid",
        "496",
        "--adverts",
        adverts,
        "--out",
        output,
        "--events",
        log,
        "--on-air",
    ]
}

/// The words end with this status, this is printed, and this is told.
fn expect<R: Files + Net + AllocGlobal + Abort>(
    rt: &R,
    words: &[&str],
    status: u8,
    printed: &str,
    told: &str,
) {
    let mut output = Vec::new(rt.alloc());
    let mut faults = Vec::new(rt.alloc());
    let answer = run(rt, words, &mut output, &mut faults);
    assert_eq!(rt; answer, status, "{words:?}");
    expect_eq!(*rt; output.as_slice(), printed.as_bytes());
    expect_eq!(*rt; faults.as_slice(), told.as_bytes());
}

/// The report of a network without packets.
const REPORT: &str = "played 0\nnot-fitted 0\nunconditioned 0\nignored 0\n";

/// The lines of a log of such a network.
const LINES: &str = r#"{"kind":"not_found","packet":0,"program":1}
{"kind":"end","packet":0}
{"kind":"report","played":0,"not_fitted":0,"unconditioned":0,"ignored":0}
"#;

/// The lines of a log of a run whose output could not be made.
const FAULT: &str = r#"{"kind":"fault","fault":"File"}
"#;

#[test]
fn packets_and_events_do_not_share_standard_output(rt: HostRuntime) {
    expect(
        &rt,
        &splice("x", "x", "-", "-"),
        2,
        "",
        "error: '--out <FILE>' and '--events <FILE>' cannot both be standard output

Usage: dpi_chain splice --network <FILE> --program <N> --cue-pid <PID> --adverts <FILE> --out <FILE> [--events <FILE>] [--on-air] [--quiet] [--verbose]

For more information, try '--help'.
",
    );
}

#[test]
fn a_log_is_a_file_of_its_own(rt: HostRuntime) -> Result<(), Fail> {
    let folder = env::temp_dir(&rt)?;
    let network = folder.join(rt.alloc(), "program_tests_events_log_network.ts")?;
    let network = network.to_str().ok_or("a name")?;
    let list = folder.join(rt.alloc(), "program_tests_events_log_list.txt")?;
    let list = list.to_str().ok_or("a name")?;
    let out = folder.join(rt.alloc(), "program_tests_events_log_out.ts")?;
    let out = out.to_str().ok_or("a name")?;
    let log = folder.join(rt.alloc(), "program_tests_events_log.jsonl")?;
    let log = log.to_str().ok_or("a name")?;
    fs::write(&rt, network, b"".as_slice())?;
    fs::write(&rt, list, b"\n".as_slice())?;
    expect(
        &rt,
        &splice(network, list, out, network),
        1,
        "",
        "fault: File\n",
    );
    expect(
        &rt,
        &splice(network, list, out, list),
        1,
        "",
        "fault: File\n",
    );
    expect(
        &rt,
        &splice(network, list, out, out),
        1,
        "",
        "fault: File\n",
    );
    expect(&rt, &splice(network, list, out, log), 0, REPORT, "");
    let lines = fs::read(&rt, log)?;
    expect_eq!(rt; lines.as_slice(), LINES.as_bytes());
    expect(
        &rt,
        &splice(network, list, out, "-"),
        0,
        r#"{"kind":"not_found","packet":0,"program":1}
{"kind":"end","packet":0}
{"kind":"report","played":0,"not_fitted":0,"unconditioned":0,"ignored":0}
played 0
not-fitted 0
unconditioned 0
ignored 0
"#,
        "",
    );
    let missing = splice(network, list, "/no_such_folder/out.ts", log);
    expect(&rt, &missing, 1, "", "fault: File\n");
    let lines = fs::read(&rt, log)?;
    expect_eq!(rt; lines.as_slice(), FAULT.as_bytes());
    for path in [network, list, out, log] {
        fs::remove_file(&rt, path)?;
    }
    Ok(())
}

#[test]
fn a_log_that_cannot_be_written_is_a_fault_off_air_alone(rt: HostRuntime) -> Result<(), Fail> {
    let folder = env::temp_dir(&rt)?;
    let network = folder.join(rt.alloc(), "program_tests_events_full_network.ts")?;
    let network = network.to_str().ok_or("a name")?;
    let list = folder.join(rt.alloc(), "program_tests_events_full_list.txt")?;
    let list = list.to_str().ok_or("a name")?;
    let out = folder.join(rt.alloc(), "program_tests_events_full_out.ts")?;
    let out = out.to_str().ok_or("a name")?;
    fs::write(&rt, network, b"".as_slice())?;
    fs::write(&rt, list, b"\n".as_slice())?;
    let words = splice(network, list, out, "/dev/full");
    expect(&rt, &words, 1, "", "fault: Io\n");
    let words = splice_on_air(network, list, out, "/dev/full");
    let mut output = Vec::new(rt.alloc());
    let mut faults = Vec::new(rt.alloc());
    let answer = run(&rt, &words, &mut output, &mut faults);
    assert_eq!(rt; answer, 0);
    assert!(rt;
        faults
            .as_slice()
            .starts_with(b"warning: the log of events ends here: ")
    );
    for path in [network, list, out] {
        fs::remove_file(&rt, path)?;
    }
    Ok(())
}
