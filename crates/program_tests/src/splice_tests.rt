//! Command lines of `splice` and `run`, and the ends that they name. What packets come out is shown by the vectors of the switch.

use crate::expecting::expect;
use crate::list_tests::advert;
use std::net::Net;
use std::path::PathBuf;
use std::process::Abort;
use std::rt::{Env, Files};
use std::test::Fail;
use std::{env, fs};

/// The words of `splice` between these ends.
fn splice<'a>(network: &'a str, adverts: &'a str, output: &'a str) -> [&'a str; 11] {
    [
        "splice",
        "--network",
        network,
        "--program",
        "1",
        "--cue-pid",
        "496",
        "--adverts",
        adverts,
        "--out",
        output,
    ]
}

/// The words of `run` between these ends.
fn run<'a>(network: &'a str, script: &'a str, adverts: &'a str, output: &'a str) -> [&'a str; 15] {
    [
        "run",
        "--network",
        network,
        "--program",
        "1",
        "--cue-pid",
        "496",
        "--index",
        "1",
        "--script",
        script,
        "--adverts",
        adverts,
        "--out",
        output,
    ]
}

/// The words of `plan` between these ends, without a break.
fn plan<'a>(network: &'a str, adverts: &'a str, script: &'a str) -> [&'a str; 13] {
    [
        "plan",
        "--network",
        network,
        "--program",
        "1",
        "--index",
        "1",
        "--adverts",
        adverts,
        "--breaks",
        "-",
        "--script",
        script,
    ]
}

#[test]
fn bad_command_lines_are_refused(rt: HostRuntime) {
    for (place, number) in [
        (4, "0"),
        (4, "65536"),
        (4, "x"),
        (6, "15"),
        (6, "8191"),
        (6, "0x1F0"),
    ] {
        let mut words = splice("x", "x", "-");
        words[place] = number;
        expect(&rt, &words, 2, "");
        let mut words = run("x", "x", "x", "-");
        words[place] = number;
        expect(&rt, &words, 2, "");
    }
    let mut words = run("x", "x", "x", "-");
    words[8] = "65536";
    expect(&rt, &words, 2, "");
    let words = splice("x", "x", "-");
    expect(&rt, &words[..7], 2, "");
    expect(&rt, &words[..9], 2, "");
    let words = run("x", "x", "x", "-");
    expect(&rt, &words[..11], 2, "");
    expect(&rt, &words[..13], 2, "");
}

#[test]
fn each_subcommand_tells_how_it_is_called(rt: HostRuntime) {
    let mut words = run("x", "x", "x", "-");
    words[4] = "0";
    expect(
        &rt,
        &words,
        2,
        "error: invalid value '0' for '--program <N>': a program's number is a decimal number from 1 to 65535

Usage: dpi_chain run --network <FILE> --program <N> --cue-pid <PID> --index <N> <--script <FILE>|--listen <PORT>> --adverts <FILE> --out <FILE> [--events <FILE>] [--on-air] [--quiet] [--verbose]

For more information, try '--help'.
",
    );
    expect(
        &rt,
        &splice("-", "-", "-"),
        2,
        "error: '--network <FILE>' and '--adverts <FILE>' cannot both be standard input

Usage: dpi_chain splice --network <FILE> --program <N> --cue-pid <PID> --adverts <FILE> --out <FILE> [--events <FILE>] [--on-air] [--quiet] [--verbose]

For more information, try '--help'.
",
    );
}

#[test]
fn one_end_is_standard_input(rt: HostRuntime) {
    expect(&rt, &splice("-", "-", "-"), 2, "");
    expect(&rt, &run("-", "-", "x", "-"), 2, "");
    expect(&rt, &run("-", "x", "-", "-"), 2, "");
    expect(&rt, &run("x", "-", "-", "-"), 2, "");
    expect(&rt, &run("-", "-", "-", "-"), 2, "");
    expect(&rt, &splice("no/such", "-", "-"), 1, "fault: File\n");
    expect(&rt, &splice("-", "no/such", "-"), 1, "fault: File\n");
    expect(
        &rt,
        &run("no/such", "no/such", "-", "-"),
        1,
        "fault: File\n",
    );
}

#[test]
fn an_input_is_not_written_over(rt: HostRuntime) -> Result<(), Fail> {
    let folder = env::temp_dir(&rt)?;
    let network = folder.join(rt.alloc(), "program_tests_splice_network.ts")?;
    let network = network.to_str().ok_or("a name")?;
    let list = folder.join(rt.alloc(), "program_tests_splice_list.txt")?;
    let list = list.to_str().ok_or("a name")?;
    fs::write(&rt, network, b"".as_slice())?;
    fs::write(&rt, list, b"\n".as_slice())?;
    expect(&rt, &splice(network, list, network), 1, "fault: File\n");
    expect(&rt, &splice(network, list, list), 1, "fault: File\n");
    expect(&rt, &run(network, "-", list, network), 1, "fault: File\n");
    expect(
        &rt,
        &splice(network, list, "-"),
        0,
        "played 0\nnot-fitted 0\nunconditioned 0\nignored 0\n",
    );
    expect(
        &rt,
        &run(network, "-", list, "-"),
        0,
        "messages 0\naccepted 0\nrefused 0\nplayed 0\nnot-fitted 0\nunconditioned 0\nignored 0\n",
    );
    fs::write(&rt, list, b"x\n".as_slice())?;
    expect(&rt, &splice(network, list, "-"), 1, "fault: BadList\n");
    expect(&rt, &run(network, "-", list, "-"), 1, "fault: BadList\n");
    fs::remove_file(&rt, network)?;
    fs::remove_file(&rt, list)?;
    Ok(())
}

/// The path of a temporary file of this name.
fn named<R: Env + AllocGlobal>(rt: &R, name: &str) -> Result<PathBuf, Fail> {
    Ok(env::temp_dir(rt)?.join(rt.alloc(), name)?)
}

/// The words with this output and this log are refused on air and off, and told so.
fn expect_refused_with<'a, R: Files + Net + AllocGlobal + Abort>(
    rt: &R,
    words: &[&'a str],
    output: &'a str,
    events: &'a str,
    told: &str,
) -> Result<(), Fail> {
    let mut given = Vec::from_slice(rt.alloc(), words)?;
    given.extend_from_slice(&["--out", output, "--events", events, "--quiet", "--verbose"])?;
    expect(rt, given.as_slice(), 1, told);
    given.push("--on-air")?;
    expect(rt, given.as_slice(), 1, told);
    Ok(())
}

/// The words, on air and off, with the output or the log at this path, are refused since that is a file of the run, and the other one, which
/// does not stand, is not made.
fn expect_refused<'a, R: Files + Net + AllocGlobal + Abort>(
    rt: &R,
    words: &[&'a str],
    path: &'a str,
    other: &'a str,
) -> Result<(), Fail> {
    let why = "it is another file of the run\n";
    let writing = format!(in rt.alloc(); "fault: File\nwriting {path}: {why}")?;
    expect_refused_with(rt, words, path, other, writing.as_str())?;
    let telling = format!(in rt.alloc(); "fault: File\nwriting the events {path}: {why}")?;
    expect_refused_with(rt, words, other, path, telling.as_str())?;
    assert!(rt; fs::metadata(rt, other).is_err());
    Ok(())
}

#[test]
fn the_stream_of_an_advertisement_is_never_destroyed(rt: HostRuntime) -> Result<(), Fail> {
    let network = named(&rt, "program_tests_stream_network.ts")?;
    let network = network.to_str().ok_or("a name")?;
    let list = named(&rt, "program_tests_stream_list.txt")?;
    let list = list.to_str().ok_or("a name")?;
    let stream = named(&rt, "program_tests_stream_ad.ts")?;
    let stream = stream.to_str().ok_or("a name")?;
    let link = named(&rt, "program_tests_stream_link.ts")?;
    let link = link.to_str().ok_or("a name")?;
    let other = named(&rt, "program_tests_stream_other.ts")?;
    let other = other.to_str().ok_or("a name")?;
    let _ = fs::remove_file(&rt, link);
    let _ = fs::remove_file(&rt, other);
    let bytes = advert(rt.alloc())?;
    fs::write(&rt, network, b"".as_slice())?;
    fs::write(&rt, stream, bytes.as_slice())?;
    fs::hard_link(&rt, stream, link)?;
    let text = format!(in rt.alloc(); "\n7 {stream}\n")?;
    fs::write(&rt, list, text.as_bytes())?;
    expect_refused(&rt, &splice(network, list, "")[..9], stream, other)?;
    expect_refused(&rt, &splice(network, list, "")[..9], link, other)?;
    expect_refused(&rt, &run(network, "-", list, "")[..13], stream, other)?;
    expect_refused(&rt, &run(network, "-", list, "")[..13], link, other)?;
    expect(&rt, &plan(network, list, stream), 1, "fault: File\n");
    expect(&rt, &plan(network, list, link), 1, "fault: File\n");
    assert!(rt; fs::read(&rt, stream)?.as_slice() == bytes.as_slice());
    expect(&rt, &splice(network, list, other), 0, "");
    expect(&rt, &run(network, "-", list, other), 0, "");
    expect(&rt, &plan(network, list, other), 1, "fault: NoVideo\n");
    for path in [network, list, stream, link, other] {
        fs::remove_file(&rt, path)?;
    }
    Ok(())
}
