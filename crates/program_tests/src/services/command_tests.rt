//! Runs of `services` by the program: command lines, what is printed, and files that are refused.

use crate::services::runs::*;
use ad_library::AdLibrary;
use chain_services::Services;
use dpi_program::program::program;
use dpi_program::services_listening;
use run_events::{Hearing, Unheard};
use std::io::{Cursor, Read, Write};
use std::net::{Net, OpenListener, OpenStream, SocketAddr, TcpListener, TcpStream};
use std::path::PathBuf;
use std::process::Abort;
use std::rt::{Env, Files};
use std::test::Fail;
use std::{env, fs};
use ts_packet::{Device, PacketReader, PacketWriter};
use two_program_streams::Stream;

/// An alive_request, and the start of a break of index 2.
const ALIVE_AND_START: [u8; 43] = [
    0, 3, 0, 0x0D, 0xFF, 0xFF, 0xFF, 0xFF, 0, 0, 7, 0, 1, 0xFF, 0xFF, 0, 0x1E, 0, 0, 6, 0, 2, 0, 0,
    1, 1, 1, 0, 0x0E, 1, 0, 0, 0, 1, 0, 7, 0x0F, 0xA0, 0, 0x64, 0, 0, 1,
];

/// The alive_response of success, and an inject_response with the number of NoClock.
const ALIVE_AND_NO_CLOCK: [u8; 27] = [
    0, 4, 0, 0x0D, 0, 0x64, 0xFF, 0xFF, 0, 0, 7, 0, 1, 0, 7, 0, 0x0E, 0x80, 0x0E, 0xFF, 0xFF, 0, 0,
    6, 0, 2, 6,
];

/// The words of `services` between these ends, with this option for its messages.
fn words<'a>(
    network: &'a str,
    services: &'a str,
    option: &'a str,
    value: &'a str,
    output: &'a str,
) -> [&'a str; 9] {
    [
        "services",
        "--network",
        network,
        "--services",
        services,
        option,
        value,
        "--out",
        output,
    ]
}

/// The words end with this status, and this is printed and told, where nothing is on standard input.
fn expect<R: Files + Net + AllocGlobal + Abort>(
    rt: &R,
    words: &[&str],
    status: u8,
    printed: &str,
    told: &str,
) {
    let mut output = Vec::new(rt.alloc());
    let mut faults = Vec::new(rt.alloc());
    let mut input = Cursor::new(b"".as_slice());
    let answer = program(rt, words, &mut input, &mut output, &mut faults);
    assert_eq!(rt; answer, status, "{words:?}");
    assert!(rt; output.as_slice() == printed.as_bytes(), "{words:?}");
    assert!(rt; faults.as_slice() == told.as_bytes(), "{words:?}");
}

/// How `services` is called, behind what is wrong.
const USAGE: &str = "

Usage: dpi_chain services --network <FILE> --services <FILE> <--script <FILE>|--listen <PORT>> --out <FILE> [--events <FILE>] [--on-air] [--quiet] [--verbose]

For more information, try '--help'.
";

#[test]
fn bad_command_lines_of_services_are_refused(rt: HostRuntime) -> Result<(), Fail> {
    for (words, why) in [
        (
            words("-", "x", "--script", "-", "-"),
            "error: '--network <FILE>' and '--script <FILE>' cannot both be standard input",
        ),
        (
            words("-", "-", "--script", "x", "-"),
            "error: only one of '--network <FILE>', '--script <FILE>' and '--services <FILE>' can be standard input",
        ),
        (
            words("x", "-", "--script", "-", "-"),
            "error: only one of '--network <FILE>', '--script <FILE>' and '--services <FILE>' can be standard input",
        ),
        (
            words("x", "x", "--listen", "0", "-"),
            "error: invalid value '0' for '--listen <PORT>': a port is a decimal number from 1 to 65535",
        ),
    ] {
        let told = format!(in rt.alloc(); "{why}{USAGE}")?;
        expect(&rt, &words, 2, "", told.as_str());
    }
    let told = format!(in rt.alloc();
        "error: exactly one of '--script <FILE>' and '--listen <PORT>' is to be given{USAGE}"
    )?;
    expect(
        &rt,
        &[
            "services",
            "--network",
            "x",
            "--services",
            "x",
            "--out",
            "-",
        ],
        2,
        "",
        told.as_str(),
    );
    Ok(())
}

/// The path of a temporary file of this name.
fn named<R: Env + AllocGlobal>(rt: &R, name: &str) -> Result<PathBuf, Fail> {
    Ok(env::temp_dir(rt)?.join(rt.alloc(), name)?)
}

#[test]
fn two_services_play_and_are_told_in_their_order(rt: HostRuntime) -> Result<(), Fail> {
    let network = named(&rt, "program_tests_services_network.ts")?;
    let network = network.to_str().ok_or("a name")?;
    let advert = named(&rt, "program_tests_services_advert.ts")?;
    let advert = advert.to_str().ok_or("a name")?;
    let adverts = named(&rt, "program_tests_services_list.txt")?;
    let adverts = adverts.to_str().ok_or("a name")?;
    let services = named(&rt, "program_tests_services_services.txt")?;
    let services = services.to_str().ok_or("a name")?;
    let script = named(&rt, "program_tests_services_script.txt")?;
    let script = script.to_str().ok_or("a name")?;
    let out = named(&rt, "program_tests_services_out.ts")?;
    let out = out.to_str().ok_or("a name")?;
    fs::write(&rt, network, Stream::of(rt.alloc(), NETWORK)?.bytes())?;
    fs::write(&rt, advert, Stream::of(rt.alloc(), ADVERT)?.bytes())?;
    fs::write(&rt, script, BOTH.as_bytes())?;
    fs::write(
        &rt,
        adverts,
        format!(in rt.alloc(); "7 {advert}\n")?.as_bytes(),
    )?;
    fs::write(
        &rt,
        services,
        format!(in rt.alloc(); "2 497 2 {adverts}\n1 496 1 {adverts}\n")?.as_bytes(),
    )?;
    let mut given = Vec::from_slice(
        rt.alloc(),
        &words(network, services, "--script", script, out),
    )?;
    given.push("--quiet")?;
    given.push("--verbose")?;
    expect(
        &rt,
        given.as_slice(),
        0,
        "reply 0007000E0064FFFF000005000105
reply 0007000E0064FFFF000006000206
messages 2
accepted 2
refused 0
service 2
played 1
not-fitted 0
unconditioned 0
ignored 0
service 1
played 1
not-fitted 0
unconditioned 0
ignored 0
",
        "services: 13 packets read, 17 written\n",
    );
    let want = Stream::of(rt.alloc(), BOTH_PLAYED)?;
    assert!(rt; fs::read(&rt, out)?.as_slice() == want.bytes());
    for path in [network, services, script] {
        expect(
            &rt,
            &words(network, services, "--script", script, path),
            1,
            "",
            "fault: File\n",
        );
    }
    for path in [network, advert, adverts, services, script, out] {
        fs::remove_file(&rt, path)?;
    }
    Ok(())
}

/// The words of `services` between these inputs, with nothing of what it writes.
fn reading<'a>(network: &'a str, services: &'a str) -> [&'a str; 7] {
    [
        "services",
        "--network",
        network,
        "--services",
        services,
        "--script",
        "-",
    ]
}

/// The words with this output and this log are refused on air and off, and told so.
fn expect_refused_with<'a, R: Files + Net + AllocGlobal + Abort>(
    rt: &R,
    words: &[&'a str],
    output: &'a str,
    events: &'a str,
    told: &str,
) -> Result<(), Fail> {
    let mut given = Vec::from_slice(rt.alloc(), words)?;
    given.extend_from_slice(&["--out", output, "--events", events, "--quiet", "--verbose"])?;
    expect(rt, given.as_slice(), 1, "", told);
    given.push("--on-air")?;
    expect(rt, given.as_slice(), 1, "", told);
    Ok(())
}

/// The words, on air and off, with the output or the log at this path, are refused since that is a file of the run, and the other one, which
/// does not stand, is not made.
fn expect_refused<'a, R: Files + Net + AllocGlobal + Abort>(
    rt: &R,
    words: &[&'a str],
    path: &'a str,
    other: &'a str,
) -> Result<(), Fail> {
    let why = "it is another file of the run\n";
    let writing = format!(in rt.alloc(); "fault: File\nwriting {path}: {why}")?;
    expect_refused_with(rt, words, path, other, writing.as_str())?;
    let telling = format!(in rt.alloc(); "fault: File\nwriting the events {path}: {why}")?;
    expect_refused_with(rt, words, other, path, telling.as_str())?;
    assert!(rt; fs::metadata(rt, other).is_err());
    Ok(())
}

#[test]
fn what_a_list_of_services_names_is_never_destroyed(rt: HostRuntime) -> Result<(), Fail> {
    let network = named(&rt, "program_tests_services_named_network.ts")?;
    let network = network.to_str().ok_or("a name")?;
    let stream = named(&rt, "program_tests_services_named_advert.ts")?;
    let stream = stream.to_str().ok_or("a name")?;
    let adverts = named(&rt, "program_tests_services_named_list.txt")?;
    let adverts = adverts.to_str().ok_or("a name")?;
    let services = named(&rt, "program_tests_services_named_services.txt")?;
    let services = services.to_str().ok_or("a name")?;
    let other = named(&rt, "program_tests_services_named_other.ts")?;
    let other = other.to_str().ok_or("a name")?;
    let _ = fs::remove_file(&rt, other);
    let advert = Stream::of(rt.alloc(), ADVERT)?;
    let list = format!(in rt.alloc(); "7 {stream}\n")?;
    let both = format!(in rt.alloc(); "2 497 2 {adverts}\n1 496 1 {adverts}\n")?;
    fs::write(&rt, network, b"".as_slice())?;
    fs::write(&rt, stream, advert.bytes())?;
    fs::write(&rt, adverts, list.as_bytes())?;
    fs::write(&rt, services, both.as_bytes())?;
    expect_refused(&rt, &reading(network, services), stream, other)?;
    expect_refused(&rt, &reading(network, services), adverts, other)?;
    assert!(rt; fs::read(&rt, stream)?.as_slice() == advert.bytes());
    assert!(rt; fs::read(&rt, adverts)?.as_slice() == list.as_bytes());
    for path in [network, stream, adverts, services] {
        fs::remove_file(&rt, path)?;
    }
    Ok(())
}

#[test]
fn a_bad_list_is_told_by_its_line(rt: HostRuntime) -> Result<(), Fail> {
    let services = named(&rt, "program_tests_services_bad_services.txt")?;
    let services = services.to_str().ok_or("a name")?;
    let adverts = named(&rt, "program_tests_services_bad_list.txt")?;
    let adverts = adverts.to_str().ok_or("a name")?;
    let script = named(&rt, "program_tests_services_bad_script.txt")?;
    let script = script.to_str().ok_or("a name")?;
    fs::write(&rt, script, b"".as_slice())?;
    fs::write(&rt, adverts, b"\nx\n".as_slice())?;
    let bad_adverts = format!(in rt.alloc(); "1 496 1 {adverts}")?;
    for (text, told) in [
        (
            "",
            "fault: BadList\nloading the list {}: there is no service\n",
        ),
        (
            "\n1 5 1 x\n",
            "fault: BadList\nloading the list {}: line 2: the cue PID is reserved\n",
        ),
        (
            "\n\n1 496 1",
            "fault: BadList\nloading the list {}: line 3: it is not a program, a cue PID, an index and a path, one space behind each number\n",
        ),
        (
            "1 496 1 no/such",
            "fault: File\nloading the list {}: line 1: its list of advertisements cannot be opened: No such file or directory (os error 2)\n",
        ),
        (
            bad_adverts.as_str(),
            "fault: BadList\nloading the list {}: line 1: its list of advertisements: it is not a number below 65536, one space and a path, in its line 2\n",
        ),
    ] {
        fs::write(&rt, services, text.as_bytes())?;
        let words = words("-", services, "--script", script, "-");
        let mut given = Vec::from_slice(rt.alloc(), &words)?;
        given.push("--quiet")?;
        given.push("--verbose")?;
        let (front, back) = told.split_once("{}").ok_or("a place for the name")?;
        let whole = format!(in rt.alloc(); "{front}{services}{back}")?;
        expect(&rt, given.as_slice(), 1, "", whole.as_str());
    }
    for path in [services, adverts, script] {
        fs::remove_file(&rt, path)?;
    }
    Ok(())
}

#[test]
fn a_client_speaks_for_both_services(rt: HostRuntime) -> Result<(), Fail> {
    let listener = TcpListener::bind(&rt, SocketAddr::from(([127, 0, 0, 1], 0)))?;
    let mut client = TcpStream::connect(&rt, listener.local_addr()?)?;
    client.write_all(&ALIVE_AND_START)?;
    let Ok(services) = Services::new(rt.alloc(), &both_services()?) else {
        return Err(Fail::from("services"));
    };
    let libraries = [AdLibrary::new(rt.alloc()), AdLibrary::new(rt.alloc())];
    if services.count() != 2 {
        return Err(Fail::from("two services"));
    }
    let network = Stream::of(rt.alloc(), NETWORK)?;
    let mut input = Device::new(network.bytes());
    let mut packets = PacketReader::new(&mut input);
    let mut target = Device::new(Vec::new(rt.alloc()));
    let mut out = PacketWriter::new(&mut target);
    let unheard = &mut Hearing {
        watch: Unheard,
        overheard: None,
    };
    let ran = services_listening(
        services,
        &mut packets,
        &listener,
        &libraries,
        &mut out,
        unheard,
    );
    let Ok(report) = ran else {
        return Err(Fail::from("a run"));
    };
    expect_eq!(rt; [report.messages, report.accepted, report.refused], [2, 0, 1]);
    assert!(rt; target.into_inner().as_slice() == network.bytes());
    let mut replies = [0; 27];
    client.read_exact(&mut replies)?;
    assert!(rt; replies == ALIVE_AND_NO_CLOCK);
    Ok(())
}
