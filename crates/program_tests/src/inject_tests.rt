//! Runs of `inject`: command lines, scripts and connections. What packets come out is shown by the vectors of the injector.

use crate::expecting::expect;
use chain_engine::{Chain, Report};
use dpi_program::inject_listening;
use psi_tables::Config;
use run_events::{Hearing, Unheard};
use std::io::{Read, Write};
use std::net::{Net, OpenListener, OpenStream, Shutdown, SocketAddr, TcpListener, TcpStream};
use std::process::Abort;
use std::test::Fail;
use std::{env, fs};
use ts_packet::{Device, PacketReader, PacketWriter, Pid};

/// The start of break 1 in 4 seconds, for 30 seconds.
const START: [u8; 30] = [
    0xFF, 0xFF, 0, 0x1E, 0, 0, 5, 0, 1, 0, 0, 1, 1, 1, 0, 0x0E, 1, 0, 0, 0, 1, 0, 7, 0x0F, 0xA0, 1,
    0x2C, 0, 0, 1,
];

/// The reply to it before the network has a time: an inject_response with the number of NoClock.
const NO_CLOCK: [u8; 14] = [0, 7, 0, 0x0E, 0x80, 0x0E, 0xFF, 0xFF, 0, 0, 5, 0, 1, 5];

/// A null packet.
fn null_packet() -> [u8; 188] {
    let mut bytes = [0xFF; 188];
    bytes[0] = 0x47;
    bytes[1] = 0x1F;
    bytes[3] = 0x10;
    bytes
}

/// The words of a run with these numbers, and this option for its messages.
fn words<'a>(
    program: &'a str,
    cue_pid: &'a str,
    index: &'a str,
    option: &'a str,
    value: &'a str,
) -> [&'a str; 13] {
    [
        "inject",
        "--network",
        "-",
        "--program",
        program,
        "--cue-pid",
        cue_pid,
        "--index",
        index,
        option,
        value,
        "--out",
        "-",
    ]
}

#[test]
fn numbers_outside_their_ranges_are_refused(rt: HostRuntime) {
    expect(&rt, &words("0", "496", "1", "--script", "x"), 2, "");
    expect(&rt, &words("65536", "496", "1", "--script", "x"), 2, "");
    expect(&rt, &words("1", "15", "1", "--script", "x"), 2, "");
    expect(&rt, &words("1", "8191", "1", "--script", "x"), 2, "");
    expect(&rt, &words("1", "496", "65536", "--script", "x"), 2, "");
    expect(&rt, &words("1", "496", "+1", "--script", "x"), 2, "");
    expect(&rt, &words("1", "496", "1", "--listen", "0"), 2, "");
    expect(&rt, &words("1", "496", "1", "--listen", "65536"), 2, "");
    expect(&rt, &words("1", "496", "1", "--script", "-"), 2, "");
    expect(
        &rt,
        &[
            "inject",
            "--network",
            "-",
            "--program",
            "1",
            "--cue-pid",
            "496",
            "--index",
            "1",
            "--out",
            "-",
        ],
        2,
        "",
    );
    expect(
        &rt,
        &[
            "inject",
            "--network",
            "-",
            "--program",
            "1",
            "--cue-pid",
            "496",
            "--index",
            "1",
            "--script",
            "x",
            "--listen",
            "5167",
            "--out",
            "-",
        ],
        2,
        "",
    );
}

#[test]
fn scripts_are_judged_before_the_output_is_opened(rt: HostRuntime) -> Result<(), Fail> {
    let folder = env::temp_dir(&rt)?;
    let script = folder.join(rt.alloc(), "program_tests_inject_script.txt")?;
    let script = script.to_str().ok_or("a name")?;
    fs::write(&rt, script, b"0 00\n0 00\n".as_slice())?;
    expect(
        &rt,
        &words("1", "496", "1", "--script", script),
        1,
        "fault: BadScript\n",
    );
    fs::write(&rt, script, b"".as_slice())?;
    let mut good = words("1", "496", "1", "--script", script);
    good[12] = "no/such/folder";
    expect(&rt, &good, 1, "fault: File\n");
    fs::remove_file(&rt, script)?;
    expect(
        &rt,
        &words("1", "496", "1", "--script", script),
        1,
        "fault: File\n",
    );
    Ok(())
}

#[test]
fn a_port_in_use_is_accept(rt: HostRuntime) -> Result<(), Fail> {
    let listener = TcpListener::bind(&rt, SocketAddr::from(([127, 0, 0, 1], 0)))?;
    let port = listener.local_addr()?.port();
    let port = format!(in rt.alloc(); "{port}")?;
    expect(
        &rt,
        &words("1", "496", "1", "--listen", port.as_str()),
        1,
        "fault: Accept\n",
    );
    Ok(())
}

/// Runs over one null packet with a client that has sent these bytes, and answers the report and whether the packet came out. A client
/// that is done has closed its side.
fn run_with_client<R: Net + AllocGlobal + Abort>(
    rt: &R,
    sent: &[u8],
    is_done: bool,
) -> Result<(Report, R::Stream), Fail> {
    let listener = TcpListener::bind(rt, SocketAddr::from(([127, 0, 0, 1], 0)))?;
    let mut client = TcpStream::connect(rt, listener.local_addr()?)?;
    client.write_all(sent)?;
    if is_done {
        client.shutdown(Shutdown::Write)?;
    }
    let pid = Pid::new(496).ok_or("a PID")?;
    let Ok(config) = Config::new(1, pid, 1) else {
        return Err(Fail::from("a configuration"));
    };
    let Ok(chain) = Chain::new(rt.alloc(), config) else {
        return Err(Fail::from("memory"));
    };
    let packet = null_packet();
    let mut input = Device::new(packet.as_slice());
    let mut target = Device::new(Vec::new(rt.alloc()));
    let mut network = PacketReader::new(&mut input);
    let mut out = PacketWriter::new(&mut target);
    let unheard = &mut Hearing {
        watch: Unheard,
        overheard: None,
    };
    let Ok(report) = inject_listening(chain, &mut network, &listener, &mut out, unheard) else {
        return Err(Fail::from("a run"));
    };
    assert!(rt; target.into_inner().as_slice() == packet.as_slice());
    Ok((report, client))
}

#[test]
fn a_client_is_answered(rt: HostRuntime) -> Result<(), Fail> {
    let (report, mut client) = run_with_client(&rt, &START, false)?;
    expect_eq!(rt;
        (report.messages, report.accepted, report.refused),
        (1, 0, 1)
    );
    let mut reply = [0; 14];
    client.read_exact(&mut reply)?;
    assert!(rt; reply == NO_CLOCK);
    Ok(())
}

#[test]
fn clients_that_go_do_not_stop_the_network(rt: HostRuntime) -> Result<(), Fail> {
    let (report, _client) = run_with_client(&rt, &START[..10], true)?;
    expect_eq!(rt; report.messages, 0);
    let (report, _client) = run_with_client(&rt, &[], true)?;
    expect_eq!(rt; report.messages, 0);
    let (report, _client) = run_with_client(&rt, &[], false)?;
    expect_eq!(rt; report.messages, 0);
    let (report, _client) = run_with_client(&rt, &[0; 100], false)?;
    expect_eq!(rt; report.messages, 0);
    let mut many = Vec::new(rt.alloc());
    for _ in 0..50 {
        many.extend_from_slice(&START)?;
    }
    let (report, _client) = run_with_client(&rt, many.as_slice(), false)?;
    expect_eq!(rt; (report.messages, report.refused), (50, 50));
    Ok(())
}
