//! Runs of `inject` over devices that move one byte a call and fail on the way, one device a run.
//! Expected packets are worked out by hand from the standards.

use dpi_program::program::program;
use failing_devices::{Calls, Ending, FailSource, FailTarget};
use std::alloc::{AllocError, Global};
use std::net::Net;
use std::process::Abort;
use std::rt::Files;
use std::test::Fail;
use std::{env, fs};

/// A packet with a PAT: the map of program 1 is on PID 0x20.
pub(crate) const PAT: [u8; 21] = [
    0x47, 0x40, 0x00, 0x10, 0x00, 0x00, 0xB0, 0x0D, 0x00, 0x01, 0xC1, 0x00, 0x00, 0x00, 0x01, 0xE0,
    0x20, 0xA2, 0xC3, 0x29, 0x41,
];

/// A packet with the map: video on PID 0x100, with the clock.
pub(crate) const MAP: [u8; 26] = [
    0x47, 0x40, 0x20, 0x10, 0x00, 0x02, 0xB0, 0x12, 0x00, 0x01, 0xC1, 0x00, 0x00, 0xE1, 0x00, 0xF0,
    0x00, 0x1B, 0xE1, 0x00, 0xF0, 0x00, 0x15, 0xBD, 0x4D, 0x56,
];

/// The map as it goes out, with its entry for cues on PID 0x1F0.
pub(crate) const MAP_OUT: [u8; 37] = [
    0x47, 0x40, 0x20, 0x10, 0x00, 0x02, 0xB0, 0x1D, 0x00, 0x01, 0xC1, 0x00, 0x00, 0xE1, 0x00, 0xF0,
    0x06, 0x05, 0x04, 0x43, 0x55, 0x45, 0x49, 0x1B, 0xE1, 0x00, 0xF0, 0x00, 0x86, 0xE1, 0xF0, 0xF0,
    0x00, 0x26, 0xD3, 0xF3, 0x7F,
];

/// A unit of the video at 900,000 ticks begins, and then the next.
pub(crate) const UNIT: [u8; 18] = [
    0x47, 0x41, 0x00, 0x10, 0x00, 0x00, 0x01, 0xE0, 0x00, 0x00, 0x80, 0x80, 0x05, 0x21, 0x00, 0x37,
    0x77, 0x41,
];

pub(crate) const NEXT_UNIT: [u8; 18] = [
    0x47, 0x41, 0x00, 0x11, 0x00, 0x00, 0x01, 0xE0, 0x00, 0x00, 0x80, 0x80, 0x05, 0x21, 0x00, 0x37,
    0x77, 0x41,
];

/// Before the second unit comes the start of break 1 in 4 seconds, for 30 seconds.
pub(crate) const SCRIPT: &[u8] =
    b"3 FFFF001E00000500010000010101000E010000000100070FA0012C000001\n";

/// A packet with the cue of that break, at 1,260,000 ticks.
pub(crate) const CUE: [u8; 45] = [
    0x47, 0x41, 0xF0, 0x10, 0x00, 0xFC, 0x30, 0x25, 0x00, 0x00, 0x00, 0x00, 0x00, 0x00, 0xFF, 0xFF,
    0xF0, 0x14, 0x05, 0x00, 0x00, 0x00, 0x01, 0x7F, 0xEF, 0xFE, 0x00, 0x13, 0x39, 0xE0, 0xFE, 0x00,
    0x29, 0x32, 0xE0, 0x00, 0x07, 0x00, 0x00, 0x00, 0x00, 0x5F, 0xBE, 0xD6, 0x4C,
];

/// The packets that begin with these bytes; the others are 0xFF.
pub(crate) fn packets(alloc: Global, fronts: &[&[u8]]) -> Result<Vec<u8>, AllocError> {
    let mut bytes = Vec::new(alloc);
    for front in fronts {
        bytes.extend_from_slice(front)?;
        for _ in front.len()..188 {
            bytes.push(0xFF)?;
        }
    }
    Ok(bytes)
}

/// The devices of a run: how much of the network there is, the calls that read it, those that put packets, and those that tell.
#[derive(Clone, Copy)]
struct Ends {
    size: usize,
    reads: Calls,
    puts: Calls,
    fails_to_flush: bool,
    tells: Calls,
}

/// So many calls of one byte go well, and then they end so.
fn bytewise(good: usize, ending: Ending) -> Calls {
    Calls {
        step: 1,
        good,
        ending,
    }
}

/// Devices that do not fail, over the whole network.
fn good_ends() -> Ends {
    let calls = bytewise(usize::MAX, Ending::Fails);
    Ends {
        size: 752,
        reads: calls,
        puts: calls,
        fails_to_flush: false,
        tells: calls,
    }
}

/// Runs `inject` by this script over these devices: it answers this status, so many bytes are out, and this is told last.
fn expect_run<R: Files + Net + AllocGlobal + Abort>(
    rt: &R,
    script: &str,
    ends: Ends,
    status: u8,
    size: usize,
    last: &str,
) -> Result<(), Fail> {
    let network = packets(rt.alloc(), &[&PAT, &MAP, &UNIT, &NEXT_UNIT])?;
    let cued = packets(rt.alloc(), &[&PAT, &MAP_OUT, &UNIT, &CUE, &NEXT_UNIT])?;
    let mut input = FailSource::new(&network[..ends.size.min(network.len())], ends.reads);
    let mut output = if ends.fails_to_flush {
        FailTarget::failing_to_flush(rt.alloc(), ends.puts)
    } else {
        FailTarget::new(rt.alloc(), ends.puts)
    };
    let mut faults = FailTarget::new(rt.alloc(), ends.tells);
    let words = [
        "inject",
        "--network",
        "-",
        "--program",
        "1",
        "--cue-pid",
        "496",
        "--index",
        "1",
        "--script",
        script,
        "--out",
        "-",
    ];
    let answer = program(rt, &words, &mut input, &mut output, &mut faults);
    assert_eq!(rt; answer, status, "{size} bytes: {last}");
    assert!(rt;
        output.taken().as_slice() == &cued[..size.min(cued.len())],
        "{size} bytes: {last}"
    );
    assert!(rt;
        faults.taken().as_slice().ends_with(last.as_bytes()),
        "{size} bytes: {last}"
    );
    Ok(())
}

#[test]
fn a_device_that_fails_is_named(rt: HostRuntime) -> Result<(), Fail> {
    let script = env::temp_dir(&rt)?.join(rt.alloc(), "program_tests_devices.txt")?;
    let script = script.to_str().ok_or("a name")?;
    fs::write(&rt, script, SCRIPT)?;
    let ends = good_ends();
    let last = "reply 0007000E0064FFFF000005000105\nmessages 1\naccepted 1\nrefused 0\n";
    expect_run(&rt, script, ends, 0, 940, last)?;
    let mut ends = good_ends();
    ends.size = 600;
    expect_run(&rt, script, ends, 1, 564, "fault: Truncated\n")?;
    let mut ends = good_ends();
    ends.size = 600;
    ends.reads = bytewise(600, Ending::Fails);
    expect_run(&rt, script, ends, 1, 564, "fault: Io\n")?;
    let mut ends = good_ends();
    ends.puts = bytewise(700, Ending::Stops);
    expect_run(&rt, script, ends, 1, 700, "fault: Io\n")?;
    let mut ends = good_ends();
    ends.puts = bytewise(700, Ending::Fails);
    expect_run(&rt, script, ends, 1, 700, "fault: Io\n")?;
    let mut ends = good_ends();
    ends.fails_to_flush = true;
    expect_run(&rt, script, ends, 1, 188, "fault: Io\n")?;
    fs::remove_file(&rt, script)?;
    Ok(())
}

/// The packets go on where a reply is lost, and the loss is told by the status.
#[test]
fn a_lost_reply_is_a_fault(rt: HostRuntime) -> Result<(), Fail> {
    let script = env::temp_dir(&rt)?.join(rt.alloc(), "program_tests_replies.txt")?;
    let script = script.to_str().ok_or("a name")?;
    fs::write(&rt, script, SCRIPT)?;
    for room in [0, 20, 34, 40] {
        let mut ends = good_ends();
        ends.tells = bytewise(room, Ending::Fails);
        expect_run(&rt, script, ends, 1, 940, "")?;
    }
    fs::remove_file(&rt, script)?;
    Ok(())
}
