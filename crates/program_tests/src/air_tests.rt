//! Runs of `inject` on air over networks that are at fault. Expected packets are worked out by hand from the standards.

use crate::device_tests::{CUE, MAP, MAP_OUT, NEXT_UNIT, PAT, SCRIPT, UNIT, packets};
use dpi_program::program::program;
use failing_devices::{Calls, Ending, FailSource, FailTarget};
use std::net::Net;
use std::process::Abort;
use std::rt::Files;
use std::test::Fail;
use std::{env, fs, str};

/// A packet of the video that is scrambled (transport_scrambling_control 10).
const SCRAMBLED: [u8; 4] = [0x47, 0x01, 0x00, 0x91];

/// A unit of the video 45 seconds later, and the next.
const FAR_UNIT: [u8; 18] = [
    0x47, 0x41, 0x00, 0x12, 0x00, 0x00, 0x01, 0xE0, 0x00, 0x00, 0x80, 0x80, 0x05, 0x21, 0x01, 0x31,
    0x96, 0x81,
];

const NEXT_FAR_UNIT: [u8; 18] = [
    0x47, 0x41, 0x00, 0x13, 0x00, 0x00, 0x01, 0xE0, 0x00, 0x00, 0x80, 0x80, 0x05, 0x21, 0x01, 0x31,
    0xB2, 0xA1,
];

/// The start of break 1 before the fifth packet.
const LATER_SCRIPT: &[u8] = b"4 FFFF001E00000500010000010101000E010000000100070FA0012C000001\n";

/// Runs `inject` on air by this script over a network that comes a byte a call: these packets are out, and this is told last; and before it
/// this line, where there is one.
fn expect_on_air<R: Files + Net + AllocGlobal + Abort>(
    rt: &R,
    script: &str,
    network: &[u8],
    cued: &[u8],
    line: &str,
    last: &str,
) -> Result<(), Fail> {
    let calls = Calls {
        step: 1,
        good: usize::MAX,
        ending: Ending::Fails,
    };
    let mut input = FailSource::new(network, calls);
    let mut output = FailTarget::new(rt.alloc(), calls);
    let mut faults = FailTarget::new(rt.alloc(), calls);
    let words = [
        "inject",
        "--network",
        "-",
        "--program",
        "1",
        "--cue-pid",
        "496",
        "--index",
        "1",
        "--script",
        script,
        "--out",
        "-",
        "--on-air",
        "--verbose",
    ];
    let answer = program(rt, &words, &mut input, &mut output, &mut faults);
    assert_eq!(rt; answer, 0, "{script}");
    assert!(rt; output.taken().as_slice() == cued, "{script}");
    let told = faults.taken();
    let told = str::from_utf8(told.as_slice()).map_err(|_| "a text")?;
    assert!(rt; told.contains(line), "{told}");
    assert!(rt; told.contains(last), "{told}");
    Ok(())
}

#[test]
fn a_network_without_a_fault_is_one_stretch(rt: HostRuntime) -> Result<(), Fail> {
    let script = env::temp_dir(&rt)?.join(rt.alloc(), "program_tests_on_air_sound.txt")?;
    let script = script.to_str().ok_or("a name")?;
    fs::write(&rt, script, SCRIPT)?;
    let network = packets(rt.alloc(), &[&PAT, &MAP, &UNIT, &NEXT_UNIT])?;
    let cued = packets(rt.alloc(), &[&PAT, &MAP_OUT, &UNIT, &CUE, &NEXT_UNIT])?;
    expect_on_air(
        &rt,
        script,
        &network,
        &cued,
        "reply 0007000E0064FFFF000005000105\n",
        "messages 1\naccepted 1\nrefused 0\nstretches 1\nlost 0\nunjudged 0\nmended 0\nskipped 0\n",
    )?;
    fs::remove_file(&rt, script)?;
    Ok(())
}

/// Bytes between packets are left out, and a scrambled packet goes out as it came.
#[test]
fn damage_is_passed_over(rt: HostRuntime) -> Result<(), Fail> {
    let script = env::temp_dir(&rt)?.join(rt.alloc(), "program_tests_on_air_damage.txt")?;
    let script = script.to_str().ok_or("a name")?;
    fs::write(&rt, script, LATER_SCRIPT)?;
    let mut network = packets(rt.alloc(), &[&PAT, &MAP])?;
    for _ in 0..57 {
        network.push(0xAA)?;
    }
    let behind = packets(rt.alloc(), &[&UNIT, &SCRAMBLED, &NEXT_UNIT])?;
    network.extend_from_slice(&behind)?;
    let cued = packets(
        rt.alloc(),
        &[&PAT, &MAP_OUT, &UNIT, &SCRAMBLED, &CUE, &NEXT_UNIT],
    )?;
    expect_on_air(
        &rt,
        script,
        &network,
        &cued,
        "unjudged: packet 3\n",
        "messages 1\naccepted 1\nrefused 0\nstretches 1\nlost 0\nunjudged 1\nmended 0\nskipped 57\n",
    )?;
    fs::remove_file(&rt, script)?;
    Ok(())
}

/// A second unit far off begins a stretch anew: the break that stood is lost, and the unit before it went out unjudged.
#[test]
fn another_time_base_begins_a_stretch(rt: HostRuntime) -> Result<(), Fail> {
    let script = env::temp_dir(&rt)?.join(rt.alloc(), "program_tests_on_air_stretch.txt")?;
    let script = script.to_str().ok_or("a name")?;
    fs::write(&rt, script, SCRIPT)?;
    let network = packets(
        rt.alloc(),
        &[&PAT, &MAP, &UNIT, &NEXT_UNIT, &FAR_UNIT, &NEXT_FAR_UNIT],
    )?;
    let cued = packets(
        rt.alloc(),
        &[
            &PAT,
            &MAP_OUT,
            &UNIT,
            &CUE,
            &NEXT_UNIT,
            &FAR_UNIT,
            &NEXT_FAR_UNIT,
        ],
    )?;
    expect_on_air(
        &rt,
        script,
        &network,
        &cued,
        "stretch 2: packet 5, byte 940, PID 256 (0x0100): TimeJump\n",
        "messages 1\naccepted 1\nrefused 0\nstretches 2\nlost 1\nunjudged 1\nmended 0\nskipped 0\n",
    )?;
    fs::remove_file(&rt, script)?;
    Ok(())
}
