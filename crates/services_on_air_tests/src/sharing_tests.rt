//! PIDs of two services.

use crate::runs::*;
use chain_engine::RunFault;
use services_on_air::ServiceBegun;
use std::process::Abort;
use std::test::Fail;
use ts_packet::Pid;
use two_program_streams::Item::*;
use two_program_streams::{Item, Stream};

/// That the later service begins anew behind this packet on the PID of its map.
fn shared_at(packet: u64) -> Result<Option<ServiceBegun>, Fail> {
    Ok(Some(ServiceBegun {
        program: 2,
        stretch: 2,
        packet,
        pid: Pid::new(0x21).ok_or("a PID")?,
        fault: RunFault::SharedPid,
    }))
}

/// The map of program 2 lists the video of program 1 too. The run goes on: program 1 plays its break, and program 2 is as the network has it.
#[test]
fn the_later_service_begins_anew(rt: HostRuntime) -> Result<(), Fail> {
    let network = &[
        Pat,
        Map(1, &[ONE]),
        Map(2, &[TWO, ONE]),
        Unit(ONE, 900_000),
        Unit(TWO, AHEAD + 900_000),
        Unit(ONE, 1_200_000),
        Unit(TWO, AHEAD + 1_200_000),
        Unit(ONE, 1_300_000),
        Unit(TWO, AHEAD + 1_300_000),
        Unit(ONE, 2_200_000),
        Unit(TWO, AHEAD + 2_200_000),
    ];
    let want = &[
        Pat,
        Map(1, &[ONE]),
        Map(2, &[TWO, ONE]),
        Unit(ONE, 900_000),
        Unit(TWO, AHEAD + 900_000),
        Unit(ONE, 1_200_000),
        Unit(TWO, AHEAD + 1_200_000),
        Ad(ONE, 1_260_000),
        Unit(TWO, AHEAD + 1_300_000),
        Ad(ONE, 1_560_000),
        Ad(ONE, 1_860_000),
        Ad(ONE, 2_115_000),
        Unit(ONE, 2_200_000),
        Unit(TWO, AHEAD + 2_200_000),
    ];
    let network = Stream::of(rt.alloc(), network)?;
    let want = Stream::of(rt.alloc(), want)?;
    let outcome = run(rt.alloc(), &both_services()?, network.bytes(), BOTH)?;
    assert!(rt; outcome.out.as_slice() == want.bytes());
    assert!(rt; outcome.replies.as_slice() == SECOND_WITHOUT_CLOCK.as_bytes());
    let report = &outcome.report;
    assert!(rt; report.report.services.as_slice() == [played(1, 1), played(2, 0)].as_slice());
    assert_eq!(rt; [report.stretches, report.lost, report.unjudged], [2, 0, 0]);
    assert_eq!(rt; (outcome.told.last, outcome.told.begun), (shared_at(2)?, 1));
    Ok(())
}

/// The tables come again, and the map of program 2 is its own: both play. In the new stretch no packet of the PID of its map has passed before
/// that one, so its counter is 0.
#[test]
fn it_serves_again_by_its_next_map(rt: HostRuntime) -> Result<(), Fail> {
    let network = &[
        Pat,
        Map(1, &[ONE]),
        Map(2, &[TWO, ONE]),
        Pat,
        Map(2, &[TWO]),
        Unit(ONE, 900_000),
        Unit(TWO, AHEAD + 900_000),
        Unit(ONE, 1_300_000),
        Unit(TWO, AHEAD + 1_300_000),
        Unit(ONE, 2_200_000),
        Unit(TWO, AHEAD + 2_200_000),
    ];
    let script =
        "7 FFFF001E00000500010000010101000E010000000100070FA00064000001FFFF001E00000600020000010101000E010000000100070FA00064000001\n";
    let want = &[
        Pat,
        Map(1, &[ONE]),
        Map(2, &[TWO, ONE]),
        Pat,
        FromZero(0x21),
        Map(2, &[TWO]),
        Unit(ONE, 900_000),
        Unit(TWO, AHEAD + 900_000),
        Ad(ONE, 1_260_000),
        Ad(TWO, AHEAD + 1_260_000),
        Ad(ONE, 1_560_000),
        Ad(ONE, 1_860_000),
        Ad(ONE, 2_115_000),
        Unit(ONE, 2_200_000),
        Ad(TWO, AHEAD + 1_560_000),
        Ad(TWO, AHEAD + 1_860_000),
        Ad(TWO, AHEAD + 2_115_000),
        Unit(TWO, AHEAD + 2_200_000),
    ];
    let network = Stream::of(rt.alloc(), network)?;
    let want = Stream::of(rt.alloc(), want)?;
    let outcome = run(rt.alloc(), &both_services()?, network.bytes(), script)?;
    assert!(rt; outcome.out.as_slice() == want.bytes());
    assert!(rt; outcome.replies.as_slice() == BOTH_ACCEPTED.as_bytes());
    assert_eq!(rt; (outcome.report.stretches, outcome.report.lost), (2, 0));
    Ok(())
}

/// A stretch that would begin behind the last packet has none, and is not counted; what is left of the advertisement goes out.
#[test]
fn at_the_end_no_stretch_begins(rt: HostRuntime) -> Result<(), Fail> {
    let network = &[
        Pat,
        Map(2, &[TWO]),
        Unit(TWO, 900_000),
        Unit(TWO, 1_200_000),
        Unit(TWO, 1_300_000),
        Map(1, &[TWO]),
    ];
    let script = "3 FFFF001E00000600020000010101000E010000000100070FA00064000001\n";
    let want = &[
        Pat,
        Map(2, &[TWO]),
        Unit(TWO, 900_000),
        Unit(TWO, 1_200_000),
        Ad(TWO, 1_260_000),
        Map(1, &[TWO]),
        Ad(TWO, 1_560_000),
        Ad(TWO, 1_860_000),
        Ad(TWO, 2_115_000),
    ];
    let network = Stream::of(rt.alloc(), network)?;
    let want = Stream::of(rt.alloc(), want)?;
    let outcome = run(rt.alloc(), &both_services()?, network.bytes(), script)?;
    assert!(rt; outcome.out.as_slice() == want.bytes());
    let report = &outcome.report;
    assert!(rt; report.report.services.as_slice() == [played(1, 0), played(2, 1)].as_slice());
    assert_eq!(rt; [report.stretches, report.lost, report.unjudged], [1, 0, 0]);
    Ok(())
}
