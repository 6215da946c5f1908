//! What is wrong with one program leaves the other as it is.

use crate::runs::*;
use chain_services::ServiceFault;
use psi_tables::{Config, NetworkFault};
use services_on_air::{AirServices, ServiceBegun};
use std::alloc::Global;
use std::process::Abort;
use std::test::Fail;
use ts_packet::Pid;
use two_program_streams::Item::*;
use two_program_streams::{Item, Stream};

/// A run of both services over this network, with a break of each asked for before packet 5: this is out, and the rest of what came of it.
fn expect_out<R: Abort + AllocGlobal>(
    rt: &R,
    network: &[Item],
    want: &[Item],
) -> Result<Outcomes, Fail> {
    let network = Stream::of(rt.alloc(), network)?;
    let want = Stream::of(rt.alloc(), want)?;
    let outcome = run(rt.alloc(), &both_services()?, network.bytes(), BOTH)?;
    assert!(rt; outcome.out.as_slice() == want.bytes());
    assert!(rt; outcome.replies.as_slice() == BOTH_ACCEPTED.as_bytes());
    let report = &outcome.report;
    assert_eq!(rt; (report.report.messages, report.report.accepted), (2, 2));
    assert!(rt; report.report.services.as_slice() == [played(1, 1), played(2, 1)].as_slice());
    Ok(Outcomes {
        told: outcome.told,
        counts: [report.stretches, report.lost, report.unjudged],
    })
}

/// What was told of a run, and its stretches, lost events and unjudged packets.
#[derive(Clone, Copy, Drop)]
struct Outcomes {
    told: Told,
    counts: [u64; 3],
}

/// In the break of both programs another map of program 2 comes. What program 1 sends is what it sends without it. Program 2 has no program, no
/// clock and no break from then on: the rest of its advertisement does not go out, and its packets do with the counters that they have.
#[test]
fn another_map_of_one_program(rt: HostRuntime) -> Result<(), Fail> {
    let network = &[
        Pat,
        Map(1, &[ONE]),
        Map(2, &[TWO]),
        Unit(ONE, 900_000),
        Unit(TWO, AHEAD + 900_000),
        Unit(ONE, 1_200_000),
        Unit(TWO, AHEAD + 1_200_000),
        Unit(ONE, 1_300_000),
        Unit(TWO, AHEAD + 1_300_000),
        Map(2, &[0x111]),
        Unit(ONE, 1_900_000),
        Unit(TWO, AHEAD + 1_900_000),
        Unit(ONE, 2_200_000),
        Unit(TWO, AHEAD + 2_200_000),
    ];
    let want = &[
        Pat,
        Map(1, &[ONE]),
        Map(2, &[TWO]),
        Unit(ONE, 900_000),
        Unit(TWO, AHEAD + 900_000),
        Unit(ONE, 1_200_000),
        Unit(TWO, AHEAD + 1_200_000),
        Ad(ONE, 1_260_000),
        Ad(TWO, AHEAD + 1_260_000),
        Map(2, &[0x111]),
        Ad(ONE, 1_560_000),
        Ad(ONE, 1_860_000),
        Unit(TWO, AHEAD + 1_900_000),
        Ad(ONE, 2_115_000),
        Unit(ONE, 2_200_000),
        Unit(TWO, AHEAD + 2_200_000),
    ];
    let outcomes = expect_out(&rt, network, want)?;
    assert_eq!(rt; outcomes.counts, [2, 1, 0]);
    let begun = ServiceBegun {
        program: 2,
        stretch: 2,
        packet: 9,
        pid: Pid::new(0x21).ok_or("a PID")?,
        fault: of_network(NetworkFault::ProgramChanged),
    };
    assert_eq!(rt; (outcomes.told.last, outcomes.told.begun), (Some(begun), 1));
    Ok(())
}

/// Two packets of program 2 are scrambled, the second one within the break, and one is on its PID for cues. Each goes out at its place, on the
/// stream's PID with a counter that goes on; the breaks of both programs play.
#[test]
fn scrambled_packets_and_one_on_the_pid_for_cues(rt: HostRuntime) -> Result<(), Fail> {
    let network = &[
        Pat,
        Map(1, &[ONE]),
        Map(2, &[TWO]),
        Unit(ONE, 900_000),
        Unit(TWO, AHEAD + 900_000),
        Scrambled(TWO),
        Unit(0x1F1, 5),
        Unit(ONE, 1_200_000),
        Unit(TWO, AHEAD + 1_200_000),
        Unit(ONE, 1_300_000),
        Unit(TWO, AHEAD + 1_300_000),
        Scrambled(TWO),
        Unit(ONE, 1_900_000),
        Unit(TWO, AHEAD + 1_900_000),
        Unit(ONE, 2_200_000),
        Unit(TWO, AHEAD + 2_200_000),
    ];
    let want = &[
        Pat,
        Map(1, &[ONE]),
        Map(2, &[TWO]),
        Unit(ONE, 900_000),
        Unit(TWO, AHEAD + 900_000),
        Scrambled(TWO),
        Unit(0x1F1, 5),
        Unit(ONE, 1_200_000),
        Unit(TWO, AHEAD + 1_200_000),
        Ad(ONE, 1_260_000),
        Ad(TWO, AHEAD + 1_260_000),
        Scrambled(TWO),
        Ad(ONE, 1_560_000),
        Ad(ONE, 1_860_000),
        Ad(TWO, AHEAD + 1_560_000),
        Ad(TWO, AHEAD + 1_860_000),
        Ad(ONE, 2_115_000),
        Unit(ONE, 2_200_000),
        Ad(TWO, AHEAD + 2_115_000),
        Unit(TWO, AHEAD + 2_200_000),
    ];
    let outcomes = expect_out(&rt, network, want)?;
    assert_eq!(rt; outcomes.counts, [1, 0, 3]);
    assert_eq!(rt; outcomes.told, Told::of_unjudged(&[11, 6, 5]));
    Ok(())
}

/// A message before the packet that begins a stretch is judged in it: program 2 has no time there. The other program has its own.
#[test]
fn a_request_before_a_stretch_is_of_it(rt: HostRuntime) -> Result<(), Fail> {
    let network = Stream::of(
        rt.alloc(),
        &[
            Pat,
            Map(1, &[ONE]),
            Map(2, &[TWO]),
            Unit(ONE, 900_000),
            Unit(TWO, AHEAD + 900_000),
            Map(2, &[0x111]),
        ],
    )?;
    let outcome = run(rt.alloc(), &both_services()?, network.bytes(), BOTH)?;
    assert!(rt; outcome.out.as_slice() == network.bytes());
    assert!(rt; outcome.replies.as_slice() == SECOND_WITHOUT_CLOCK.as_bytes());
    assert_eq!(rt;
        (
            outcome.report.report.accepted,
            outcome.report.report.refused
        ),
        (1, 1)
    );
    Ok(())
}

/// Why these services are refused, where they are.
fn refusal(alloc: Global, configs: &[Config]) -> Option<ServiceFault> {
    match AirServices::new(alloc, configs) {
        Ok(_) => None,
        Err(fault) => Some(fault),
    }
}

/// Services are refused as off air.
#[test]
fn services_that_do_not_go_together(rt: HostRuntime) -> Result<(), Fail> {
    let alloc: Global = rt.alloc();
    let first = service(1, 0x1F0, 1)?;
    for (other, fault) in [
        (service(2, 0x1F1, 1)?, ServiceFault::SharedIndex),
        (service(1, 0x1F1, 2)?, ServiceFault::SharedProgram),
        (service(2, 0x1F0, 2)?, ServiceFault::SharedCue),
    ] {
        assert_eq!(rt; refusal(alloc, &[first, other]), Some(fault));
    }
    assert_eq!(rt; refusal(alloc, &[]), Some(ServiceFault::NoService));
    assert_eq!(rt; refusal(alloc, &[first; 9]), Some(ServiceFault::Many));
    assert_eq!(rt; refusal(alloc, &[first]), None);
    Ok(())
}
