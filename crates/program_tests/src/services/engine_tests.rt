//! Whole runs of services: which breaks are played where, whose a message is, PIDs of two services, and services that are refused.

use crate::services::runs::*;
use chain_engine::RunFault;
use chain_services::{ServiceFault, Services};
use linked_list_allocator::LocalHeap;
use psi_tables::{Config, FeedFault, NetworkFault};
use std::alloc::{Allocator, Global};
use std::process::Abort;
use std::test::Fail;
use two_program_streams::Item::*;
use two_program_streams::{Item, Stream};

/// A run over both programs goes through with this output, these replies, these counts of messages, and these breaks played.
fn expect_run<R: AllocGlobal + Abort>(
    rt: &R,
    script: &str,
    out: &[Item],
    replies: &str,
    counts: [u64; 3],
    breaks: [u64; 2],
) -> Result<(), Fail> {
    let network = Stream::of(rt.alloc(), NETWORK)?;
    let want = Stream::of(rt.alloc(), out)?;
    let Outcome {
        ended,
        out: packets,
        replies: printed,
    } = run(rt.alloc(), &both_services()?, network.bytes(), script)?;
    let Ok(report) = ended else {
        return Err(Fail::from("a run"));
    };
    assert!(rt; packets.as_slice() == want.bytes());
    assert!(rt; printed.as_slice() == replies.as_bytes());
    expect_eq!(*rt; [report.messages, report.accepted, report.refused], counts);
    let [first, second] = breaks;
    assert!(rt; report.services.as_slice() == [played(1, first), played(2, second)].as_slice());
    Ok(())
}

#[test]
fn two_services_play_by_two_messages_in_one_piece(rt: HostRuntime) -> Result<(), Fail> {
    expect_run(
        &rt,
        BOTH,
        BOTH_PLAYED,
        "reply 0007000E0064FFFF000005000105\nreply 0007000E0064FFFF000006000206\n",
        [2, 2, 0],
        [1, 1],
    )
}

#[test]
fn without_the_second_message_the_second_program_stays(rt: HostRuntime) -> Result<(), Fail> {
    expect_run(
        &rt,
        FIRST,
        FIRST_PLAYED,
        "reply 0007000E0064FFFF000005000105\n",
        [1, 1, 0],
        [1, 0],
    )
}

#[test]
fn a_message_for_no_service_is_refused(rt: HostRuntime) -> Result<(), Fail> {
    expect_run(
        &rt,
        THIRD,
        NETWORK,
        "reply 0007000E8003FFFF000005000305\n",
        [1, 0, 1],
        [0, 0],
    )
}

#[test]
fn one_service_leaves_the_other_program(rt: HostRuntime) -> Result<(), Fail> {
    let network = Stream::of(rt.alloc(), NETWORK)?;
    let want = Stream::of(rt.alloc(), FIRST_PLAYED)?;
    let Outcome {
        ended,
        out: packets,
        replies: _,
    } = run(rt.alloc(), &[service(1, 0x1F0, 1)?], network.bytes(), BOTH)?;
    let Ok(report) = ended else {
        return Err(Fail::from("a run"));
    };
    assert!(rt; packets.as_slice() == want.bytes());
    expect_eq!(rt; [report.messages, report.accepted, report.refused], [2, 1, 1]);
    assert!(rt; report.services.as_slice() == [played(1, 1)].as_slice());
    Ok(())
}

/// A run over this network stops with this fault behind these packets.
fn expect_stop<R: AllocGlobal + Abort>(
    rt: &R,
    configs: &[Config],
    network: &[Item],
    out: &[Item],
    fault: RunFault,
) -> Result<(), Fail> {
    let network = Stream::of(rt.alloc(), network)?;
    let want = Stream::of(rt.alloc(), out)?;
    let outcome = run(rt.alloc(), configs, network.bytes(), "")?;
    let Err(got) = outcome.ended else {
        return Err(Fail::from("a fault"));
    };
    expect_eq!(*rt; got, fault);
    assert!(rt; outcome.out.as_slice() == want.bytes());
    Ok(())
}

#[test]
fn a_pid_of_two_services_ends_the_run_behind_its_packet(rt: HostRuntime) -> Result<(), Fail> {
    let both = both_services()?;
    for (network, count) in [
        (
            &[Pat, Map(1, &[ONE]), Map(2, &[TWO, ONE]), Unit(ONE, 900_000)],
            3,
        ),
        // The PID for the cues of the first one is a stream of the second.
        (
            &[Pat, Map(1, &[ONE]), Map(2, &[0x1F0]), Unit(ONE, 900_000)],
            3,
        ),
        // Both maps are on one PID, as the PAT says.
        (
            &[OnePat, Map(1, &[ONE]), Map(2, &[TWO]), Unit(ONE, 900_000)],
            1,
        ),
    ] {
        expect_stop(&rt, &both, network, &network[..count], RunFault::SharedPid)?;
    }
    Ok(())
}

/// The second map has a stream of the first program, and one on the PID of its own map: that is told, and the shared PID is not.
#[test]
fn a_fault_of_one_service_comes_before_a_shared_pid(rt: HostRuntime) -> Result<(), Fail> {
    expect_stop(
        &rt,
        &both_services()?,
        &[Pat, Map(1, &[ONE]), Map(2, &[TWO, ONE, 0x21])],
        &[Pat, Map(1, &[ONE])],
        RunFault::Feed(FeedFault::Network(NetworkFault::BadPids)),
    )
}

/// Why these services are refused, where they are.
fn refusal(alloc: Global, configs: &[Config]) -> Option<ServiceFault> {
    match Services::new(alloc, configs) {
        Ok(_) => None,
        Err(fault) => Some(fault),
    }
}

#[test]
fn services_that_do_not_go_together(rt: HostRuntime) -> Result<(), Fail> {
    let alloc = rt.alloc();
    let first = service(1, 0x1F0, 1)?;
    expect_eq!(rt; refusal(alloc, &[]), Some(ServiceFault::NoService));
    expect_eq!(rt; refusal(alloc, &[first]), None);
    expect_eq!(rt; refusal(alloc, &[first, service(2, 0x1F1, 2)?]), None);
    expect_eq!(rt; refusal(alloc, &[first; 8]), Some(ServiceFault::SharedIndex));
    expect_eq!(rt; refusal(alloc, &[first; 9]), Some(ServiceFault::Many));
    for (other, fault) in [
        (service(1, 0x1F0, 1)?, ServiceFault::SharedIndex),
        (service(1, 0x1F0, 2)?, ServiceFault::SharedProgram),
        (service(2, 0x1F0, 2)?, ServiceFault::SharedCue),
    ] {
        expect_eq!(rt; refusal(alloc, &[first, other]), Some(fault));
        expect_eq!(rt; refusal(alloc, &[service(9, 0x1F9, 9)?, first, other]), Some(fault));
    }
    // The last two alone have one index, the first two one program.
    let configs = [
        service(1, 0x1F0, 1)?,
        service(1, 0x1F1, 2)?,
        service(3, 0x1F2, 2)?,
    ];
    expect_eq!(rt; refusal(alloc, &configs), Some(ServiceFault::SharedIndex));
    Ok(())
}

/// How many bytes of memory there are.
const HEAP: usize = 4_000_000;

/// Why these services are refused with memory of this allocator, where they are.
fn refusal_in<M: Allocator + Copy>(alloc: M, configs: &[Config]) -> Option<ServiceFault> {
    match Services::new_in(alloc, configs) {
        Ok(_) => None,
        Err(fault) => Some(fault),
    }
}

#[test]
fn each_request_for_memory_refused(rt: HostRuntime) -> Result<(), Fail> {
    let mut configs = [service(1, 0x1F0, 1)?; 8];
    for number in 0..8 {
        configs[number] = service(1 + number as u16, 0x1F0 + number as u16, number as u16)?;
    }
    let heap = LocalHeap::new(rt.alloc(), HEAP)?;
    let mut refused: u32 = 0;
    for step in 0..41 {
        let free = 25_000 * step;
        let taken: Vec<u8, &LocalHeap> = Vec::with_capacity(&heap, HEAP.saturating_sub(free))?;
        match refusal_in(&heap, &configs) {
            None => {}
            Some(fault) => {
                expect_eq!(rt; fault, ServiceFault::OutOfMemory);
                refused = refused.saturating_add(1);
            }
        }
        drop(taken);
        expect_eq!(rt; refusal_in(&heap, &configs), None);
        expect_eq!(rt; heap.used(), 0);
    }
    assert!(rt; refused > 10 && refused < 40);
    Ok(())
}
