//! Runs by example: automations whose bytes are cut into pieces, that fail or lose replies, and devices that fail. What packets come out is
//! shown by the vectors of the program.

use crate::fail_automation::FailAutomation;
use crate::runs::config;
use ad_library::AdLibrary;
use chain_engine::{Chain, Report, RunFault, run_inject};
use linked_list_allocator::LocalHeap;
use psi_tables::FeedFault;
use std::alloc::{AllocError, Allocator, Global};
use std::process::Abort;
use std::test::*;
use ts_packet::{Device, Packet, PacketList, PacketReader, PutFault, ReadFault};

/// An alive_request.
const ALIVE: [u8; 13] = [0, 3, 0, 0x0D, 0xFF, 0xFF, 0xFF, 0xFF, 0, 0, 7, 0, 1];

/// The alive_response to it, with the number of success.
const ALIVE_REPLY: [u8; 13] = [0, 4, 0, 0x0D, 0, 0x64, 0xFF, 0xFF, 0, 0, 7, 0, 1];

/// Takes of one such message each.
const ONE_BY_ONE: [usize; 8] = [13; 8];

/// Null packets, as bytes.
fn null_packets(alloc: Global, count: usize) -> Result<Vec<u8>, AllocError> {
    let mut packet = [0xFF; 188];
    packet[0] = 0x47;
    packet[1] = 0x1F;
    packet[3] = 0x10;
    let mut bytes = Vec::new(alloc);
    for _ in 0..count {
        bytes.extend_from_slice(&packet)?;
    }
    Ok(bytes)
}

/// Runs over these bytes to a list with this room. Answers how the run ended, and how many packets are in the list.
fn run(
    alloc: Global,
    bytes: &[u8],
    automation: &mut FailAutomation<'_>,
    room: usize,
) -> Result<(Result<Report, RunFault>, usize), Fail> {
    let Ok(chain) = Chain::new(alloc, config()?) else {
        return Err(Fail::from("memory"));
    };
    let mut input = Device::new(bytes);
    let mut network = PacketReader::new(&mut input);
    let mut out = PacketList::new(alloc, room)?;
    let outcome = run_inject(chain, &mut network, automation, &mut out);
    Ok((outcome, out.packets().len()))
}

/// A run over so many packets goes through with all of them, and judges so many messages, so many of them refused.
fn expect_run<R: AllocGlobal + Abort>(
    rt: &R,
    packets: usize,
    automation: &mut FailAutomation<'_>,
    messages: u64,
    refused: u64,
) -> Result<(), Fail> {
    let bytes = null_packets(rt.alloc(), packets)?;
    let (outcome, count) = run(rt.alloc(), bytes.as_slice(), automation, packets)?;
    let Ok(report) = outcome else {
        return Err(Fail::from("a run"));
    };
    expect_eq!(*rt; count, packets);
    expect_eq!(*rt;
        (report.messages, report.accepted, report.refused),
        (messages, 0, refused)
    );
    Ok(())
}

/// Five alive_requests.
fn five_messages(alloc: Global) -> Result<Vec<u8>, AllocError> {
    let mut bytes = Vec::new(alloc);
    for _ in 0..5 {
        bytes.extend_from_slice(&ALIVE)?;
    }
    Ok(bytes)
}

#[test]
fn pieces_of_any_size_are_messages(rt: HostRuntime) -> Result<(), Fail> {
    let bytes = five_messages(rt.alloc())?;
    for size in [1, 2, 7, 13, 14, 26, 65, 4_096] {
        let sizes = [size; 65];
        let mut automation = FailAutomation::of(rt.alloc(), bytes.as_slice(), &sizes);
        expect_run(&rt, 65, &mut automation, 5, 0)?;
        let replies = automation.replies.as_slice();
        expect_eq!(rt; replies.len(), 65);
        assert!(rt;
            replies
                .chunks(13)
                .all(|reply| reply == ALIVE_REPLY.as_slice())
        );
    }
    Ok(())
}

#[test]
fn messages_behind_the_last_packet_are_not_judged(rt: HostRuntime) -> Result<(), Fail> {
    let bytes = five_messages(rt.alloc())?;
    for packets in 0..6 {
        let mut automation = FailAutomation::of(rt.alloc(), bytes.as_slice(), &ONE_BY_ONE);
        let judged = packets.min(5);
        expect_run(&rt, packets, &mut automation, judged as u64, 0)?;
        expect_eq!(rt; automation.replies.len(), 13 * judged);
    }
    Ok(())
}

#[test]
fn takes_that_fail_end_the_session(rt: HostRuntime) -> Result<(), Fail> {
    let bytes = five_messages(rt.alloc())?;
    for good in 0..5 {
        let mut automation = FailAutomation::of(rt.alloc(), bytes.as_slice(), &ONE_BY_ONE);
        automation.good_takes = good;
        expect_run(&rt, 8, &mut automation, good as u64, 0)?;
        expect_eq!(rt;
            (automation.replies.len(), automation.failures),
            (13 * good, 1)
        );
    }
    Ok(())
}

#[test]
fn replies_that_are_lost_end_the_session(rt: HostRuntime) -> Result<(), Fail> {
    let bytes = five_messages(rt.alloc())?;
    for size in [13, 65] {
        let sizes = [size; 8];
        for good in 0..5 {
            let mut automation = FailAutomation::of(rt.alloc(), bytes.as_slice(), &sizes);
            automation.good_answers = good;
            expect_run(&rt, 8, &mut automation, good as u64 + 1, 0)?;
            expect_eq!(rt;
                (automation.replies.len(), automation.failures),
                (13 * good, 1)
            );
        }
    }
    Ok(())
}

/// A session with these first four bytes and then zeros, up to this size, and a message behind them judges so many messages.
fn expect_size<R: AllocGlobal + Abort>(
    rt: &R,
    head: [u8; 4],
    size: usize,
    messages: u64,
    refused: u64,
) -> Result<(), Fail> {
    let mut bytes = Vec::from_slice(rt.alloc(), &head)?;
    for _ in 4..size {
        bytes.push(0)?;
    }
    bytes.extend_from_slice(&ALIVE)?;
    let mut automation = FailAutomation::of(rt.alloc(), bytes.as_slice(), &[4_096; 20]);
    expect_run(rt, 20, &mut automation, messages, refused)
}

#[test]
fn sizes_that_no_message_has_end_the_session(rt: HostRuntime) -> Result<(), Fail> {
    expect_size(&rt, [0, 3, 0, 11], 11, 0, 0)?;
    expect_size(&rt, [0, 3, 0, 12], 12, 0, 0)?;
    expect_size(&rt, [0xFF, 0xFF, 0, 11], 11, 0, 0)?;
    expect_size(&rt, [0xFF, 0xFF, 0, 12], 12, 2, 1)?;
    expect_size(&rt, [0xFF, 0xFF, 0xFF, 0xFF], 65_535, 2, 1)
}

#[test]
fn an_output_that_fails_ends_the_run(rt: HostRuntime) -> Result<(), Fail> {
    let messages = five_messages(rt.alloc())?;
    let bytes = null_packets(rt.alloc(), 5)?;
    for room in 0..5 {
        let mut automation = FailAutomation::of(rt.alloc(), messages.as_slice(), &ONE_BY_ONE);
        let (outcome, count) = run(rt.alloc(), bytes.as_slice(), &mut automation, room)?;
        expect_eq!(rt; outcome, Err(RunFault::Feed(FeedFault::Sink(PutFault::Stuck))));
        expect_eq!(rt; (count, automation.replies.len()), (room, 13 * (room + 1)));
    }
    Ok(())
}

#[test]
fn a_network_that_ends_in_a_packet_ends_the_run(rt: HostRuntime) -> Result<(), Fail> {
    let messages = five_messages(rt.alloc())?;
    for size in [1, 187, 189, 939] {
        let mut bytes = null_packets(rt.alloc(), 5)?;
        bytes.truncate(size);
        let mut automation = FailAutomation::of(rt.alloc(), messages.as_slice(), &ONE_BY_ONE);
        let (outcome, count) = run(rt.alloc(), bytes.as_slice(), &mut automation, 5)?;
        expect_eq!(rt; outcome, Err(RunFault::Read(ReadFault::Truncated)));
        expect_eq!(rt;
            (count, automation.replies.len()),
            (size / 188, 13 * (size / 188))
        );
    }
    Ok(())
}

/// Whether a chain is made of this memory.
fn is_made<A: Allocator + Copy>(alloc: A) -> Result<bool, Fail> {
    Ok(Chain::new_in(alloc, config()?).is_ok())
}

#[test]
fn memory_is_taken_at_once(rt: HostRuntime) -> Result<(), Fail> {
    for (size, want) in [(16, false), (65_600, false), (140_000, true)] {
        let heap = LocalHeap::new(rt.alloc(), size)?;
        expect_eq!(rt; (size, is_made(&heap)?), (size, want));
        expect_eq!(rt; heap.used(), 0);
    }
    Ok(())
}

/// The second packet finds no room. Behind that fault the automation is not asked any more, and nothing is answered or put.
#[test]
fn a_step_behind_a_fault_hears_nothing(rt: HostRuntime) -> Result<(), Fail> {
    let bytes = five_messages(rt.alloc())?;
    let mut automation = FailAutomation::of(rt.alloc(), bytes.as_slice(), &ONE_BY_ONE);
    let library = AdLibrary::new(rt.alloc());
    let Ok(mut chain) = Chain::new(rt.alloc(), config()?) else {
        return Err(Fail::from("memory"));
    };
    let mut out = PacketList::new(rt.alloc(), 1)?;
    for answer in [
        Ok(()),
        Err(FeedFault::Sink(PutFault::Stuck)),
        Err(FeedFault::Failed),
        Err(FeedFault::Failed),
    ] {
        let stepped = chain.step(&Packet::null(), &mut automation, &library, &mut out);
        expect_eq!(rt; stepped, answer);
    }
    expect_eq!(rt; automation.rest.len(), 3 * 13);
    expect_eq!(rt; automation.replies.len(), 2 * 13);
    expect_eq!(rt; out.packets().len(), 1);
    Ok(())
}
