//! Runs over devices that fail at each of their calls in turn, networks and messages that break off anywhere, and an automation that fails.
//! `run_splice` is handed no allocator; `run` has that of its chain, and is shown to need nothing of it.

use crate::fail_automation::FailAutomation;
use crate::item::Item::{self, *};
use crate::runs::{SEVEN, config, library};
use crate::stream::Stream;
use ad_library::AdLibrary;
use chain_engine::{Chain, Report, RunFault, run, run_splice};
use failing_devices::{Calls, Ending, FailSource, FailTarget};
use linked_list_allocator::LocalHeap;
use psi_tables::FeedFault;
use splice_switch::SwitchReport;
use std::alloc::{AllocError, Allocator, Global};
use std::process::Abort;
use std::test::*;
use ts_packet::{Device, PacketReader, PacketWriter, PutFault, ReadFault};

/// The start of break 1 in 4 seconds, for 10 seconds, and of break 2 in 4 seconds, for 5 seconds.
const STARTS: [u8; 60] = [
    0xFF, 0xFF, 0, 0x1E, 0, 0, 5, 0, 1, 0, 0, 1, 1, 1, 0, 0x0E, 1, 0, 0, 0, 1, 0, 7, 0x0F, 0xA0, 0,
    0x64, 0, 0, 1, 0xFF, 0xFF, 0, 0x1E, 0, 0, 6, 0, 1, 0, 0, 1, 1, 1, 0, 0x0E, 1, 0, 0, 0, 2, 0, 7,
    0x0F, 0xA0, 0, 0x32, 0, 0, 1,
];

/// The inject_responses to them, with the number of success.
const REPLIES: [u8; 28] = [
    0, 7, 0, 0x0E, 0, 0x64, 0xFF, 0xFF, 0, 0, 5, 0, 1, 5, 0, 7, 0, 0x0E, 0, 0x64, 0xFF, 0xFF, 0, 0,
    6, 0, 1, 6,
];

/// A network with cues of 20 packets, and how many packets are out behind each of them, and at its end where the network ends there.
const CUED: &[(Item, usize, usize)] = &[
    (Pat, 1, 1),
    (CuedMap, 2, 2),
    (Video(900_000), 3, 3),
    (Start(1, 1_260_000, 900_000), 3, 3),
    (Video(1_000_000), 4, 4),
    (Video(1_260_000), 5, 8),
    (Video(1_600_000), 6, 8),
    (Video(1_900_000), 7, 8),
    (Video(2_200_000), 9, 9),
    (Video(2_700_000), 10, 10),
    (Start(2, 3_060_000, 450_000), 10, 10),
    (Video(3_000_000), 11, 11),
    (Video(3_060_000), 12, 13),
    (Video(3_200_000), 12, 13),
    (Video(3_300_000), 12, 13),
    (Video(3_400_000), 13, 13),
    (Video(3_600_000), 14, 14),
    (Pat, 15, 15),
    (CuedMap, 16, 16),
    (Video(3_800_000), 17, 17),
];

/// The network without cues of which the chain makes the same, where the messages come before the packets 3 and 9.
const PLAIN: &[(Item, usize, usize)] = &[
    (Pat, 1, 1),
    (Map, 2, 2),
    (Video(900_000), 3, 3),
    (Video(1_000_000), 4, 4),
    (Video(1_260_000), 5, 8),
    (Video(1_600_000), 6, 8),
    (Video(1_900_000), 7, 8),
    (Video(2_200_000), 9, 9),
    (Video(2_700_000), 10, 10),
    (Video(3_000_000), 11, 11),
    (Video(3_060_000), 12, 13),
    (Video(3_200_000), 12, 13),
    (Video(3_300_000), 12, 13),
    (Video(3_400_000), 13, 13),
    (Video(3_600_000), 14, 14),
    (Pat, 15, 15),
    (Map, 16, 16),
    (Video(3_800_000), 17, 17),
    (Video(3_900_000), 18, 18),
    (Video(4_000_000), 19, 19),
];

/// What goes out of both, as far as they go.
const OUT: [Item; 19] = [
    Pat,
    Map,
    Video(900_000),
    Video(1_000_000),
    Ad(1_260_000),
    Ad(1_560_000),
    Ad(1_860_000),
    Ad(2_115_000),
    Video(2_200_000),
    Video(2_700_000),
    Video(3_000_000),
    Ad(3_060_000),
    Ad(3_360_000),
    Video(3_600_000),
    Pat,
    Map,
    Video(3_800_000),
    Video(3_900_000),
    Video(4_000_000),
];

/// Before which packets of the network without cues so many bytes come.
const SIZES: [usize; 10] = [0, 0, 0, 30, 0, 0, 0, 0, 0, 30];

/// A run of the switch over the network with cues, or of the chain over the other.
#[derive(Clone, Copy)]
enum Kind {
    Splice,
    Chain,
}

use Kind::Splice;

impl Kind {
    fn places(self) -> &'static [(Item, usize, usize)] {
        match self {
            Splice => CUED,
            Kind::Chain => PLAIN,
        }
    }

    /// The first so many packets of its network.
    fn network(self, alloc: Global, count: usize) -> Result<Stream, AllocError> {
        let mut stream = Stream::new(alloc);
        for (item, _, _) in self.places().iter().take(count) {
            stream.add(&[*item])?;
        }
        Ok(stream)
    }

    /// How many packets are out behind so many of its network, and where it ends there.
    fn counts(self, packets: usize) -> (usize, usize) {
        let before = packets.checked_sub(1);
        match before.and_then(|place| self.places().get(place)) {
            Some((_, out, end)) => (*out, *end),
            None => (0, 0),
        }
    }
}

/// How a run ended, and what is out.
type Ended = (Result<(), RunFault>, Vec<u8>);

/// Runs over these devices.
fn run_over(
    alloc: Global,
    kind: Kind,
    library: &AdLibrary,
    source: FailSource<'_>,
    calls: Calls,
) -> Result<Ended, Fail> {
    let mut input = Device::new(source);
    let mut network = PacketReader::new(&mut input);
    let mut target = Device::new(FailTarget::new(alloc, calls));
    let mut out = PacketWriter::new(&mut target);
    let fault = match kind {
        Splice => match run_splice(config()?, &mut network, library, &mut out) {
            Ok(_) => Ok(()),
            Err(fault) => Err(fault),
        },
        Kind::Chain => {
            let Ok(chain) = Chain::new(alloc, config()?) else {
                return Err(Fail::from("memory"));
            };
            let mut automation = FailAutomation::of(alloc, &STARTS, &SIZES);
            match run(chain, &mut network, &mut automation, library, &mut out) {
                Ok(_) => Ok(()),
                Err(fault) => Err(fault),
            }
        }
    };
    Ok((fault, target.into_inner().taken()))
}

/// The run ends so, with so many bytes of what goes out.
fn expect_end<R: AllocGlobal + Abort>(
    rt: &R,
    want: &[u8],
    ended: &Ended,
    fault: Result<(), RunFault>,
    size: usize,
    at: usize,
) {
    assert_eq!(rt; ended.0, fault, "at {at}");
    assert_eq!(rt; ended.1.len(), size, "at {at}");
    assert!(rt;
        ended.1.as_slice() == &want[..size.min(want.len())],
        "at {at}"
    );
}

/// The network breaks off behind any byte, in a read that gives one byte, or in one of more.
#[test]
fn each_front_of_a_network(rt: HostRuntime) -> Result<(), Fail> {
    let library = library(rt.alloc(), SEVEN)?;
    let want = Stream::of(rt.alloc(), &OUT)?;
    for kind in [Splice, Kind::Chain] {
        let network = kind.network(rt.alloc(), 20)?;
        let network = network.bytes();
        for size in 0..3_761 {
            let source = FailSource::new(&network[..size.min(network.len())], Calls::well());
            let ended = run_over(rt.alloc(), kind, &library, source, Calls::well())?;
            let (out, end) = kind.counts(size / 188);
            if size % 188 == 0 {
                expect_end(
                    &rt,
                    want.bytes(),
                    &ended,
                    Ok(()),
                    end.saturating_mul(188),
                    size,
                );
            } else {
                let fault = Err(RunFault::Read(ReadFault::Truncated));
                expect_end(
                    &rt,
                    want.bytes(),
                    &ended,
                    fault,
                    out.saturating_mul(188),
                    size,
                );
            }
        }
    }
    Ok(())
}

/// What a read that ends so behind so many bytes makes of a run, and whether what is left of the breaks goes out.
fn read_end(ending: Ending, size: usize) -> (Result<(), RunFault>, bool) {
    match ending {
        Ending::Fails => (Err(RunFault::Read(ReadFault::Io)), false),
        Ending::Waits => (Err(RunFault::Read(ReadFault::Turns)), false),
        Ending::Stops if size % 188 == 0 => (Ok(()), true),
        Ending::Stops => (Err(RunFault::Read(ReadFault::Truncated)), false),
    }
}

/// So many reads of so many bytes go well, and then they end so, over the first eight packets.
fn expect_reads<R: AllocGlobal + Abort>(rt: &R, step: usize, ending: Ending) -> Result<(), Fail> {
    let library = library(rt.alloc(), SEVEN)?;
    let want = Stream::of(rt.alloc(), &OUT)?;
    for kind in [Splice, Kind::Chain] {
        let network = kind.network(rt.alloc(), 8)?;
        for good in 0..1_505usize {
            let size = good.saturating_mul(step);
            if size > 1_504 {
                break;
            }
            let source = FailSource::new(network.bytes(), Calls { step, good, ending });
            let ended = run_over(rt.alloc(), kind, &library, source, Calls::well())?;
            let (out, end) = kind.counts(size / 188);
            let (fault, is_end) = read_end(ending, size);
            let count = if is_end { end } else { out };
            expect_end(
                rt,
                want.bytes(),
                &ended,
                fault,
                count.saturating_mul(188),
                size,
            );
        }
    }
    Ok(())
}

#[test]
fn each_read_fails_in_turn(rt: HostRuntime) -> Result<(), Fail> {
    for step in [1, 47, 188] {
        expect_reads(&rt, step, Ending::Fails)?;
        expect_reads(&rt, step, Ending::Stops)?;
    }
    expect_reads(&rt, 188, Ending::Waits)
}

/// What a write that ends so makes of a run.
fn write_end(ending: Ending) -> Result<(), RunFault> {
    let fault = match ending {
        Ending::Fails => PutFault::Io,
        Ending::Stops => PutFault::Stuck,
        Ending::Waits => PutFault::Turns,
    };
    Err(RunFault::Feed(FeedFault::Sink(fault)))
}

/// So many writes of so many bytes go well, and then they end so, where seven packets of the network make eight, the last of them behind
/// its end.
fn expect_writes<R: AllocGlobal + Abort>(rt: &R, step: usize, ending: Ending) -> Result<(), Fail> {
    let library = library(rt.alloc(), SEVEN)?;
    let want = Stream::of(rt.alloc(), &OUT)?;
    for kind in [Splice, Kind::Chain] {
        let network = kind.network(rt.alloc(), 7)?;
        for good in 0..1_505usize {
            let size = good.saturating_mul(step);
            if size > 1_504 {
                break;
            }
            let source = FailSource::new(network.bytes(), Calls::well());
            let calls = Calls { step, good, ending };
            let ended = run_over(rt.alloc(), kind, &library, source, calls)?;
            let fault = if size < 1_504 {
                write_end(ending)
            } else {
                Ok(())
            };
            expect_end(rt, want.bytes(), &ended, fault, size, size);
        }
    }
    Ok(())
}

#[test]
fn each_write_fails_in_turn(rt: HostRuntime) -> Result<(), Fail> {
    for step in [1, 47, 188] {
        expect_writes(&rt, step, Ending::Fails)?;
        expect_writes(&rt, step, Ending::Stops)?;
    }
    expect_writes(&rt, 188, Ending::Waits)
}

/// What the chain makes of its network with this automation, and what is out.
fn talked(
    alloc: Global,
    library: &AdLibrary,
    network: &[u8],
    automation: &mut FailAutomation<'_>,
) -> Result<(Result<Report, RunFault>, Vec<u8>), Fail> {
    let Ok(chain) = Chain::new(alloc, config()?) else {
        return Err(Fail::from("memory"));
    };
    let mut input = Device::new(network);
    let mut reader = PacketReader::new(&mut input);
    let mut target = Device::new(Vec::new(alloc));
    let mut out = PacketWriter::new(&mut target);
    let outcome = run(chain, &mut reader, automation, library, &mut out);
    Ok((outcome, target.into_inner()))
}

/// What goes out where so many of the two messages were accepted.
fn wanted(alloc: Global, messages: u64) -> Result<Stream, AllocError> {
    let (front, behind) = match messages {
        0 => (0, 0),
        1 => (11, 10),
        _ => (19, 20),
    };
    let mut want = Stream::of(alloc, &OUT[..front])?;
    for (item, _, _) in PLAIN.iter().skip(behind) {
        want.add(&[*item])?;
    }
    Ok(want)
}

/// A run of the chain with this automation goes well, so many messages are accepted, and their breaks are played.
fn expect_talk<R: AllocGlobal + Abort>(
    rt: &R,
    automation: &mut FailAutomation<'_>,
    messages: u64,
    at: usize,
) -> Result<(), Fail> {
    let library = library(rt.alloc(), SEVEN)?;
    let network = Kind::Chain.network(rt.alloc(), 20)?;
    let want = wanted(rt.alloc(), messages)?;
    let (outcome, got) = talked(rt.alloc(), &library, network.bytes(), automation)?;
    let mut report = Report {
        messages,
        accepted: messages,
        refused: 0,
        switch: SwitchReport::new(),
    };
    report.switch.played = messages;
    assert_eq!(rt; outcome, Ok(report), "at {at}");
    assert!(rt; got.as_slice() == want.bytes(), "at {at}");
    Ok(())
}

/// Takes before which packet so many bytes come. The first message is whole before packet 3, and the second before packet 9.
const PIECES: [&[usize]; 4] = [
    &SIZES,
    &[8, 8, 8, 6, 5, 5, 5, 5, 5, 5],
    &[0, 29, 0, 2, 0, 28, 0, 0, 0, 1],
    &[1, 1, 1, 56, 0, 0, 0, 0, 0, 1],
];

#[test]
fn messages_in_pieces(rt: HostRuntime) -> Result<(), Fail> {
    for (k, sizes) in PIECES.iter().enumerate() {
        let mut automation = FailAutomation::of(rt.alloc(), &STARTS, sizes);
        expect_talk(&rt, &mut automation, 2, k)?;
        assert!(rt; automation.replies.as_slice() == REPLIES.as_slice());
    }
    Ok(())
}

/// The automation ends behind any byte of its messages.
#[test]
fn each_front_of_messages(rt: HostRuntime) -> Result<(), Fail> {
    for size in 0..61 {
        let mut automation = FailAutomation::of(rt.alloc(), &STARTS[..size], &SIZES);
        automation.ends = true;
        let messages = size as u64 / 30;
        expect_talk(&rt, &mut automation, messages, size)?;
    }
    Ok(())
}

/// A take fails, or a reply is lost: what was accepted stands, and what comes later is not heard.
#[test]
fn each_take_and_answer_fails_in_turn(rt: HostRuntime) -> Result<(), Fail> {
    for good in 0..13 {
        let mut automation = FailAutomation::of(rt.alloc(), &STARTS, &SIZES);
        automation.good_takes = good;
        let messages = match good {
            0..=3 => 0,
            4..=9 => 1,
            _ => 2,
        };
        expect_talk(&rt, &mut automation, messages, good)?;
        let size = 14 * messages as usize;
        assert!(rt;
            automation.replies.as_slice() == &REPLIES[..size.min(28)],
            "at {good}"
        );
    }
    for good in 0..3 {
        let mut automation = FailAutomation::of(rt.alloc(), &STARTS, &SIZES);
        automation.good_answers = good;
        expect_talk(&rt, &mut automation, (good as u64 + 1).min(2), good)?;
        assert!(rt;
            automation.replies.as_slice() == &REPLIES[..14 * good],
            "at {good}"
        );
    }
    Ok(())
}

/// What goes out of a run of the chain whose memory is this, and its replies; `None` where that is too little for a chain.
fn run_in<A: Allocator + Copy>(
    alloc: Global,
    memory: A,
    library: &AdLibrary,
    network: &[u8],
) -> Result<Option<(Vec<u8>, Vec<u8>)>, Fail> {
    let Ok(chain) = Chain::new_in(memory, config()?) else {
        return Ok(None);
    };
    let mut input = Device::new(network);
    let mut reader = PacketReader::new(&mut input);
    let mut target = Device::new(Vec::new(alloc));
    let mut out = PacketWriter::new(&mut target);
    let mut automation = FailAutomation::of(alloc, &STARTS, &SIZES);
    if run(chain, &mut reader, &mut automation, library, &mut out).is_err() {
        return Err(Fail::from("a run"));
    }
    Ok(Some((target.into_inner(), automation.replies)))
}

/// The least heap of which a chain can be made, to 16 bytes, is full then: whatever a run asked for, it would not get.
#[test]
fn a_run_asks_for_no_memory(rt: HostRuntime) -> Result<(), Fail> {
    let library = library(rt.alloc(), SEVEN)?;
    let network = Kind::Chain.network(rt.alloc(), 20)?;
    let want = Stream::of(rt.alloc(), &OUT)?;
    for size in 8_191..8_400usize {
        let heap = LocalHeap::new(rt.alloc(), size.saturating_mul(16))?;
        if let Some((out, replies)) = run_in(rt.alloc(), &heap, &library, network.bytes())? {
            assert!(rt; out.as_slice() == want.bytes());
            assert!(rt; replies.as_slice() == REPLIES.as_slice());
            return Ok(());
        }
    }
    Err(Fail::from("no heap is enough for a chain"))
}
