//! Packets that are taken with another library than the ones before, at the same greatest time: what is due by that one goes out at once.

use crate::fail_automation::FailAutomation;
use crate::item::Item::{self, *};
use crate::runs::{Filed, SEVEN, config, difference, library};
use crate::stream::Stream;
use ad_library::AdLibrary;
use chain_engine::Chain;
use psi_tables::FeedFault;
use splice_switch::Switch;
use std::alloc::{AllocError, Global};
use std::process::Abort;
use std::test::*;
use ts_packet::{Packet, PacketList};

/// Another advertisement 7: units of offset 0, 60,000, 100,000 and 855,000, where the one of [`SEVEN`] has 0, 300,000, 600,000 and 855,000.
const OTHER_SEVEN: &[Filed] = &[(
    7,
    &[Pat, Map, Ad(90_000), Ad(150_000), Ad(190_000), Ad(945_000)],
)];

/// A packet, whether it is taken with the other library, and how many packets are out behind it.
type Step = (Item, bool, usize);

/// A network with the cue of a break from 1,260,000 to 2,160,000. At 1,400,000 the first unit of the advertisement is out, and by the first
/// library nothing more is due; by the other one its second and third unit are, and then by the first one its fourth is not.
const CUED: &[Step] = &[
    (Pat, false, 1),
    (CuedMap, false, 2),
    (Video(900_000), false, 3),
    (Start(1, 1_260_000, 900_000), false, 3),
    (Video(1_260_000), false, 4),
    (Video(1_400_000), false, 4),
    (Video(1_390_000), true, 6),
    (Other(1), true, 7),
    (Video(1_395_000), false, 7),
    (Video(1_600_000), false, 7),
    (Video(2_160_000), false, 9),
];

/// The network without the cue, of which a chain makes the same.
const PLAIN: &[Step] = &[
    (Pat, false, 1),
    (Map, false, 2),
    (Video(900_000), false, 3),
    (Video(1_260_000), false, 4),
    (Video(1_400_000), false, 4),
    (Video(1_390_000), true, 6),
    (Other(1), true, 7),
    (Video(1_395_000), false, 7),
    (Video(1_600_000), false, 7),
    (Video(2_160_000), false, 9),
];

/// What goes out of both.
const OUT: &[Item] = &[
    Pat,
    Map,
    Video(900_000),
    Ad(1_260_000),
    Ad(1_320_000),
    Ad(1_360_000),
    Other(1),
    Ad(2_115_000),
    Video(2_160_000),
];

/// The start of break 1 of program 7 in 4 seconds, for 10 seconds.
const START_MESSAGE: [u8; 30] = [
    0xFF, 0xFF, 0, 0x1E, 0, 0, 5, 0, 1, 0, 0, 1, 1, 1, 0, 0x0E, 1, 0, 0, 0, 1, 0, 7, 0x0F, 0xA0, 0,
    0x64, 0, 0, 1,
];

/// Before which packet it comes.
const SIZES: [usize; 4] = [0, 0, 0, 30];

/// What takes packets, each with a library.
trait Takes {
    fn take(
        &mut self,
        packet: &Packet,
        library: &AdLibrary,
        out: &mut PacketList,
    ) -> Result<(), FeedFault>;
}

impl Takes for Switch {
    fn take(
        &mut self,
        packet: &Packet,
        library: &AdLibrary,
        out: &mut PacketList,
    ) -> Result<(), FeedFault> {
        self.feed(packet, library, out)
    }
}

/// A chain, and the automation that it hears.
#[derive(Drop)]
struct Asked<'a> {
    chain: Chain,
    automation: FailAutomation<'a>,
}

impl Takes for Asked<'_> {
    fn take(
        &mut self,
        packet: &Packet,
        library: &AdLibrary,
        out: &mut PacketList,
    ) -> Result<(), FeedFault> {
        self.chain.step(packet, &mut self.automation, library, out)
    }
}

/// The packets of these steps.
fn packets(alloc: Global, steps: &[Step]) -> Result<Vec<Packet>, Fail> {
    let mut stream = Stream::new(alloc);
    for (item, _, _) in steps {
        stream.add(&[*item])?;
    }
    let mut packets = Vec::new(alloc);
    for chunk in stream.bytes().chunks(188) {
        let mut bytes = [0; 188];
        if chunk.len() == 188 {
            bytes.copy_from_slice(chunk);
        }
        let Ok(packet) = Packet::from_bytes(&bytes) else {
            return Err(Fail::from("a packet"));
        };
        packets.push(packet)?;
    }
    Ok(packets)
}

/// The bytes of a list of packets.
fn bytes_of(alloc: Global, list: &PacketList) -> Result<Vec<u8>, AllocError> {
    let mut bytes = Vec::new(alloc);
    for packet in list.packets() {
        bytes.extend_from_slice(packet.as_bytes())?;
    }
    Ok(bytes)
}

/// Each packet of the steps is taken with its library, and what goes out is as expected.
fn expect_out<R: AllocGlobal + Abort, T: Takes>(
    rt: &R,
    taker: &mut T,
    steps: &[Step],
) -> Result<(), Fail> {
    let first = library(rt.alloc(), SEVEN)?;
    let other = library(rt.alloc(), OTHER_SEVEN)?;
    let packets = packets(rt.alloc(), steps)?;
    let mut out = PacketList::new(rt.alloc(), 20)?;
    for (packet, (_, by_other, count)) in packets.iter().zip(steps) {
        let library = if *by_other { &other } else { &first };
        expect_eq!(*rt; taker.take(packet, library, &mut out), Ok(()));
        expect_eq!(*rt; out.packets().len(), *count);
    }
    let got = bytes_of(rt.alloc(), &out)?;
    let want = Stream::of(rt.alloc(), OUT)?;
    expect_eq!(*rt; difference(got.as_slice(), want.bytes()), None);
    Ok(())
}

#[test]
fn a_switch_asks_the_library_of_each_call(rt: HostRuntime) -> Result<(), Fail> {
    expect_out(&rt, &mut Switch::new(config()?), CUED)
}

#[test]
fn a_chain_asks_the_library_of_each_step(rt: HostRuntime) -> Result<(), Fail> {
    let Ok(chain) = Chain::new(rt.alloc(), config()?) else {
        return Err(Fail::from("memory"));
    };
    let automation = FailAutomation::of(rt.alloc(), &START_MESSAGE, &SIZES);
    expect_out(&rt, &mut Asked { chain, automation }, PLAIN)
}
