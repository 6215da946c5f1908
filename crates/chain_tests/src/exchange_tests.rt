//! The order of takes and replies: each reply stands behind the take that has its message's last byte, and before the next take.

use crate::runs::config;
use ad_library::AdLibrary;
use chain_engine::{Automation, Chain, Taken, run, run_inject};
use std::alloc::Global;
use std::process::Abort;
use std::test::Fail;
use ts_packet::{Device, Packet, PacketList, PacketReader};

/// An alive_request with the number of this message.
fn alive_request(number: u8) -> [u8; 13] {
    [0, 3, 0, 0x0D, 0xFF, 0xFF, 0xFF, 0xFF, 0, 0, number, 0, 1]
}

/// The takes. Five requests end at the bytes 13, 26, 39, 52 and 65: none of them in the first take, the third and the sixth; two in the fifth.
const SIZES: [usize; 7] = [7, 6, 10, 3, 26, 12, 1];

/// What happens to an automation.
#[derive(Clone, Copy, Debug, PartialEq, Eq)]
enum Happening {
    /// It gave so many bytes.
    Took(usize),
    /// It was given the reply to the message with this number.
    Gave(u8),
}

use Happening::*;

/// By hand: each reply behind the take with the last byte of its message. The eighth take gives nothing.
const EXPECTED: [Happening; 13] = [
    Took(7),
    Took(6),
    Gave(1),
    Took(10),
    Took(3),
    Gave(2),
    Took(26),
    Gave(3),
    Gave(4),
    Took(12),
    Took(1),
    Gave(5),
    Took(0),
];

/// An automation that gives bytes in takes of these sizes, and records its takes and the replies in one list.
#[derive(Drop)]
struct RecordingAutomation<'a> {
    rest: &'a [u8],
    sizes: &'a [usize],
    record: Vec<Happening>,
    failures: u64,
}

impl Automation for RecordingAutomation<'_> {
    ghost use Rattle.std.specs.Prelude.{⊤};

    ghost exchanges = { λ s es t. ⊤ };

    ghost failures = { λ s. s.failures };

    ghost exchanges_refl = { λ s. tt };

    ghost exchanges_trans = { λ s t u xs ys h k. tt };

    fn take(&mut self, room: &mut [u8]) -> Taken {
        let mut size = 0;
        if let Some((first, later)) = self.sizes.split_first() {
            size = *first;
            self.sizes = later;
        }
        let count = room.len().min(self.rest.len()).min(size);
        let (piece, rest) = self.rest.split_at(count);
        room[..count].copy_from_slice(piece);
        self.rest = rest;
        if self.record.push(Took(count)).is_ok() {
            return Taken::Bytes(count);
        }
        self.failures = self.failures.saturating_add(1);
        Taken::Failed
    }

    fn answer(&mut self, reply: &[u8]) -> bool {
        let number = reply.get(10).copied().unwrap_or(0);
        if self.record.push(Gave(number)).is_ok() {
            return true;
        }
        self.failures = self.failures.saturating_add(1);
        false
    }
}

/// A run over eight null packets, with a library in which nothing is, or with an injector alone: what happened to its automation.
fn happenings(alloc: Global, plays: bool) -> Result<Vec<Happening>, Fail> {
    let Ok(chain) = Chain::new(alloc, config()?) else {
        return Err(Fail::from("memory"));
    };
    let mut bytes = Vec::new(alloc);
    for number in 1..=5 {
        bytes.extend_from_slice(&alive_request(number))?;
    }
    let mut automation = RecordingAutomation {
        rest: bytes.as_slice(),
        sizes: &SIZES,
        record: Vec::new(alloc),
        failures: 0,
    };
    let mut network = Vec::new(alloc);
    for _ in 0..8 {
        network.extend_from_slice(&Packet::null().to_bytes())?;
    }
    let mut input = Device::new(network.as_slice());
    let mut reader = PacketReader::new(&mut input);
    let mut out = PacketList::new(alloc, 8)?;
    let outcome = if plays {
        let library = AdLibrary::new(alloc);
        run(chain, &mut reader, &mut automation, &library, &mut out)
    } else {
        run_inject(chain, &mut reader, &mut automation, &mut out)
    };
    if outcome.is_err() {
        return Err(Fail::from("a run"));
    }
    Ok(automation.record)
}

#[test]
fn each_reply_stands_behind_its_take(rt: HostRuntime) -> Result<(), Fail> {
    for plays in [false, true] {
        let record = happenings(rt.alloc(), plays)?;
        assert!(rt; record.as_slice() == EXPECTED.as_slice(), "{plays}");
    }
    Ok(())
}
