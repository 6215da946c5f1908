//! The scripts of the workloads.

use crate::random::Random;
use crate::requests::{CANCEL, END, Request, START, START_AT_ONCE, push_line, push_requests};
use crate::workload::{Breaks, Job, MILLISECOND, Workload};
use std::alloc::{AllocError, Global};

/// How many ticks behind the start of the network the first break is asked for.
const FIRST: u64 = 28_800;

/// How many packets behind the request for a break a cancel or an early end of it is asked for.
const SOON: u64 = 150;

/// How many packets a group of the network of `asking` has, and how many events are asked for in it.
const ASKED: u64 = 24;

/// How many packets there are from one event of `asking` to the next.
const TURN: u64 = 6;

/// An alive_request with eight bytes of data.
const ALIVE: [u8; 21] = [
    0, 3, 0, 21, 0xFF, 0xFF, 0xFF, 0xFF, 0, 0, 7, 0, 1, 1, 2, 3, 4, 5, 6, 7, 8,
];

/// An init_request.
const INIT: [u8; 13] = [0, 1, 0, 13, 0xFF, 0xFF, 0xFF, 0xFF, 0, 0, 9, 0, 1];

/// A message of a kind that is not served.
const STATUS: [u8; 13] = [0, 5, 0, 13, 0xFF, 0xFF, 0xFF, 0xFF, 0, 0, 11, 0, 1];

/// A splice_null_request_data, which is not served.
const NULL: [u8; 16] = [0xFF, 0xFF, 0, 16, 0, 0, 13, 0, 1, 0, 0, 1, 1, 2, 0, 0];

/// The script of a job.
pub fn script(alloc: Global, job: Job) -> Result<Vec<u8>, AllocError> {
    let mut text = Vec::new(alloc);
    match job.workload {
        Workload::Rest | Workload::Cut => {}
        Workload::Breaks | Workload::Spots | Workload::Awkward => {
            let requests = requests(alloc, job)?;
            push_requests(&mut text, requests.as_slice())?;
        }
        Workload::Asking => {
            for event in 0..job.size.saturating_mul(ASKED / TURN) {
                push_turn(&mut text, event)?;
            }
        }
    }
    Ok(text)
}

/// Where the packets of a network lie in time.
#[derive(Clone, Copy, Debug)]
struct Clockwork {
    /// How many packets there are in so many ticks.
    packets: u64,
    ticks: u64,
    /// How many packets the network has.
    total: u64,
}

impl Clockwork {
    /// The packet that lies so many ticks behind the start of the network.
    fn packet_at(self, ticks: u64) -> u64 {
        let product = ticks.wrapping_mul(self.packets);
        product.checked_div(self.ticks).unwrap_or(0)
    }
}

/// The number in 16 bits.
fn short(number: u64) -> u16 {
    u16::try_from(number).unwrap_or(u16::MAX)
}

/// The requests of a job in order of their packets.
fn requests(alloc: Global, job: Job) -> Result<Vec<Request>, AllocError> {
    let group = job.group(alloc)?;
    let breaks = job.breaks(&group);
    let clockwork = Clockwork {
        packets: group.count(),
        ticks: group.ticks,
        total: job.size.saturating_mul(group.count()),
    };
    let mut random = Random::new(job.seed, 4);
    let mut requests = Vec::new(alloc);
    let mut ticks = FIRST;
    let mut event = 1_u32;
    let count = job.ticks(&group).checked_div(breaks.period).unwrap_or(0);
    for _break in 0..count {
        let lead = breaks.lead.saturating_add(random.below(100));
        add_break(&mut requests, clockwork, breaks, ticks, event, lead)?;
        ticks = ticks.saturating_add(breaks.period);
        event = event.wrapping_add(1);
    }
    requests.sort_by_key(|request| request.packet)?;
    Ok(requests)
}

/// Adds the request for a break, and what becomes of it, as far as the network has the packets.
fn add_break(
    requests: &mut Vec<Request>,
    clockwork: Clockwork,
    breaks: Breaks,
    ticks: u64,
    event: u32,
    lead: u64,
) -> Result<(), AllocError> {
    let packet = clockwork.packet_at(ticks);
    let number = event % u32::from(breaks.adverts.max(1));
    let begin = Request {
        packet,
        kind: START,
        event,
        advert: short(u64::from(number)),
        pre_roll: short(lead),
        tenths: breaks.tenths,
    };
    let soon = packet.saturating_add(SOON);
    add(requests, clockwork, begin)?;
    if !breaks.ends_early {
        return Ok(());
    }
    let later = Request {
        packet: soon,
        tenths: 0,
        ..begin
    };
    match event % 4 {
        1 => {
            let pre_roll = short(lead.saturating_add(800));
            add(
                requests,
                clockwork,
                Request {
                    kind: END,
                    pre_roll,
                    ..later
                },
            )
        }
        2 => add(
            requests,
            clockwork,
            Request {
                kind: CANCEL,
                ..later
            },
        ),
        3 => {
            let running = lead.saturating_add(500).saturating_mul(MILLISECOND);
            let packet = clockwork.packet_at(ticks.saturating_add(running));
            add(
                requests,
                clockwork,
                Request {
                    packet,
                    kind: END,
                    pre_roll: 700,
                    ..later
                },
            )
        }
        _ => Ok(()),
    }
}

/// Adds a request, where the network has its packet.
fn add(
    requests: &mut Vec<Request>,
    clockwork: Clockwork,
    request: Request,
) -> Result<(), AllocError> {
    if request.packet < clockwork.total {
        requests.push(request)?;
    }
    Ok(())
}

/// Adds the lines of an event of `asking`: its start, an alive_request, something by turns, its cancel, and a bad message.
fn push_turn(text: &mut Vec<u8>, event: u64) -> Result<(), AllocError> {
    let [a, b, c, d, _, _, _, _] = event.wrapping_add(1).to_le_bytes();
    let packet = event.saturating_mul(TURN);
    let begin = Request {
        packet,
        kind: START,
        event: u32::from_le_bytes([a, b, c, d]),
        advert: 1,
        pre_roll: 1_000,
        tenths: 3,
    };
    push_line(text, packet, &begin.message())?;
    push_line(text, packet.saturating_add(1), &ALIVE)?;
    push_third(text, packet.saturating_add(2), begin, event % 4)?;
    let cancel = Request {
        kind: CANCEL,
        ..begin
    };
    push_line(text, packet.saturating_add(3), &cancel.message())?;
    push_bad(text, packet.saturating_add(4), begin, event % 4)?;
    if event % 4 > 0 {
        push_line(text, packet.saturating_add(5), &cancel.message())?;
    }
    Ok(())
}

/// Adds an early end, a message that is not served, the same start again or one that meets the event, by turns.
fn push_third(
    text: &mut Vec<u8>,
    packet: u64,
    begin: Request,
    turn: u64,
) -> Result<(), AllocError> {
    match turn {
        0 => {
            let end = Request {
                kind: END,
                pre_roll: 1_050,
                ..begin
            };
            push_line(text, packet, &end.message())
        }
        1 => push_line(text, packet, &STATUS),
        2 => push_line(text, packet, &begin.message()),
        _ => {
            let event = begin.event.wrapping_add(0x8000_0000);
            push_line(text, packet, &Request { event, ..begin }.message())
        }
    }
}

/// Adds a message of another program's index, the cancel of an event that does not stand, a start at once or one without a splice, by turns;
/// an init_request behind it in the same line at every fourth.
fn push_bad(text: &mut Vec<u8>, packet: u64, begin: Request, turn: u64) -> Result<(), AllocError> {
    match turn {
        0 => {
            let mut message = begin.message();
            message[8] = 2;
            push_line(text, packet, &message)
        }
        1 => {
            let event = begin.event.wrapping_add(0x4000_0000);
            let cancel = Request {
                kind: CANCEL,
                event,
                ..begin
            };
            push_line(text, packet, &cancel.message())
        }
        2 => {
            let at_once = Request {
                kind: START_AT_ONCE,
                ..begin
            };
            push_line(text, packet, &at_once.message())
        }
        _ => {
            let mut both = [0; 29];
            let (front, behind) = both.split_at_mut(16);
            front.copy_from_slice(&NULL);
            behind.copy_from_slice(&INIT);
            push_line(text, packet, &both)
        }
    }
}
