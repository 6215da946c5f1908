//! Cues as they come, by bytes from outside.

ghost use Rattle.std.specs.Prelude.{◌<◌, OnOk};
ghost use Rattle.psi_section.specs.Assembling.{IsReady};

use armed_events::ArmedEvents;
use event_table::Event;
use pes_time::Time33;
use std::test::*;
use ts_packet::Packet;

/// The sample of ANSI/SCTE 35: event 0x4800008F from 1,936,310,318, for 5,426,421 ticks.
const SAMPLE: [u8; 50] = [
    0xFC, 0x30, 0x2F, 0x00, 0x00, 0x00, 0x00, 0x00, 0x00, 0xFF, 0xFF, 0xF0, 0x14, 0x05, 0x48, 0x00,
    0x00, 0x8F, 0x7F, 0xEF, 0xFE, 0x73, 0x69, 0xC0, 0x2E, 0xFE, 0x00, 0x52, 0xCC, 0xF5, 0x00, 0x00,
    0x00, 0x00, 0x00, 0x0A, 0x00, 0x08, 0x43, 0x55, 0x45, 0x49, 0x00, 0x00, 0x01, 0x35, 0x62, 0xDB,
    0xA3, 0x0A,
];

/// Event 1 from 1,260,000, for 2,700,000 ticks.
const START: [u8; 40] = [
    0xFC, 0x30, 0x25, 0x00, 0x00, 0x00, 0x00, 0x00, 0x00, 0xFF, 0xFF, 0xF0, 0x14, 0x05, 0x00, 0x00,
    0x00, 0x01, 0x7F, 0xEF, 0xFE, 0x00, 0x13, 0x39, 0xE0, 0xFE, 0x00, 0x29, 0x32, 0xE0, 0x00, 0x07,
    0x00, 0x00, 0x00, 0x00, 0x5F, 0xBE, 0xD6, 0x4C,
];

/// Event 1 ends at 2,400,000.
const END: [u8; 35] = [
    0xFC, 0x30, 0x20, 0x00, 0x00, 0x00, 0x00, 0x00, 0x00, 0xFF, 0xFF, 0xF0, 0x0F, 0x05, 0x00, 0x00,
    0x00, 0x01, 0x7F, 0x4F, 0xFE, 0x00, 0x24, 0x9F, 0x00, 0x00, 0x00, 0x00, 0x00, 0x00, 0x00, 0x2D,
    0xC3, 0x78, 0x26,
];

/// Event 2 from 2,400,000, for 270,000 ticks.
const TOUCHING: [u8; 40] = [
    0xFC, 0x30, 0x25, 0x00, 0x00, 0x00, 0x00, 0x00, 0x00, 0xFF, 0xFF, 0xF0, 0x14, 0x05, 0x00, 0x00,
    0x00, 0x02, 0x7F, 0xEF, 0xFE, 0x00, 0x24, 0x9F, 0x00, 0xFE, 0x00, 0x04, 0x1E, 0xB0, 0x00, 0x07,
    0x00, 0x00, 0x00, 0x00, 0x7F, 0xD5, 0x48, 0xE8,
];

/// Event 1 is cancelled.
const CANCEL: [u8; 25] = [
    0xFC, 0x30, 0x16, 0x00, 0x00, 0x00, 0x00, 0x00, 0x00, 0xFF, 0xFF, 0xF0, 0x05, 0x05, 0x00, 0x00,
    0x00, 0x01, 0xFF, 0x00, 0x00, 0x13, 0x66, 0x1B, 0xFA,
];

/// What comes next on the PID, and what it makes of the events.
#[derive(Clone, Copy)]
enum Turn {
    /// The high time.
    High(u64),
    /// A section in a packet of its own: whether its last byte is right, how many events stand then, and how many cues were ignored.
    Cue(&'static [u8], bool, usize, u64),
}

use Turn::*;

/// A packet of PID 0x01F0 with this section. A wrong one has its last byte changed.
fn packet(section: &[u8], counter: u8, is_right: bool) -> Packet
    requires { counter < 16 }
{
    let mut bytes = [0xFF; 188];
    bytes[0] = 0x47;
    bytes[1] = 0x41;
    bytes[2] = 0xF0;
    bytes[3] = 0x10 + counter;
    bytes[4] = 0;
    let count = section.len().min(183);
    bytes[5..5 + count].copy_from_slice(&section[..count]);
    if !is_right {
        bytes[4 + count] ^= 1;
    }
    Packet::from_bytes(&bytes).unwrap_or(Packet::null())
}

/// Makes a turn, and answers whether what it makes is what is wanted.
fn play(events: &mut ArmedEvents, counter: u8, turn: &Turn) -> Result<bool, Fail>
    requires counter { counter < 16 }
    requires ready { IsReady events.old.assembler }
    ensures { OnOk result (IsReady events.new.assembler) }
{
    match turn {
        High(ticks) => {
            let high = Time33::new(0).ok_or("a time")?.plus(*ticks);
            let can = events.table().can_advance(high);
            if can {
                events.advance(high);
            }
            Ok(can)
        }
        Cue(section, is_right, standing, ignored) => {
            events.feed(&packet(section, counter, *is_right), ());
            Ok(events.table().standing().len() == *standing && events.ignored() == *ignored)
        }
    }
}

/// Makes the turns in order, and answers how many went as wanted before the first that did not.
fn play_all(events: &mut ArmedEvents, turns: &[Turn]) -> Result<usize, Fail>
    requires { IsReady events.old.assembler }
    ensures { OnOk result (IsReady events.new.assembler) }
{
    let mut counter = 0;
    for (k, turn) in turns.iter().enumerate() {
        if !play(events, counter, turn)? {
            return Ok(k);
        }
        counter = (counter + 1) % 16;
    }
    Ok(turns.len())
}

/// Cues that come too early, with a wrong CRC_32, again, late and out of turn.
const TURNS: [Turn; 17] = [
    Cue(&START, true, 0, 1),
    Cue(&CANCEL, true, 0, 2),
    High(900_000),
    Cue(&START, false, 0, 2),
    Cue(&END, true, 0, 3),
    Cue(&START, true, 1, 3),
    Cue(&START, true, 1, 3),
    Cue(&TOUCHING, true, 1, 4),
    Cue(&END, true, 1, 4),
    Cue(&END, true, 1, 4),
    Cue(&TOUCHING, true, 2, 4),
    High(1_260_000),
    Cue(&CANCEL, true, 2, 5),
    Cue(&START, true, 2, 5),
    High(2_160_000),
    High(3_060_000),
    High(3_299_999),
];

#[test]
fn cues_in_turn(rt: HostRuntime) -> Result<(), Fail> {
    let mut events = ArmedEvents::<()>::new();
    expect_eq!(rt; play_all(&mut events, &TURNS)?, TURNS.len());
    expect_eq!(rt; events.table().standing().len(), 2);
    expect_eq!(rt;
        play_all(&mut events, &[High(3_300_000), Cue(&START, true, 1, 6)])?,
        2
    );
    Ok(())
}

#[test]
fn sample_of_the_standard(rt: HostRuntime) -> Result<(), Fail> {
    let mut events = ArmedEvents::<()>::new();
    expect_eq!(rt;
        play_all(
            &mut events,
            &[High(1_936_000_000), Cue(&SAMPLE, true, 1, 0)]
        )?,
        2
    );
    let first = events.table().standing().first().ok_or("an event")?.event;
    expect_eq!(rt;
        first,
        Event {
            id: 0x4800_008F,
            start: Time33::new(1_936_310_318).ok_or("a time")?,
            length: 5_426_421,
            asked: 5_426_421,
            program: 0,
            cancelled: false,
        }
    );
    Ok(())
}
