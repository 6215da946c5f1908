//! Requests, cancels and early ends by numbers from outside, with the clock wrapped inside and around an event.

use event_table::*;
use pes_time::Time33;
use std::test::*;

/// One turn of the clock, in ticks.
const TURN: u64 = 1 << 33;

/// A call with its numbers, times in ticks past zero, and the answer that is wanted.
#[derive(Clone, Copy)]
enum Step {
    /// The high time.
    Advance(u64),
    /// Id, start and length of an event.
    Arm(u32, u64, u64, Result<Armed, ArmRefusal>),
    Cancel(u32, Result<(), CancelRefusal>),
    /// Id and end.
    Shorten(u32, u64, Result<Armed, ShortenRefusal>),
    /// A time, and the id of the event there.
    At(u64, Option<u32>),
    /// How many events stand.
    Standing(usize),
}

use Step::*;

/// The time so many ticks past zero, on the ring.
fn time(ticks: u64) -> Result<Time33, Fail> {
    Ok(Time33::new(0).ok_or("a time")?.plus(ticks))
}

fn event(id: u32, start: u64, length: u64) -> Result<Event, Fail> {
    Ok(Event {
        id,
        start: time(start)?,
        length,
        asked: length,
        program: 7,
        cancelled: false,
    })
}

/// The id of the event there.
fn id_at(table: &Table<u64>, time: Time33) -> Option<u32> {
    let place = table.at(time)?;
    Some(table.standing().get(place)?.event.id)
}

/// Makes a call on the table, where its condition holds. Answers whether that is so, and the table's answer the one that is wanted.
fn play(table: &mut Table<u64>, step: &Step) -> Result<bool, Fail> {
    match step {
        Advance(ticks) => {
            let high = time(*ticks)?;
            let can = table.can_advance(high);
            if can {
                table.advance(high);
            }
            Ok(can)
        }
        Arm(id, start, length, wanted) => {
            let event = event(*id, *start, *length)?;
            Ok(table.can_arm(&event) && table.arm(event, u64::from(*id)) == *wanted)
        }
        Cancel(id, wanted) => Ok(table.cancel(*id) == *wanted),
        Shorten(id, ticks, wanted) => {
            let end = time(*ticks)?;
            Ok(table.shorten(*id, end) == *wanted)
        }
        At(ticks, wanted) => Ok(id_at(table, time(*ticks)?) == *wanted),
        Standing(count) => Ok(table.standing().len() == *count),
    }
}

/// Makes the calls in turn, and answers how many went as wanted before the first that did not.
fn play_all(table: &mut Table<u64>, steps: &[Step]) -> Result<usize, Fail> {
    for (k, step) in steps.iter().enumerate() {
        if !play(table, step)? {
            return Ok(k);
        }
    }
    Ok(steps.len())
}

const FULL: [Step; 11] = [
    Arm(32, 1_278_000, 9_000, Err(ArmRefusal::Full)),
    Arm(3, 1_278_000, 9_000, Err(ArmRefusal::InUse)),
    Cancel(3, Ok(())),
    Arm(3, 1_278_000, 9_000, Err(ArmRefusal::InUse)),
    Arm(3, 1_017_000, 9_000, Ok(Armed::Same)),
    Standing(32),
    At(990_000, Some(0)),
    At(1_017_000, None),
    At(1_026_000, Some(4)),
    At(1_277_999, Some(31)),
    At(1_278_000, None),
];

const NEIGHBOURS: [Step; 8] = [
    Advance(900_000),
    Arm(1, 1_260_000, 2_700_000, Ok(Armed::New)),
    Arm(2, 3_959_910, 9_000, Err(ArmRefusal::Overlap)),
    Arm(2, 3_959_999, 9_000, Err(ArmRefusal::Overlap)),
    Arm(2, 3_960_000, 9_000, Ok(Armed::New)),
    Arm(3, 1_250_000, 10_001, Err(ArmRefusal::Overlap)),
    Arm(3, 1_250_000, 10_000, Ok(Armed::New)),
    Arm(1, 1_260_000, 2_700_000, Ok(Armed::Same)),
];

const CANCELLED: [Step; 18] = [
    Cancel(1, Err(CancelRefusal::NoSuchEvent)),
    Advance(900_000),
    Arm(1, 1_260_000, 90_000, Ok(Armed::New)),
    Arm(2, 1_350_000, 90_000, Ok(Armed::New)),
    Advance(1_259_999),
    Cancel(1, Ok(())),
    Cancel(1, Ok(())),
    Advance(1_260_000),
    Cancel(1, Err(CancelRefusal::TooLate)),
    At(1_260_000, None),
    At(1_350_000, Some(2)),
    Arm(3, 1_349_999, 1, Err(ArmRefusal::Overlap)),
    Advance(2_160_000),
    Advance(2_249_999),
    Arm(1, 2_340_000, 9_000, Err(ArmRefusal::InUse)),
    Advance(2_250_000),
    Standing(1),
    Arm(1, 2_340_000, 9_000, Ok(Armed::New)),
];

const WRAPS: [Step; 17] = [
    Advance(TURN - 90_000),
    Arm(1, TURN - 9_000, 90_000, Ok(Armed::New)),
    Arm(2, TURN + 80_999, 9_000, Err(ArmRefusal::Overlap)),
    Arm(2, TURN + 81_000, 9_000, Ok(Armed::New)),
    At(TURN - 9_001, None),
    At(TURN - 1, Some(1)),
    At(TURN, Some(1)),
    At(TURN + 80_999, Some(1)),
    At(TURN + 81_000, Some(2)),
    Advance(TURN + 80_000),
    Cancel(1, Err(CancelRefusal::TooLate)),
    Shorten(1, TURN + 80_500, Ok(Armed::New)),
    Advance(TURN + 980_000),
    Advance(TURN + 980_499),
    Standing(2),
    Advance(TURN + 980_500),
    Standing(1),
];

const EARLY_ENDS: [Step; 20] = [
    Shorten(1, 2_400_000, Err(ShortenRefusal::NoSuchEvent)),
    Advance(900_000),
    Arm(1, 1_260_000, 2_700_000, Ok(Armed::New)),
    Shorten(9, 2_400_000, Err(ShortenRefusal::NoSuchEvent)),
    Shorten(1, 1_260_000, Err(ShortenRefusal::BadEnd)),
    Shorten(1, 900_000, Err(ShortenRefusal::BadEnd)),
    Shorten(1, 900_000 + (1 << 29) + 1, Err(ShortenRefusal::BadEnd)),
    Shorten(1, 3_960_000, Ok(Armed::Same)),
    Shorten(1, 3_960_001, Err(ShortenRefusal::BadEnd)),
    Shorten(1, 2_400_000, Ok(Armed::New)),
    Shorten(1, 2_400_000, Ok(Armed::Same)),
    Shorten(1, 3_960_000, Err(ShortenRefusal::BadEnd)),
    Arm(1, 1_260_000, 2_700_000, Ok(Armed::Same)),
    Arm(1, 1_260_000, 1_140_000, Err(ArmRefusal::InUse)),
    Arm(2, 2_400_000, 270_000, Ok(Armed::New)),
    Shorten(1, 1_260_090, Ok(Armed::New)),
    At(1_260_089, Some(1)),
    At(1_260_090, None),
    Cancel(2, Ok(())),
    Shorten(2, 2_500_000, Err(ShortenRefusal::BadEnd)),
];

#[test]
fn as_many_as_may(rt: HostRuntime) -> Result<(), Fail> {
    let mut table = Table::new();
    expect_eq!(rt; table.high(), None);
    expect_eq!(rt; play(&mut table, &Advance(900_000))?, true);
    for k in 0u32..32 {
        let arm = Arm(k, 990_000 + 9_000 * u64::from(k), 9_000, Ok(Armed::New));
        expect_eq!(rt; play(&mut table, &arm)?, true);
    }
    expect_eq!(rt; play_all(&mut table, &FULL)?, FULL.len());
    laws::no_two_standing_events_meet(&table);
    let place = table.find(17).ok_or("an event")?;
    table.set_value(place, 99);
    expect_eq!(rt; table.has_id(32), false);
    expect_eq!(rt; table.find(32), None);
    expect_eq!(rt; play(&mut table, &Advance(1_800_000))?, true);
    expect_eq!(rt; play(&mut table, &Advance(1_998_000))?, true);
    expect_eq!(rt; table.standing().len(), 20);
    expect_eq!(rt;
        table
            .standing()
            .get(5)
            .map(|entry| (entry.event.id, entry.value)),
        Some((17, 99))
    );
    expect_eq!(rt;
        table
            .standing()
            .get(6)
            .map(|entry| (entry.event.id, entry.value)),
        Some((18, 18))
    );
    Ok(())
}

#[test]
fn one_after_another(rt: HostRuntime) -> Result<(), Fail> {
    let mut table = Table::new();
    expect_eq!(rt; play_all(&mut table, &NEIGHBOURS)?, NEIGHBOURS.len());
    expect_eq!(rt; table.is_repeat(&event(1, 1_260_000, 2_700_000)?), true);
    expect_eq!(rt; table.is_repeat(&event(1, 1_260_001, 2_700_000)?), false);
    let mut table = Table::new();
    expect_eq!(rt; play_all(&mut table, &CANCELLED)?, CANCELLED.len());
    Ok(())
}

#[test]
fn over_the_wrap(rt: HostRuntime) -> Result<(), Fail> {
    let mut table = Table::new();
    expect_eq!(rt; play_all(&mut table, &WRAPS)?, WRAPS.len());
    laws::ring_order_is_line_order_in_a_table(&table);
    laws::no_fault_lets_a_table_advance();
    expect_eq!(rt; is_before(time(TURN - 1)?, time(0)?), true);
    Ok(())
}

#[test]
fn shortened(rt: HostRuntime) -> Result<(), Fail> {
    let mut table = Table::new();
    expect_eq!(rt; play_all(&mut table, &EARLY_ENDS)?, EARLY_ENDS.len());
    let first = table.standing().first().ok_or("an event")?.event;
    expect_eq!(rt; (first.length, first.asked), (90, 2_700_000));
    expect_eq!(rt; first.end(), time(1_260_090)?);
    Ok(())
}
