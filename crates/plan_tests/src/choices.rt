//! Choices in a video of 29.97 pictures a second: a picture is 3,003 ticks, each 15th is an entry picture, and one packet in ten begins
//! a picture.

use break_choices::{Ending, Mark, Picture, Placed, Unplaced, choose_ending, place};
use std::alloc::{AllocError, Global};
use std::test::Fail;

/// How many pictures there are.
const COUNT: u64 = 450;

/// Ticks of a picture.
const STEP: u64 = 3_003;

fn pictures(alloc: Global) -> Result<Vec<Picture>, AllocError> {
    let mut pictures = Vec::new(alloc);
    for k in 0..COUNT {
        let is_entry = k % 15 == 0;
        pictures.push(Picture {
            time: STEP * k,
            packet: 10 * k,
            is_entry,
            is_clean: is_entry,
        })?;
    }
    Ok(pictures)
}

fn marks(alloc: Global) -> Result<Vec<Mark>, AllocError> {
    let mut marks = Vec::new(alloc);
    for k in 0..COUNT {
        marks.push(Mark {
            packet: 10 * k + 1,
            high: STEP * k,
        })?;
    }
    Ok(marks)
}

fn placed(alloc: Global, at: u64) -> Result<Result<Placed, Unplaced>, AllocError> {
    let pictures = pictures(alloc)?;
    let marks = marks(alloc)?;
    Ok(place(pictures.as_slice(), marks.as_slice(), at))
}

fn ended(alloc: Global, at: u64, length: u64) -> Result<Option<Ending>, AllocError> {
    let pictures = pictures(alloc)?;
    let marks = marks(alloc)?;
    match place(pictures.as_slice(), marks.as_slice(), at) {
        Ok(placed) => Ok(choose_ending(pictures.as_slice(), &placed, length)),
        Err(_) => Ok(None),
    }
}

/// The time of picture 200 is in the group of which picture 210 is the next entry picture, at 630,630. Picture 209 is at 627,627, and
/// picture 89 at 267,267 is the last that is 360,000 ticks before it. From there 4,005 milliseconds are 360,450 ticks, the first past
/// picture 209, and 4,037 are 363,330, the last up to picture 210.
#[test]
fn break_begins_at_a_random_access_picture(rt: HostRuntime) -> Result<(), Fail> {
    let placed = placed(rt.alloc(), 200 * STEP)?.ok().expect(&rt, "a place");
    assert_eq!(rt; placed.picture.packet, 2_100);
    assert_eq!(rt; (placed.slot.after, placed.slot.until), (627_627, 630_630));
    assert_eq!(rt; (placed.mark.packet, placed.mark.high), (891, 267_267));
    assert_eq!(rt;
        (placed.pre_rolls.least, placed.pre_rolls.most),
        (4_005, 4_037)
    );
    Ok(())
}

/// Picture 300 is at 900,900 and picture 299 at 897,897: 3 seconds behind the latest start, 630,597, lie at 900,597, between them.
#[test]
fn break_ends_at_one(rt: HostRuntime) -> Result<(), Fail> {
    let ending = ended(rt.alloc(), 200 * STEP, 3_000)?.expect(&rt, "an ending");
    assert_eq!(rt; (ending.pre_roll, ending.tenths), (4_037, 30));
    assert_eq!(rt; ending.clean.map(|picture| picture.packet), Some(3_000));
    Ok(())
}

/// Behind picture 435, the last entry picture, there is none.
#[test]
fn nothing_is_placed_behind_the_last_one(rt: HostRuntime) -> Result<(), Fail> {
    let unplaced = placed(rt.alloc(), 435 * STEP + 1)?
        .err()
        .expect(&rt, "no place");
    assert_eq!(rt; sides(unplaced), Some((Some(4_350), None)));
    Ok(())
}

/// The packets of the nearest pictures on both sides.
fn sides(unplaced: Unplaced) -> Option<(Option<u64>, Option<u64>)> {
    match unplaced {
        Unplaced::NoPicture { before, behind } => Some((
            before.map(|picture| picture.packet),
            behind.map(|picture| picture.packet),
        )),
        Unplaced::NoPacket(_) => None,
    }
}
