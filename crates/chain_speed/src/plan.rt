//! What the made networks look like: their programs, streams and units. Nothing here depends on a seed.

use std::alloc::{AllocError, Global};

/// Ticks of 90 kHz between two pictures.
pub const PICTURE: u64 = 3_600;

/// Ticks of a unit of sound.
const SOUND: u64 = 2_880;

/// The PIDs of a program begin behind those of the program before it, by so many.
const PIDS: u16 = 0x20;

/// The PID of the first program's map.
const FIRST_PID: u16 = 0x100;

/// The packets of each picture of a group.
const PICTURES: [usize; 4] = [228, 68, 68, 68];

/// The packets of each picture of a group with four programs.
const SMALL_PICTURES: [usize; 4] = [62, 22, 22, 22];

/// The packets of each unit of sound of a group.
const SOUNDS: [usize; 5] = [5; 5];

/// The packets of each unit of sound of a group with four programs.
const SMALL_SOUNDS: [usize; 5] = [2; 5];

/// The packets of each unit of a stream of small units.
const SMALL_UNITS: [usize; 10] = [2, 1, 1, 2, 1, 2, 2, 1, 1, 1];

/// The pictures of a group with few packets.
const SINGLE_PICTURES: [usize; 16] = [1; 16];

/// The units of sound of a group with few packets.
const SINGLE_SOUNDS: [usize; 4] = [1; 4];

/// The stream_type and the stream_id of each stream of sound: AAC, AC-3, MPEG-1 and MPEG-2 audio.
const SOUND_KINDS: [(u8, u8); 7] = [
    (0x0F, 0xC0),
    (0x81, 0xBD),
    (0x03, 0xC1),
    (0x04, 0xC2),
    (0x0F, 0xC3),
    (0x81, 0xBD),
    (0x03, 0xC4),
];

/// A stream of a program.
#[derive(Clone, Copy, Debug)]
pub struct Stream {
    /// The place of its program.
    pub program: usize,
    /// Its stream_type in the map.
    pub kind: u8,
    /// The stream_id of its units.
    pub id: u8,
    pub pid: u16,
    /// How many ticks there are from one unit to the next.
    pub ticks: u64,
    /// How many packets each unit of a group has.
    pub sizes: &'static [usize],
    /// Whether it is video, whose unit starts have the clock reference.
    pub is_video: bool,
}

/// A group of packets that a network repeats.
#[derive(Debug, Drop)]
pub struct Plan {
    /// How many ticks a group lasts.
    pub ticks: u64,
    pub programs: usize,
    /// The streams of all programs, in the order of their maps.
    pub streams: Vec<Stream>,
    /// How many null packets a group has.
    pub nulls: usize,
    /// Whether each packet has stuffing, each sixteenth is doubled, each tenth unit has no stamp, and tables come with each tenth packet.
    pub is_awkward: bool,
}

/// The number in sixteen bits.
fn short(number: usize) -> u16 {
    u16::try_from(number).unwrap_or(0)
}

/// The PID of this program's map.
pub fn map_pid(program: usize) -> u16 {
    FIRST_PID.wrapping_add(PIDS.wrapping_mul(short(program)))
}

/// The number of this program.
pub fn program_number(program: usize) -> u16 {
    short(program).wrapping_add(1)
}

/// The units of a program's streams.
#[derive(Clone, Copy, Debug)]
struct Units {
    picture: u64,
    pictures: &'static [usize],
    sound: u64,
    sounds: &'static [usize],
}

/// Adds a program of one video stream and so many streams of sound.
fn add_program(
    streams: &mut Vec<Stream>,
    program: usize,
    sounds: usize,
    units: Units,
) -> Result<(), AllocError> {
    let mut pid = map_pid(program).wrapping_add(1);
    streams.push(Stream {
        program,
        kind: 0x1B,
        id: 0xE0,
        pid,
        ticks: units.picture,
        sizes: units.pictures,
        is_video: true,
    })?;
    for (kind, id) in SOUND_KINDS.into_iter().take(sounds) {
        pid = pid.wrapping_add(1);
        streams.push(Stream {
            program,
            kind,
            id,
            pid,
            ticks: units.sound,
            sizes: units.sounds,
            is_video: false,
        })?;
    }
    Ok(())
}

impl Plan {
    /// One program of video and seven streams of sound, 0.16 seconds.
    pub fn full(alloc: Global) -> Result<Plan, AllocError> {
        let units = Units {
            picture: PICTURE,
            pictures: &PICTURES,
            sound: SOUND,
            sounds: &SOUNDS,
        };
        Plan::of(alloc, 14_400, 1, 7, units, 12)
    }

    /// Four programs of video and three streams of sound, 0.16 seconds.
    pub fn multiplex(alloc: Global) -> Result<Plan, AllocError> {
        let units = Units {
            picture: PICTURE,
            pictures: &SMALL_PICTURES,
            sound: SOUND,
            sounds: &SMALL_SOUNDS,
        };
        Plan::of(alloc, 14_400, 4, 3, units, 13)
    }

    /// One program of eight streams of small units, 0.16 seconds.
    pub fn awkward(alloc: Global) -> Result<Plan, AllocError> {
        let units = Units {
            picture: 1_440,
            pictures: &SMALL_UNITS,
            sound: 1_440,
            sounds: &SMALL_UNITS,
        };
        let mut plan = Plan::of(alloc, 14_400, 1, 7, units, 3)?;
        plan.is_awkward = true;
        Ok(plan)
    }

    /// One program of video and a stream of sound, whose units come seldom, 1.6 seconds.
    pub fn sparse(alloc: Global) -> Result<Plan, AllocError> {
        let units = Units {
            picture: 9_000,
            pictures: &SINGLE_PICTURES,
            sound: 36_000,
            sounds: &SINGLE_SOUNDS,
        };
        Plan::of(alloc, 144_000, 1, 1, units, 2)
    }

    /// So many programs of these streams.
    fn of(
        alloc: Global,
        ticks: u64,
        programs: usize,
        sounds: usize,
        units: Units,
        nulls: usize,
    ) -> Result<Plan, AllocError> {
        let mut streams = Vec::new(alloc);
        for program in 0..programs {
            add_program(&mut streams, program, sounds, units)?;
        }
        Ok(Plan {
            ticks,
            programs,
            streams,
            nulls,
            is_awkward: false,
        })
    }
}
