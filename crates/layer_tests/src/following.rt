//! The rules of a program, each by small networks whose last packet is told to be this or that.

use crate::networks::Came::*;
use crate::networks::Table::*;
use crate::networks::Told::*;
use crate::networks::*;
use pes_time::Time33;
use program_follower::Purpose;
use psi_tables::NetworkFault::*;
use psi_tables::Stream;
use std::test::*;
use ts_packet::Pid;

/// One switched stream more than there may be.
const NINE: &[(u8, u16)] = &[
    (0x01, 0x100),
    (0x02, 0x101),
    (0x03, 0x102),
    (0x04, 0x103),
    (0x0F, 0x104),
    (0x11, 0x105),
    (0x1B, 0x106),
    (0x24, 0x107),
    (0x81, 0x108),
];

/// One too many, and one of them on PID 0.
const NINE_AND_NONE: &[(u8, u16)] = &[
    (0x01, 0x100),
    (0x02, 0x101),
    (0x03, 0x102),
    (0x04, 0x103),
    (0x0F, 0x104),
    (0x11, 0x105),
    (0x1B, 0x106),
    (0x24, 0x107),
    (0x81, 0),
];

/// 450,000 ticks before the clock wraps.
const BEFORE: Came = Unit(0x100, 0, 8_589_484_592);

/// The PAT is the first that applies now and lists the program, and the first of its pairs with the program counts.
const FIRST_PAT: &[Case] = &[
    (
        &[One(Version(NEXT, 0, &[(1, 0x21)])), LISTED, MAPPED, BEGINS],
        Start(0),
    ),
    (
        &[One(Pat(&[(0, 0x21), (2, 0x22)])), LISTED, MAPPED, BEGINS],
        Start(0),
    ),
    (
        &[One(Pat(&[(1, 0x20), (1, 0x21)])), MAPPED, BEGINS],
        Start(0),
    ),
];

const FIRST_PROGRAM: &[Case] = &[
    (
        &[One(Pat(&[(0, 0x21), (1, 0x20), (2, 0x22)])), MAPPED, BEGINS],
        Start(0),
    ),
    (&[One(Pat(&[(2, 0x22), (1, 0x20)])), MAPPED, BEGINS], Other),
];

#[test]
fn first_pat(rt: HostRuntime) -> Result<(), Fail> {
    expect_eq!(rt; went(rt.alloc(), &reader(), FIRST_PAT)?, FIRST_PAT.len());
    expect_eq!(rt;
        went(rt.alloc(), &Purpose::advertisement(), FIRST_PROGRAM)?,
        FIRST_PROGRAM.len()
    );
    Ok(())
}

/// Sections that one packet finishes come in their order, and the first faulty one decides.
const SEVERAL_IN_ONE_PACKET: &[Case] = &[
    (
        &[
            Together(&[Pat(&[(2, 0x22)]), Pat(&[(1, 0x20)])]),
            MAPPED,
            BEGINS,
        ],
        Start(0),
    ),
    (
        &[Together(&[Pat(&[(1, 0x20)]), Pat(&[(1, 0x21)])])],
        Wrong(ProgramChanged),
    ),
    (
        &[Together(&[Pat(&[(1, 0)]), Version(NOW, 1, &[])])],
        Wrong(BadPids),
    ),
    (
        &[Together(&[Version(NOW, 1, &[]), Pat(&[(1, 0)])])],
        Wrong(Sections),
    ),
    (
        &[LISTED, Together(&[Foreign(2, 2, 0), Streams(BOTH)]), BEGINS],
        Start(0),
    ),
    (
        &[LISTED, Together(&[Streams(BOTH), Clock(0x101)])],
        Wrong(ProgramChanged),
    ),
    (
        &[LISTED, Together(&[Clock(0), Streams(NINE)])],
        Wrong(BadPids),
    ),
    (
        &[LISTED, Together(&[Streams(NINE), Clock(0)])],
        Wrong(TooManyStreams),
    ),
];

#[test]
fn several_in_one_packet(rt: HostRuntime) -> Result<(), Fail> {
    expect_eq!(rt;
        went(rt.alloc(), &reader(), SEVERAL_IN_ONE_PACKET)?,
        SEVERAL_IN_ONE_PACKET.len()
    );
    Ok(())
}

/// A map and behind it one at fault, in one packet, and two units.
const MAP_BEFORE_A_FAULT: &[Came] = &[
    LISTED,
    Together(&[Streams(BOTH), Clock(0x101)]),
    BEGINS,
    Unit(0x100, 1, 10),
];

/// A map that comes before a fault, in one packet, is the program's. The follower of begins, which answers a fault once, follows its streams
/// from the next packet on, whatever PID that has.
#[test]
fn streams_of_a_map_before_a_fault(rt: HostRuntime) -> Result<(), Fail> {
    let (network, told) = follow(rt.alloc(), &reader(), &MAP_BEFORE_A_FAULT[..2])?;
    expect_eq!(rt; told, Wrong(ProgramChanged));
    expect_eq!(rt; network.starts.high(), None);
    let (network, _) = follow(rt.alloc(), &reader(), &MAP_BEFORE_A_FAULT[..3])?;
    expect_eq!(rt; network.starts.high(), None);
    let (network, _) = follow(rt.alloc(), &reader(), MAP_BEFORE_A_FAULT)?;
    expect_eq!(rt; network.starts.high(), Time33::new(10));
    Ok(())
}

/// A map comes again and again, and another of the same length, which is at fault, behind it.
const MAPS_THAT_COME_AGAIN: &[Case] = &[
    (&[LISTED, MAPPED, MAPPED, MAPPED, BEGINS], Start(0)),
    (
        &[LISTED, MAPPED, MAPPED, MAPPED, One(Clock(0x101))],
        Wrong(ProgramChanged),
    ),
];

const FAULT_THAT_COMES_AGAIN: &[Came] = &[
    LISTED,
    MAPPED,
    MAPPED,
    One(Clock(0x101)),
    One(Clock(0x101)),
    MAPPED,
];

/// The map of the program stays it each time that it comes. One at fault is at fault each time, also to the follower of begins that is fed on
/// behind it, to which the map before it is the program's still.
#[test]
fn maps_that_come_again(rt: HostRuntime) -> Result<(), Fail> {
    expect_eq!(rt;
        went(rt.alloc(), &reader(), MAPS_THAT_COME_AGAIN)?,
        MAPS_THAT_COME_AGAIN.len()
    );
    let (network, _) = follow(rt.alloc(), &reader(), &FAULT_THAT_COMES_AGAIN[..4])?;
    expect_eq!(rt; network.fault, Some(ProgramChanged));
    let (network, _) = follow(rt.alloc(), &reader(), &FAULT_THAT_COMES_AGAIN[..5])?;
    expect_eq!(rt; network.fault, Some(ProgramChanged));
    let (network, _) = follow(rt.alloc(), &reader(), FAULT_THAT_COMES_AGAIN)?;
    expect_eq!(rt; network.fault, None);
    Ok(())
}

/// A PAT that applies now stands in one section, also before the one that lists the program and behind it.
const PAT_OF_SEVERAL_SECTIONS: &[Case] = &[
    (&[One(Version(NOW, 1, &[(2, 0x22)]))], Wrong(Sections)),
    (
        &[LISTED, MAPPED, One(Version(NOW, 1, &[(1, 0x20)]))],
        Wrong(Sections),
    ),
    (
        &[One(Version(NEXT, 1, &[(1, 0x21)])), LISTED, MAPPED, BEGINS],
        Start(0),
    ),
];

#[test]
fn pat_of_several_sections(rt: HostRuntime) -> Result<(), Fail> {
    expect_eq!(rt;
        went(rt.alloc(), &reader(), PAT_OF_SEVERAL_SECTIONS)?,
        PAT_OF_SEVERAL_SECTIONS.len()
    );
    Ok(())
}

/// A later PAT that moves the program or lists it no more changes it; one that repeats it, or does not apply now, is nothing.
const MOVED_PROGRAM: &[Case] = &[
    (&[LISTED, One(Pat(&[(1, 0x21)]))], Wrong(ProgramChanged)),
    (
        &[LISTED, MAPPED, One(Pat(&[(2, 0x20)]))],
        Wrong(ProgramChanged),
    ),
    (
        &[
            LISTED,
            MAPPED,
            One(Version(0xC3, 0, &[(2, 0x22), (1, 0x20)])),
            BEGINS,
        ],
        Start(0),
    ),
    (
        &[LISTED, MAPPED, One(Version(NEXT, 0, &[(1, 0x21)])), BEGINS],
        Start(0),
    ),
];

#[test]
fn moved_program(rt: HostRuntime) -> Result<(), Fail> {
    expect_eq!(rt;
        went(rt.alloc(), &reader(), MOVED_PROGRAM)?,
        MOVED_PROGRAM.len()
    );
    Ok(())
}

/// PIDs that a program may not have: 0 and that of null packets for the map; 0 and the map's for a stream and the clock; that of
/// null packets for a switched stream, or one that stands twice, with whatever type.
const BAD_PIDS: &[Case] = &[
    (&[One(Pat(&[(1, 0)]))], Wrong(BadPids)),
    (&[One(Pat(&[(1, 0x1FFF)]))], Wrong(BadPids)),
    (&[LISTED, One(Clock(0))], Wrong(BadPids)),
    (&[LISTED, One(Clock(0x20))], Wrong(BadPids)),
    (&[LISTED, One(Clock(0x1FFF))], OnMap),
    (&[LISTED, One(Streams(&[(6, 0)]))], Wrong(BadPids)),
    (&[LISTED, One(Streams(&[(6, 0x20)]))], Wrong(BadPids)),
    (&[LISTED, One(Streams(&[(6, 0x1FFF)]))], OnMap),
    (&[LISTED, One(Streams(&[(0x1B, 0x1FFF)]))], Wrong(BadPids)),
    (
        &[LISTED, One(Streams(&[(0x1B, 0x100), (0x0F, 0x100)]))],
        Wrong(BadPids),
    ),
    (
        &[LISTED, One(Streams(&[(0x1B, 0x100), (6, 0x100)]))],
        Wrong(BadPids),
    ),
    (
        &[LISTED, One(Streams(&[(6, 0x100), (0x1B, 0x100)]))],
        Wrong(BadPids),
    ),
    (&[LISTED, One(Streams(&[(6, 0x102), (6, 0x102)]))], OnMap),
];

#[test]
fn bad_pids(rt: HostRuntime) -> Result<(), Fail> {
    expect_eq!(rt; went(rt.alloc(), &reader(), BAD_PIDS)?, BAD_PIDS.len());
    Ok(())
}

/// The PID of cues is neither the map's nor the clock's nor a switched stream's. Where cues are to be put on it, no entry has it,
/// and no packet of the network, from the first one on, but those marked in error.
const USED_BY_WRITERS: &[Case] = &[
    (&[Bytes(&[0x47, 0x01, 0xF0, 0x10])], Wrong(CuePidUsed)),
    (&[Bytes(&[0x47, 0x81, 0xF0, 0x10])], Marked),
    (&[One(Pat(&[(1, 0x1F0)]))], Wrong(CuePidUsed)),
    (&[LISTED, One(Clock(0x1F0))], Wrong(CuePidUsed)),
    (&[LISTED, One(Streams(&[(0x0F, 0x1F0)]))], Wrong(CuePidUsed)),
    (&[LISTED, One(Streams(&[(0x86, 0x1F0)]))], Wrong(CuePidUsed)),
];

const USED_BY_READERS: &[Case] = &[
    (&[Bytes(&[0x47, 0x01, 0xF0, 0x10])], Cue),
    (&[Bytes(&[0x47, 0x81, 0xF0, 0x10])], Marked),
    (&[One(Pat(&[(1, 0x1F0)]))], Wrong(CuePidUsed)),
    (&[LISTED, One(Clock(0x1F0))], Wrong(CuePidUsed)),
    (&[LISTED, One(Streams(&[(0x0F, 0x1F0)]))], Wrong(CuePidUsed)),
    (&[LISTED, One(Streams(&[(0x86, 0x1F0)]))], OnMap),
];

const USED_BY_NONE: &[Case] = &[
    (&[Bytes(&[0x47, 0x01, 0xF0, 0x10])], Other),
    (&[One(Pat(&[(1, 0x1F0)]))], Other),
    (&[LISTED, One(Clock(0x1F0))], OnMap),
    (&[LISTED, One(Streams(&[(0x0F, 0x1F0)]))], OnMap),
];

#[test]
fn used_cue_pid(rt: HostRuntime) -> Result<(), Fail> {
    expect_eq!(rt;
        went(rt.alloc(), &writer(), USED_BY_WRITERS)?,
        USED_BY_WRITERS.len()
    );
    expect_eq!(rt;
        went(rt.alloc(), &reader(), USED_BY_READERS)?,
        USED_BY_READERS.len()
    );
    expect_eq!(rt;
        went(rt.alloc(), &Purpose::advertisement(), USED_BY_NONE)?,
        USED_BY_NONE.len()
    );
    Ok(())
}

/// What is wrong with one map is told in this order: TooManyStreams, BadPids, CuePidUsed, ProgramChanged, PmtTooLong.
const ORDER_OF_FAULTS: &[Case] = &[
    (
        &[LISTED, MAPPED, One(Streams(NINE_AND_NONE))],
        Wrong(TooManyStreams),
    ),
    (
        &[LISTED, MAPPED, One(Streams(&[(0x0F, 0x1F0), (6, 0)]))],
        Wrong(BadPids),
    ),
    (&[LISTED, MAPPED, One(Clock(0x1F0))], Wrong(CuePidUsed)),
    (
        &[LISTED, MAPPED, One(Descriptors(497))],
        Wrong(ProgramChanged),
    ),
    (&[LISTED, One(Descriptors(497))], Wrong(PmtTooLong)),
    (&[LISTED, One(Descriptors(496))], OnMap),
];

const ROOM_OF_READERS: &[Case] = &[(&[LISTED, One(Descriptors(497))], OnMap)];

#[test]
fn order_of_faults(rt: HostRuntime) -> Result<(), Fail> {
    expect_eq!(rt;
        went(rt.alloc(), &writer(), ORDER_OF_FAULTS)?,
        ORDER_OF_FAULTS.len()
    );
    expect_eq!(rt;
        went(rt.alloc(), &reader(), ROOM_OF_READERS)?,
        ROOM_OF_READERS.len()
    );
    Ok(())
}

/// A later map with the switched streams in another order, or with another clock, changes the program; another version, other
/// descriptors and other streams that are not switched do not.
const CHANGED_MAP: &[Case] = &[
    (
        &[
            LISTED,
            MAPPED,
            One(Streams(&[(0x0F, 0x101), (0x1B, 0x100)])),
        ],
        Wrong(ProgramChanged),
    ),
    (
        &[
            LISTED,
            MAPPED,
            One(Streams(&[(0x24, 0x100), (0x0F, 0x101)])),
        ],
        Wrong(ProgramChanged),
    ),
    (
        &[LISTED, MAPPED, One(Streams(VIDEO))],
        Wrong(ProgramChanged),
    ),
    (
        &[LISTED, One(Streams(VIDEO)), MAPPED],
        Wrong(ProgramChanged),
    ),
    (&[LISTED, MAPPED, One(Clock(0x101))], Wrong(ProgramChanged)),
    (
        &[LISTED, MAPPED, One(Numbers(0xC3, 0, 0, 0x100)), BEGINS],
        Start(0),
    ),
    (
        &[LISTED, One(Descriptors(2)), One(Streams(VIDEO)), BEGINS],
        Start(0),
    ),
    (
        &[
            LISTED,
            One(Streams(VIDEO)),
            One(Streams(&[(6, 0x102), (0x1B, 0x100)])),
            BEGINS,
        ],
        Start(0),
    ),
];

#[test]
fn changed_map(rt: HostRuntime) -> Result<(), Fail> {
    expect_eq!(rt;
        went(rt.alloc(), &reader(), CHANGED_MAP)?,
        CHANGED_MAP.len()
    );
    Ok(())
}

/// The map is read behind the PAT alone. Other sections on its PID pass: other tables, maps of other programs, maps that do not
/// apply now or stand in several sections.
const MAPS_THAT_PASS: &[Case] = &[
    (&[MAPPED, LISTED, BEGINS], Other),
    (&[LISTED, One(Foreign(0x40, 1, 0)), BEGINS], Other),
    (&[LISTED, One(Foreign(2, 2, 0)), BEGINS], Other),
    (&[LISTED, One(Numbers(NEXT, 0, 0, 0)), BEGINS], Other),
    (&[LISTED, One(Numbers(NOW, 0, 1, 0)), BEGINS], Other),
    (&[LISTED, One(Numbers(NOW, 1, 0, 0)), BEGINS], Other),
    (
        &[
            LISTED,
            MAPPED,
            Together(&[Foreign(0x40, 1, 0), Foreign(2, 2, 0)]),
            BEGINS,
        ],
        Start(0),
    ),
];

#[test]
fn maps_that_pass(rt: HostRuntime) -> Result<(), Fail> {
    expect_eq!(rt;
        went(rt.alloc(), &reader(), MAPS_THAT_PASS)?,
        MAPS_THAT_PASS.len()
    );
    Ok(())
}

/// A recording can begin inside sections and units: what goes on from before belongs to none. In the head a packet is of no stream, and
/// behind it those before the stream's first unit lead.
const BEGINS_MIDWAY: &[Case] = &[
    (
        &[Bytes(&[0x47, 0x00, 0x00, 0x15]), LISTED, MAPPED, BEGINS],
        Start(0),
    ),
    (
        &[LISTED, Bytes(&[0x47, 0x00, 0x20, 0x17]), MAPPED, BEGINS],
        Start(0),
    ),
    (&[LISTED, BEGINS], Other),
    (&[LISTED, MAPPED, Bytes(&[0x47, 0x01, 0x00, 0x16])], Lead(0)),
    (
        &[LISTED, BEGINS, MAPPED, Bytes(&[0x47, 0x01, 0x00, 0x11])],
        Lead(0),
    ),
    (
        &[LISTED, MAPPED, BEGINS, Bytes(&[0x47, 0x01, 0x00, 0x11])],
        More(0),
    ),
    (
        &[
            LISTED,
            MAPPED,
            BEGINS,
            Bytes(&[0x47, 0x01, 0x00, 0x20, 183]),
        ],
        NoPayload(0),
    ),
    (
        &[LISTED, MAPPED, BEGINS, Bytes(&[0x47, 0x1F, 0xFF, 0x11])],
        Other,
    ),
];

#[test]
fn begins_midway(rt: HostRuntime) -> Result<(), Fail> {
    expect_eq!(rt;
        went(rt.alloc(), &reader(), BEGINS_MIDWAY)?,
        BEGINS_MIDWAY.len()
    );
    Ok(())
}

/// PAT and map can stand behind an adaptation field.
const STUFFED_TABLES: &[Case] = &[(
    &[Stuffed(Pat(&[(1, 0x20)])), Stuffed(Streams(BOTH)), BEGINS],
    Start(0),
)];

#[test]
fn stuffed_tables(rt: HostRuntime) -> Result<(), Fail> {
    expect_eq!(rt;
        went(rt.alloc(), &reader(), STUFFED_TABLES)?,
        STUFFED_TABLES.len()
    );
    Ok(())
}

/// A packet with counter, unit start and payload of the payload packet before it repeats that one, where that one repeats none.
/// The first one of a switched PID behind the head, and of the map's PID behind the PAT, repeats none.
const REPEATS: &[Case] = &[
    (&[LISTED, MAPPED, BEGINS, BEGINS], Repeat(0)),
    (&[LISTED, MAPPED, BEGINS, BEGINS, BEGINS], Start(0)),
    (
        &[
            LISTED,
            MAPPED,
            BEGINS,
            Bytes(&[0x47, 0x81, 0x00, 0x10]),
            BEGINS,
        ],
        Repeat(0),
    ),
    (
        &[
            LISTED,
            MAPPED,
            BEGINS,
            Bytes(&[0x47, 0x01, 0x00, 0x11]),
            Bytes(&[0x47, 0x01, 0x00, 0x11]),
        ],
        Repeat(0),
    ),
    (&[LISTED, BEGINS, MAPPED, BEGINS], Start(0)),
    (
        &[Counter(5), MAPPED, LISTED, Counter(5), MAPPED, BEGINS],
        Start(0),
    ),
    (
        &[LISTED, Counter(5), MAPPED, Counter(5), MAPPED, BEGINS],
        Start(0),
    ),
];

#[test]
fn repeats(rt: HostRuntime) -> Result<(), Fail> {
    expect_eq!(rt; went(rt.alloc(), &reader(), REPEATS)?, REPEATS.len());
    Ok(())
}

/// What is wrong with a packet of a switched stream behind the head: it is scrambled, whatever payload packet it is; else, at the start
/// of a unit, its PES header is split. In the head nothing is wrong with it.
const SCRAMBLED_AND_SPLIT: &[Case] = &[
    (
        &[LISTED, MAPPED, Bytes(&[0x47, 0x41, 0x00, 0x90])],
        Wrong(Scrambled),
    ),
    (
        &[LISTED, MAPPED, BEGINS, Bytes(&[0x47, 0x01, 0x00, 0x51])],
        Wrong(Scrambled),
    ),
    (
        &[LISTED, MAPPED, Bytes(&[0x47, 0x01, 0x00, 0xD1])],
        Wrong(Scrambled),
    ),
    (
        &[
            LISTED,
            MAPPED,
            Bytes(&[0x47, 0x01, 0x00, 0x11]),
            Bytes(&[0x47, 0x01, 0x00, 0xD1]),
        ],
        Wrong(Scrambled),
    ),
    (
        &[LISTED, MAPPED, Bytes(&[0x47, 0x01, 0x00, 0xE1, 183])],
        NoPayload(0),
    ),
    (&[LISTED, MAPPED, Bytes(&[0x47, 0x01, 0x02, 0xD1])], Other),
    (
        &[LISTED, MAPPED, Short(0x100, 0, &[0, 0, 1, 0xE0])],
        Wrong(HeaderSplit),
    ),
    (
        &[LISTED, MAPPED, Short(0x100, 0x80, &[0, 0, 1, 0xE0])],
        Wrong(Scrambled),
    ),
    (
        &[
            LISTED,
            MAPPED,
            Unit(0x100, 0, 1_000_000),
            Unit(0x101, 0xC0, 1_900_001),
        ],
        Wrong(Scrambled),
    ),
    (&[LISTED, MAPPED, Short(0x100, 0, &[0, 0, 2])], Start(0)),
    (
        &[
            LISTED,
            Bytes(&[0x47, 0x01, 0x00, 0xD1]),
            Short(0x100, 0, &[0, 0, 1, 0xE0]),
            MAPPED,
        ],
        OnMap,
    ),
    (
        &[
            LISTED,
            Unit(0x100, 1, 9),
            Unit(0x101, 1, 4_000_000),
            MAPPED,
            BEGINS,
        ],
        Start(0),
    ),
];

#[test]
fn scrambled_and_split(rt: HostRuntime) -> Result<(), Fail> {
    expect_eq!(rt;
        went(rt.alloc(), &reader(), SCRAMBLED_AND_SPLIT)?,
        SCRAMBLED_AND_SPLIT.len()
    );
    Ok(())
}

/// A unit lies at most 900,000 ticks from the greatest time of all streams, before or after it, also where the clock has wrapped.
const TIME_JUMPS: &[Case] = &[
    (
        &[
            LISTED,
            MAPPED,
            Unit(0x100, 0, 1_000_000),
            Unit(0x101, 0, 1_900_000),
        ],
        Start(1),
    ),
    (
        &[
            LISTED,
            MAPPED,
            Unit(0x100, 0, 1_000_000),
            Unit(0x101, 0, 1_900_001),
        ],
        Wrong(TimeJump),
    ),
    (
        &[
            LISTED,
            MAPPED,
            Unit(0x100, 0, 1_000_000),
            Unit(0x101, 0, 100_000),
        ],
        Start(1),
    ),
    (
        &[
            LISTED,
            MAPPED,
            Unit(0x100, 0, 1_000_000),
            Unit(0x101, 0, 99_999),
        ],
        Wrong(TimeJump),
    ),
    (
        &[
            LISTED,
            MAPPED,
            Unit(0x100, 0, 1_000_000),
            Unit(0x100, 1, 100_000),
            Unit(0x100, 2, 1_900_000),
        ],
        Start(0),
    ),
    (&[LISTED, MAPPED, BEFORE, Unit(0x101, 0, 450_000)], Start(1)),
    (
        &[LISTED, MAPPED, BEFORE, Unit(0x101, 0, 450_001)],
        Wrong(TimeJump),
    ),
    (&[LISTED, MAPPED, Unit(0x101, 0, 450_000), BEFORE], Start(0)),
];

#[test]
fn time_jumps(rt: HostRuntime) -> Result<(), Fail> {
    expect_eq!(rt; went(rt.alloc(), &reader(), TIME_JUMPS)?, TIME_JUMPS.len());
    Ok(())
}

/// Once a fault is answered, the follower is spent.
const SPENT: &[Case] = &[
    (&[Bytes(&[0x47, 0x01, 0xF0, 0x10]), LISTED], Failed),
    (
        &[LISTED, MAPPED, Short(0x100, 0, &[0, 0, 1, 0xE0]), BEGINS],
        Failed,
    ),
    (
        &[
            LISTED,
            One(Pat(&[(1, 0x21)])),
            Bytes(&[0x47, 0x9F, 0xFF, 0x11]),
        ],
        Failed,
    ),
];

#[test]
fn spent(rt: HostRuntime) -> Result<(), Fail> {
    expect_eq!(rt; went(rt.alloc(), &writer(), SPENT)?, SPENT.len());
    Ok(())
}

/// What is known of the program behind the head.
#[test]
fn what_is_known(rt: HostRuntime) -> Result<(), Fail> {
    const SOUND: Came = Unit(0x101, 0, 90_000);
    let (network, _) = follow(rt.alloc(), &reader(), &[LISTED])?;
    expect_eq!(rt; network.follower.is_behind_head(), false);
    expect_eq!(rt; network.follower.streams().len(), 0);
    expect_eq!(rt; network.follower.pcr_pid(), None);
    let (network, _) = follow(rt.alloc(), &reader(), &[LISTED, MAPPED, SOUND])?;
    let listed = network.follower.listed().ok_or("the PAT")?;
    expect_eq!(rt; (listed.program, listed.pid.get()), (1, 0x20));
    expect_eq!(rt; network.follower.is_behind_head(), true);
    expect_eq!(rt; network.follower.pcr_pid(), Pid::new(0x100));
    let video = Stream {
        kind: 0x1B,
        pid: Pid::new(0x100).ok_or("a PID")?,
    };
    expect_eq!(rt; network.follower.streams().first(), Some(&video));
    expect_eq!(rt; network.follower.high(), Time33::new(90_000));
    Ok(())
}

/// The sections that a packet finishes on the map's PID are lent, the program's map as such.
#[test]
fn lent_tables(rt: HostRuntime) -> Result<(), Fail> {
    const TWO: Came = Together(&[Foreign(2, 2, 0), Streams(BOTH)]);
    let (network, _) = follow(rt.alloc(), &reader(), &[LISTED, TWO])?;
    let mut tables = network.follower.tables();
    expect_eq!(rt; tables.next().ok_or("a section")?.map.is_none(), true);
    expect_eq!(rt; tables.next().ok_or("a section")?.map.is_some(), true);
    expect_eq!(rt; tables.next().is_none(), true);
    Ok(())
}

/// A stream is silent while another goes on for more than a turn of the clock, and begins again at the time that is then.
#[test]
fn silent_through_a_wrap(rt: HostRuntime) -> Result<(), Fail> {
    const SOUND: Came = Unit(0x101, 0, 600_000);
    let (mut network, _) = follow(rt.alloc(), &reader(), &[LISTED, MAPPED, SOUND])?;
    for k in 0u64..9_600 {
        let pts = (600_000 + k * 900_000) & 0x1_FFFF_FFFF;
        let told = network.feed(&unit(0x100, (k & 15) as u8, pts));
        expect_eq!(rt; told, Start(0));
    }
    // 600,000 + 9,599 * 900,000 - 2^33
    expect_eq!(rt; network.feed(&unit(0x101, 1, 49_765_408)), Start(1));
    expect_eq!(rt; network.feed(&unit(0x101, 2, 600_000)), Wrong(TimeJump));
    Ok(())
}
