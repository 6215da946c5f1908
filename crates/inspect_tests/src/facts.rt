//! What is told of a stream of eight packets, whole and damaged. The facts are worked by hand from its bytes.

use pes_time::Time33;
use psi_tables::NetworkFault;
use std::alloc::{AllocError, Global};
use std::test::Fail;
use stream_facts::{
    Damage, Facts, Inspection, PacketSize, Profile, ProgramFacts, SpliceCommand, StreamFacts,
    StreamFault, Wrong, command_of, descriptors_of, signal_time,
};
use stream_pages::write_page;
use ts_packet::Packet;

/// The map of program 1 is on PID 0x1000.
const PAT: &[u8] = &[
    0x47, 0x40, 0x00, 0x10, 0x00, 0x00, 0xB0, 0x0D, 0x00, 0x01, 0xC1, 0x00, 0x00, 0x00, 0x01, 0xF0,
    0x00, 0x2A, 0xB1, 0x04, 0xB2,
];

/// Its clock and H.264 video are on PID 0x101, AAC sound in German on 0x102, and cues on 0x1F0.
const MAP: &[u8] = &[
    0x47, 0x50, 0x00, 0x10, 0x00, 0x02, 0xB0, 0x22, 0x00, 0x01, 0xC1, 0x00, 0x00, 0xE1, 0x01, 0xF0,
    0x00, 0x1B, 0xE1, 0x01, 0xF0, 0x00, 0x0F, 0xE1, 0x02, 0xF0, 0x06, 0x0A, 0x04, 0x64, 0x65, 0x75,
    0x00, 0x86, 0xE1, 0xF0, 0xF0, 0x00, 0xBC, 0x6C, 0x0D, 0xBB,
];

/// A map with H.264 video on PID 0x101, and as DVB lists them AC-3 in German on 0x102, E-AC-3 on 0x103 and subtitles on 0x104; on 0x105 is
/// AC-3 as ATSC lists it, with the descriptor of DVB.
const PRIVATE_MAP: &[u8] = &[
    0x47, 0x50, 0x00, 0x10, 0x00, 0x02, 0xB0, 0x3F, 0x00, 0x01, 0xC1, 0x00, 0x00, 0xE1, 0x01, 0xF0,
    0x00, 0x1B, 0xE1, 0x01, 0xF0, 0x00, 0x06, 0xE1, 0x02, 0xF0, 0x09, 0x0A, 0x04, 0x64, 0x65, 0x75,
    0x00, 0x6A, 0x01, 0x00, 0x06, 0xE1, 0x03, 0xF0, 0x03, 0x7A, 0x01, 0x00, 0x06, 0xE1, 0x04, 0xF0,
    0x0A, 0x59, 0x08, 0x64, 0x65, 0x75, 0x10, 0x00, 0x01, 0x00, 0x01, 0x81, 0xE1, 0x05, 0xF0, 0x03,
    0x6A, 0x01, 0x00, 0x83, 0xB7, 0xA8, 0x66,
];

/// A picture of the time stamp 108,000 with a random_access_indicator, and the clock reference of one second.
const MARKED: &[u8] = &[
    0x47, 0x41, 0x01, 0x30, 0x07, 0x50, 0x00, 0x00, 0xAF, 0xC8, 0x7E, 0x00, 0x00, 0x00, 0x01, 0xE0,
    0x00, 0x00, 0x80, 0x80, 0x05, 0x21, 0x00, 0x07, 0x4B, 0xC1, 0x00, 0x00, 0x01, 0x09, 0xF0,
];

/// The same, scrambled.
const SCRAMBLED: &[u8] = &[
    0x47, 0x41, 0x01, 0xB0, 0x07, 0x50, 0x00, 0x00, 0xAF, 0xC8, 0x7E, 0x00, 0x00, 0x00, 0x01, 0xE0,
    0x00, 0x00, 0x80, 0x80, 0x05, 0x21, 0x00, 0x07, 0x4B, 0xC1, 0x00, 0x00, 0x01, 0x09, 0xF0,
];

/// Sound of the time stamp 109,000.
const SOUND: &[u8] = &[
    0x47, 0x41, 0x02, 0x10, 0x00, 0x00, 0x01, 0xC0, 0x00, 0x00, 0x80, 0x80, 0x05, 0x21, 0x00, 0x07,
    0x53, 0x91,
];

/// A picture of the time stamp 111,600 with no mark: an access unit delimiter alone.
const PICTURE: &[u8] = &[
    0x47, 0x41, 0x01, 0x11, 0x00, 0x00, 0x01, 0xE0, 0x00, 0x00, 0x80, 0x80, 0x05, 0x21, 0x00, 0x07,
    0x67, 0xE1, 0x00, 0x00, 0x01, 0x09, 0xF0,
];

/// The time_signal of ANSI/SCTE 35, 14.1: the time 0x072BD0050, and a segmentation_descriptor.
const CUE: &[u8] = &[
    0x47, 0x41, 0xF0, 0x10, 0x00, 0xFC, 0x30, 0x34, 0x00, 0x00, 0x00, 0x00, 0x00, 0x00, 0xFF, 0xFF,
    0xF0, 0x05, 0x06, 0xFE, 0x72, 0xBD, 0x00, 0x50, 0x00, 0x1E, 0x02, 0x1C, 0x43, 0x55, 0x45, 0x49,
    0x48, 0x00, 0x00, 0x8E, 0x7F, 0xCF, 0x00, 0x01, 0xA5, 0x99, 0xB0, 0x08, 0x08, 0x00, 0x00, 0x00,
    0x00, 0x2C, 0xA0, 0xA1, 0x8A, 0x34, 0x02, 0x00, 0x9A, 0xC9, 0xD1, 0x7E,
];

/// A null packet.
const NULL: &[u8] = &[0x47, 0x1F, 0xFF, 0x10];

/// A picture of the time stamp 115,200 with a sequence parameter set, and the clock reference of 1.08 seconds.
const ENTRY: &[u8] = &[
    0x47, 0x41, 0x01, 0x32, 0x07, 0x10, 0x00, 0x00, 0xBD, 0xD8, 0x7E, 0x00, 0x00, 0x00, 0x01, 0xE0,
    0x00, 0x00, 0x80, 0x80, 0x05, 0x21, 0x00, 0x07, 0x84, 0x01, 0x00, 0x00, 0x00, 0x01, 0x67,
];

/// The fronts of the packets; what is behind them is 0xFF.
const STREAM: &[&[u8]] = &[PAT, MAP, MARKED, SOUND, PICTURE, CUE, NULL, ENTRY];

/// What is inspected.
#[derive(Clone, Copy)]
struct Shown<'a> {
    /// The program that alone is told, or all.
    wanted: Option<u16>,
    fronts: &'a [&'a [u8]],
    /// The damage at the packet of this number and at all behind it.
    hurt: (usize, Damage),
    /// That of the whole stream.
    whole: Damage,
    size: PacketSize,
}

/// The stream without damage.
fn sound(wanted: Option<u16>) -> Shown<'static> {
    Shown {
        wanted,
        fronts: STREAM,
        hurt: (0, damage(0, 0)),
        whole: damage(0, 0),
        size: PacketSize::Plain,
    }
}

/// So many bytes in no packet, and so many packets that do not fit.
fn damage(skipped: u64, mended: u64) -> Damage {
    Damage { skipped, mended }
}

/// The packet that begins with these bytes; the others are 0xFF.
fn packet(front: &[u8]) -> Packet {
    let mut bytes = [0xFF; 188];
    let count = front.len().min(188);
    bytes[..count].copy_from_slice(&front[..count]);
    Packet::from_bytes(&bytes).unwrap_or(Packet::null())
}

/// What is known of it.
fn facts_of(alloc: Global, shown: Shown<'_>) -> Result<Facts, AllocError> {
    let mut inspection = Inspection::new(alloc, shown.wanted)?;
    let (from, hurt) = shown.hurt;
    for (place, front) in shown.fronts.iter().enumerate() {
        let damage = if place < from { damage(0, 0) } else { hurt };
        inspection.feed(&packet(front), damage)?;
    }
    inspection.finish(shown.size, shown.whole)
}

/// Whether the chain takes it.
fn profile_of(alloc: Global, shown: Shown<'_>) -> Result<Profile, AllocError> {
    Ok(facts_of(alloc, shown)?.profile)
}

/// The counts, the rates and the free PIDs, as text.
fn counts_text(alloc: Global, facts: &Facts) -> Result<String, AllocError> {
    let packets = facts.packets;
    let nulls = facts.null_packets;
    let rate = facts.bit_rate;
    let of_all = facts.file_bit_rate;
    let mut text = format!(in alloc;
        "packets {packets} nulls {nulls} rates {rate:?} {of_all:?} free"
    )?;
    for pid in &facts.free_pids {
        let number = pid.get();
        text.push_str(&format!(in alloc; " {number}")?)?;
    }
    Ok(text)
}

/// A time stamp.
fn ticks(pts: Option<Time33>) -> Option<u64> {
    match pts {
        None => None,
        Some(pts) => Some(pts.ticks()),
    }
}

/// A stream, as text.
fn stream_text(alloc: Global, stream: &StreamFacts) -> Result<String, AllocError> {
    let pid = stream.pid.get();
    let kind = stream.stream_type;
    let switched = stream.switched;
    let language = stream.language;
    let units = stream.units;
    let first = ticks(stream.first_pts);
    let last = ticks(stream.last_pts);
    let mut text = format!(in alloc;
        "; {pid} {kind} {switched} {language:?} {units} {first:?} {last:?}"
    )?;
    for point in &stream.points {
        let packet = point.packet;
        let pts = ticks(point.pts);
        let by = point.by;
        text.push_str(&format!(in alloc; " {packet} {pts:?} {by:?}")?)?;
    }
    Ok(text)
}

/// A program, as text.
fn program_text(alloc: Global, program: &ProgramFacts) -> Result<String, AllocError> {
    let number = program.number;
    let map = program.pmt_pid.get();
    let clock = match program.pcr_pid {
        None => 0,
        Some(pid) => pid.get(),
    };
    let mut text = format!(in alloc; "program {number} {map} {clock}")?;
    for stream in &program.streams {
        text.push_str(&stream_text(alloc, stream)?)?;
    }
    Ok(text)
}

/// All programs, as text.
fn programs_text(alloc: Global, facts: &Facts) -> Result<String, AllocError> {
    let mut text = String::new(alloc);
    for program in &facts.programs {
        text.push_str(&program_text(alloc, program)?)?;
    }
    Ok(text)
}

/// Five packets from one clock reference to the next in 0.08 seconds: 94,000 bits a second, and of all eight 150,400.
#[test]
fn counts_and_rates(rt: HostRuntime) -> Result<(), Fail> {
    let alloc = rt.alloc();
    let facts = facts_of(alloc, sound(None))?;
    let text = counts_text(alloc, &facts)?;
    assert_eq!(rt;
        text.as_str(),
        "packets 8 nulls 1 rates Some(94000) Some(150400) free 256 259 260"
    );
    Ok(())
}

/// On the PID of the cues one unit begins by its payload_unit_start_indicator: a section, which has no time stamp.
#[test]
fn streams_and_their_random_access_points(rt: HostRuntime) -> Result<(), Fail> {
    let alloc = rt.alloc();
    let facts = facts_of(alloc, sound(Some(1)))?;
    let text = programs_text(alloc, &facts)?;
    assert_eq!(rt;
        text.as_str(),
        "program 1 4096 257; 257 27 true None 3 Some(108000) Some(115200) 2 Some(108000) Indicator 7 Some(115200) AvcParameterSet; 258 15 true \
        Some([100, 101, 117]) 1 Some(109000) Some(109000); 496 134 false None 1 None None"
    );
    Ok(())
}

/// The page of it: the sound on PID 0x102 has a time stamp, and so goes on through a break.
const PRIVATE_PAGE: &str = "packets: 3 of 188 bytes
skipped bytes: 0, packets taken as damaged: 0
null packets: 0 (0.000 %)
bit rate by PCR: unknown
program 1: PMT PID 4096 (0x1000), PCR PID 257 (0x0101)
  PID 257 (0x0101): stream_type 0x1b, H.264 video; switched; units: 0; random access points: 0
  PID 258 (0x0102): stream_type 0x06, AC-3 audio, language deu; not switched: it goes on through a break; units: 1; time stamps: 109000 to 109000, 0.000 s; random access points: 0
  PID 259 (0x0103): stream_type 0x06, E-AC-3 audio; not switched; units: 0; random access points: 0
  PID 260 (0x0104): stream_type 0x06, private data; not switched; units: 0; random access points: 0
  PID 261 (0x0105): stream_type 0x81, AC-3 audio; switched; units: 0; random access points: 0
cues: none
PIDs free for cues: 256 (0x0100) 262 (0x0106) 263 (0x0107)
profile: yes
";

#[test]
fn sound_that_is_listed_as_private_data(rt: HostRuntime) -> Result<(), Fail> {
    let alloc = rt.alloc();
    let shown = Shown {
        fronts: &[PAT, PRIVATE_MAP, SOUND],
        ..sound(None)
    };
    let facts = facts_of(alloc, shown)?;
    let mut page = Vec::new(alloc);
    write_page(alloc, &mut page, &facts, false)?;
    assert!(rt; page.as_slice() == PRIVATE_PAGE.as_bytes());
    Ok(())
}

#[test]
fn cue_of_the_standard(rt: HostRuntime) -> Result<(), Fail> {
    let alloc = rt.alloc();
    let facts = facts_of(alloc, sound(None))?;
    assert_eq!(rt; facts.cues.len(), 1);
    for cue in &facts.cues {
        assert_eq!(rt; cue.packet, 5);
        assert_eq!(rt; cue.pid.get(), 496);
        let section = cue.section.as_slice();
        assert_eq!(rt; section, &CUE[5..]);
        assert_eq!(rt; command_of(section), Some(SpliceCommand::TimeSignal));
        assert_eq!(rt; ticks(signal_time(section)), Some(0x0_72BD_0050));
        for descriptor in descriptors_of(alloc, section)? {
            assert_eq!(rt; descriptor.tag, 2);
            assert!(rt; descriptor.is_standard);
        }
    }
    Ok(())
}

/// Of a program that the stream does not list nothing is told; the PIDs of the one that it lists are not free all the same.
#[test]
fn program_that_is_not_there(rt: HostRuntime) -> Result<(), Fail> {
    let alloc = rt.alloc();
    let facts = facts_of(alloc, sound(Some(2)))?;
    let text = counts_text(alloc, &facts)?;
    assert_eq!(rt;
        text.as_str(),
        "packets 8 nulls 1 rates None None free 256 259 260"
    );
    assert!(rt; facts.programs.is_empty());
    assert!(rt; facts.cues.is_empty());
    assert_eq!(rt; facts.profile, Profile::NoProgram);
    Ok(())
}

/// What is wrong with a stream, and how many packets stand before it.
#[test]
fn first_thing_that_is_wrong(rt: HostRuntime) -> Result<(), Fail> {
    let alloc = rt.alloc();
    let whole = sound(None);
    assert_eq!(rt; profile_of(alloc, whole)?, Profile::Taken);
    let faulty = [
        // Five bytes in no packet before packet 4; an adaptation field that does not fit in packet 3; both.
        (
            Shown {
                hurt: (4, damage(5, 0)),
                whole: damage(5, 0),
                ..whole
            },
            Wrong::SyncLost,
            4,
        ),
        (
            Shown {
                hurt: (3, damage(0, 1)),
                whole: damage(0, 1),
                ..whole
            },
            Wrong::BadAdaptation,
            3,
        ),
        (
            Shown {
                hurt: (3, damage(9, 1)),
                whole: damage(9, 1),
                ..whole
            },
            Wrong::SyncLost,
            3,
        ),
        // Behind the last packet a part of one, or as many bytes as one has.
        (
            Shown {
                whole: damage(187, 0),
                ..whole
            },
            Wrong::Truncated,
            8,
        ),
        (
            Shown {
                whole: damage(188, 0),
                ..whole
            },
            Wrong::SyncLost,
            8,
        ),
        // Packets of 192 bytes begin with a time, packets of 204 are too long.
        (
            Shown {
                size: PacketSize::Timed,
                ..whole
            },
            Wrong::NotPlain,
            0,
        ),
        (
            Shown {
                size: PacketSize::Coded,
                ..whole
            },
            Wrong::NotPlain,
            1,
        ),
        (
            Shown {
                fronts: &[PAT, NULL, MAP, SCRAMBLED],
                ..whole
            },
            Wrong::Network(NetworkFault::Scrambled),
            3,
        ),
    ];
    for (shown, wrong, packet) in faulty {
        let fault = StreamFault { wrong, packet };
        assert_eq!(rt; profile_of(alloc, shown)?, Profile::Faulty(fault));
    }
    Ok(())
}
