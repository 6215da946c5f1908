//! What is known of a stream in the end.

ghost use Rattle.std.specs.Prelude.{◌≡◌};

use crate::packet_size::PacketSize;
use pes_time::Time33;
use psi_tables::NetworkFault;
use random_access::Point;
use table_descriptors::PrivateAudio;
use ts_packet::Pid;

/// All that is known of a transport stream.
#[derive(Debug, Drop)]
pub struct Facts {
    /// How its packets stand in its bytes.
    pub packet_size: PacketSize,
    /// The packets.
    pub packets: u64,
    /// What is no packet, or none that can be read.
    pub damage: Damage,
    /// The null packets.
    pub null_packets: u64,
    /// Bits a second, by the clock references of one PID: the packets between them (ISO/IEC 13818-1, 2.4.2.2).
    pub bit_rate: Option<u64>,
    /// Bits a second of all bytes, in the time that those clock references take.
    pub file_bit_rate: Option<u64>,
    /// The programs that the stream lists, in the order in which it does.
    pub programs: Vec<ProgramFacts>,
    /// The cues, in order.
    pub cues: Vec<CueFacts>,
    /// Up to three PIDs on which nothing is and which nothing lists.
    pub free_pids: Vec<Pid>,
    /// Whether the chain takes the stream.
    pub profile: Profile,
}

/// What of a stream is no packet, or none that can be read, up to some place.
#[derive(Clone, Copy, Debug, PartialEq, Eq)]
pub struct Damage {
    /// The bytes that are in no packet, which were passed over.
    pub skipped: u64,
    /// The packets whose adaptation field does not fit, which are taken as marked in error.
    pub mended: u64,
}

impl Damage {
    /// All bytes are in packets, and all of these can be read.
    pub fn none() -> Damage
        ensures { result ≡ record { skipped = 0; mended = 0 } }
    {
        Damage {
            skipped: 0,
            mended: 0,
        }
    }
}

/// A program.
#[derive(Debug, Drop)]
pub struct ProgramFacts {
    /// Its program_number.
    pub number: u16,
    /// The name of the service.
    pub service_name: Option<String>,
    /// The PID of its map.
    pub pmt_pid: Pid,
    /// The PID of its clock references; `None` where no map was read.
    pub pcr_pid: Option<Pid>,
    /// The streams that its last map lists.
    pub streams: Vec<StreamFacts>,
}

/// A stream of a program.
#[derive(Debug, Drop)]
pub struct StreamFacts {
    /// Its PID.
    pub pid: Pid,
    /// Its stream_type.
    pub stream_type: u8,
    /// It is one of those that are switched.
    pub switched: bool,
    /// The first ISO_639_language_code of its entry.
    pub language: Option<[u8; 3]>,
    /// What sound it is, where its entry lists it as private data.
    pub private_audio: Option<PrivateAudio>,
    /// The units that begin on its PID.
    pub units: u64,
    /// The first time stamp of a unit, in the order of the stream.
    pub first_pts: Option<Time33>,
    /// The last one.
    pub last_pts: Option<Time33>,
    /// Its random access points.
    pub points: Vec<Point>,
}

/// A cue on the air.
#[derive(Debug, Drop)]
pub struct CueFacts {
    /// The packet that finishes it.
    pub packet: u64,
    /// Its PID.
    pub pid: Pid,
    /// Its section, from table_id to CRC_32.
    pub section: Vec<u8>,
}

/// What is wrong with a stream, so that the chain does not take it.
#[derive(Clone, Copy, Debug, PartialEq, Eq)]
pub enum Wrong {
    /// What the program that is followed says.
    Network(NetworkFault),
    /// Bytes before the packet are in none.
    SyncLost,
    /// The packet's adaptation field does not fit.
    BadAdaptation,
    /// The stream ends in a part of a packet.
    Truncated,
    /// The packets do not follow one another by 188 bytes.
    NotPlain,
}

/// What is wrong with a stream, and where.
#[derive(Clone, Copy, Debug, PartialEq, Eq)]
pub struct StreamFault {
    /// What is wrong.
    pub wrong: Wrong,
    /// How many packets stand before the one with the fault.
    pub packet: u64,
}

/// Whether the chain takes a stream.
#[derive(Clone, Copy, Debug, PartialEq, Eq)]
pub enum Profile {
    /// It does.
    Taken,
    /// It does not: this is the first thing that is wrong.
    Faulty(StreamFault),
    /// It has nothing to do with it, for the program is not in it: no map of it was read.
    NoProgram,
}
