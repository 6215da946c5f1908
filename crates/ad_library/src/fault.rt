//! Why a stream is no advertisement.

ghost use Rattle.std.specs.Prelude.{◌≡◌, Option, Some};
ghost use Rattle.psi_tables.specs.declared.network.NetworkFault.{NetworkFault};
ghost use Rattle.program_follower.specs.Following.{IsNetwork};
ghost use Rattle.ad_library.specs.Faults.{of_network, of_read, as_ad_fault};

use program_follower::FollowFault;
use psi_tables::NetworkFault;
use thiserror::Error;
use ts_packet::ReadFault;

/// Why [`AdLibrary::add`](crate::AdLibrary::add) filed nothing. The first two come before anything is read; of the others the one that the
/// stream reaches first, and at one packet the first of this list.
#[derive(Clone, Copy, Debug, PartialEq, Eq, Drop, Error)]
pub enum AdFault {
    /// An advertisement is filed under this number.
    #[error("an advertisement of this number is filed")]
    Exists,
    /// 64 advertisements are filed.
    #[error("64 advertisements are filed")]
    Many,
    /// The stream could not be read on; never `Io`.
    #[error("reading the advertisement: {0}")]
    Packets(ReadFault),
    /// The device failed.
    #[error("the device of the advertisement failed")]
    Io,
    /// The packet takes the stream past 67,108,864 bytes.
    #[error("the advertisement is longer than 64 MiB")]
    Large,
    /// The stream ends before the first map of its first program.
    #[error("the advertisement has no program")]
    NoProgram,
    /// A PAT of several sections.
    #[error("the PAT of the advertisement has several sections")]
    Sections,
    /// A map with more than eight switched streams.
    #[error("the program of the advertisement has more than eight streams that are switched")]
    TooManyStreams,
    /// A PID of the program is one that it may not have.
    #[error("a PID of the program may not be used so")]
    BadPids,
    /// A later PAT or map says something else of the program.
    #[error("the program of the advertisement changes")]
    ProgramChanged,
    /// A payload packet of a switched stream has scrambling bits.
    #[error("a packet of the advertisement is scrambled")]
    Scrambled,
    /// The payload of a unit's first packet ends before the unit's time stamps.
    #[error("the first packet of a unit ends before the unit's time stamps")]
    HeaderSplit,
    /// A unit's time lies more than 900,000 ticks of 90 kHz (10 seconds) from the greatest before it.
    #[error("a unit lies more than 10 seconds from the greatest time before it")]
    TimeJump,
    /// A packet of a switched stream is missing behind the head: its counter is not one past that of the payload packet before it.
    #[error("a packet of the advertisement is missing")]
    Loss,
    /// No unit has a time.
    #[error("no unit of the advertisement has a time")]
    NoTime,
    /// The allocator refused memory.
    #[error("no memory for the advertisement")]
    OutOfMemory,
}

/// A follower's fault, as one of an advertisement. Its second one is met only once a fault was answered.
pub(crate) fn of_follower(fault: FollowFault) -> AdFault
    ensures { (wrong : Option NetworkFault) → IsNetwork fault wrong → as_ad_fault wrong ≡ Some result }
{
    match fault {
        FollowFault::Network(fault) => of_network(fault),
        FollowFault::Failed => AdFault::ProgramChanged,
    }
}

/// A fault of a reader, as one of an advertisement.
pub(crate) fn of_read(fault: ReadFault) -> AdFault
    ensures { result ≡ of_read fault }
{
    match fault {
        ReadFault::Truncated => AdFault::Packets(ReadFault::Truncated),
        ReadFault::SyncLost => AdFault::Packets(ReadFault::SyncLost),
        ReadFault::BadAdaptation => AdFault::Packets(ReadFault::BadAdaptation),
        ReadFault::Io => AdFault::Io,
        ReadFault::Turns => AdFault::Packets(ReadFault::Turns),
        ReadFault::Failed => AdFault::Packets(ReadFault::Failed),
    }
}

/// A fault of a program, as one of an advertisement. The last two are met only where cues are read or written.
fn of_network(fault: NetworkFault) -> AdFault
    ensures { result ≡ of_network fault }
{
    match fault {
        NetworkFault::Sections => AdFault::Sections,
        NetworkFault::TooManyStreams => AdFault::TooManyStreams,
        NetworkFault::BadPids => AdFault::BadPids,
        NetworkFault::ProgramChanged => AdFault::ProgramChanged,
        NetworkFault::Scrambled => AdFault::Scrambled,
        NetworkFault::HeaderSplit => AdFault::HeaderSplit,
        NetworkFault::TimeJump => AdFault::TimeJump,
        NetworkFault::CuePidUsed => AdFault::BadPids,
        NetworkFault::PmtTooLong => AdFault::BadPids,
    }
}
