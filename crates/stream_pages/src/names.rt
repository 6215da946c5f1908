//! What things are called.

use psi_tables::NetworkFault;
use random_access::Mark;
use stream_facts::{SpliceCommand, SpliceDescriptor, Wrong};
use table_descriptors::PrivateAudio;

/// A stream_type in words (ISO/IEC 13818-1, 2.4.4.10; ANSI/SCTE 35 for 0x86; the common ones of ATSC for 0x81 and 0x87).
fn type_name(kind: u8) -> &'static str {
    match kind {
        0x01 => "MPEG-1 video",
        0x02 => "MPEG-2 video",
        0x03 => "MPEG-1 audio",
        0x04 => "MPEG-2 audio",
        0x05 => "private sections",
        0x06 => "private data",
        0x0B => "DSM-CC",
        0x0F => "AAC audio",
        0x10 => "MPEG-4 video",
        0x11 => "AAC audio, LATM",
        0x15 => "metadata",
        0x1B => "H.264 video",
        0x24 => "HEVC video",
        0x33 => "VVC video",
        0x42 => "AVS video",
        0x81 => "AC-3 audio",
        0x86 => "SCTE 35 cues",
        0x87 => "E-AC-3 audio",
        0xD1 => "Dirac video",
        0xEA => "VC-1 video",
        _ => "unknown",
    }
}

/// A stream in words: by its stream_type, or as the sound that DVB lists as private data.
pub fn stream_name(kind: u8, private_audio: Option<PrivateAudio>) -> &'static str {
    match private_audio {
        Some(PrivateAudio::Ac3) => "AC-3 audio",
        Some(PrivateAudio::EnhancedAc3) => "E-AC-3 audio",
        None => type_name(kind),
    }
}

/// The key of a mark.
pub fn mark_name(mark: Mark) -> &'static str {
    match mark {
        Mark::Indicator => "random_access_indicator",
        Mark::SequenceHeader => "sequence_header",
        Mark::AvcParameterSet => "sequence_parameter_set",
        Mark::HevcParameterSet => "parameter_set",
    }
}

/// What a cue is for.
pub fn command_name(command: SpliceCommand) -> &'static str {
    match command {
        SpliceCommand::Null => "null",
        SpliceCommand::Schedule => "splice_schedule",
        SpliceCommand::Insert => "splice_insert",
        SpliceCommand::TimeSignal => "time_signal",
        SpliceCommand::BandwidthReservation => "bandwidth_reservation",
        SpliceCommand::Private => "private_command",
        SpliceCommand::Reserved => "reserved",
    }
}

/// What a descriptor of a cue is called (ANSI/SCTE 35, 10.2).
pub fn descriptor_name(descriptor: SpliceDescriptor) -> &'static str {
    if !descriptor.is_standard {
        return "private_descriptor";
    }
    match descriptor.tag {
        0x00 => "avail_descriptor",
        0x01 => "DTMF_descriptor",
        0x02 => "segmentation_descriptor",
        0x03 => "time_descriptor",
        0x04 => "audio_descriptor",
        _ => "reserved_descriptor",
    }
}

/// The key of a fault.
pub fn fault_name(wrong: Wrong) -> &'static str {
    match wrong {
        Wrong::Network(NetworkFault::TimeJump) => "TimeJump",
        Wrong::Network(NetworkFault::HeaderSplit) => "HeaderSplit",
        Wrong::Network(NetworkFault::Scrambled) => "Scrambled",
        Wrong::Network(NetworkFault::ProgramChanged) => "ProgramChanged",
        Wrong::Network(NetworkFault::TooManyStreams) => "TooManyStreams",
        Wrong::Network(NetworkFault::BadPids) => "BadPids",
        Wrong::Network(NetworkFault::PmtTooLong) => "PmtTooLong",
        Wrong::Network(NetworkFault::CuePidUsed) => "CuePidUsed",
        Wrong::Network(NetworkFault::Sections) => "Sections",
        Wrong::SyncLost => "SyncLost",
        Wrong::BadAdaptation => "BadAdaptation",
        Wrong::Truncated => "Truncated",
        Wrong::NotPlain => "SyncLost",
    }
}

/// What to do about a fault.
pub fn advice(wrong: Wrong) -> &'static str {
    match wrong {
        Wrong::Network(fault) => network_advice(fault),
        Wrong::SyncLost => "bytes between packets: put the stream through a multiplexer again",
        Wrong::BadAdaptation =>
            "an adaptation field does not fit its packet: put the stream through a multiplexer again",
        Wrong::Truncated => "the last packet is not whole: cut the stream before it",
        Wrong::NotPlain =>
            "the packets have more than 188 bytes: write the stream with packets of 188 bytes",
    }
}

/// What to do about what is wrong with a network.
fn network_advice(fault: NetworkFault) -> &'static str {
    match fault {
        NetworkFault::TimeJump =>
            "time stamps jump by more than 10 s: cut the stream there, or write its stamps anew",
        NetworkFault::HeaderSplit =>
            "a PES header is split over packets: put the stream through a multiplexer again",
        NetworkFault::Scrambled =>
            "a switched stream is scrambled: take the stream before the scrambler",
        NetworkFault::ProgramChanged =>
            "the program's streams, PCR PID or PMT PID change: run on the parts before and behind, or with --on-air",
        NetworkFault::TooManyStreams =>
            "more than eight switched streams: take streams out of the program",
        NetworkFault::BadPids =>
            "a PID stands for two things or is reserved: give the program other PIDs",
        NetworkFault::PmtTooLong =>
            "the map has no room for the entry of the cues: take descriptors out of it",
        NetworkFault::CuePidUsed => "the cue PID is used: choose one of the free ones",
        NetworkFault::Sections => "the PAT has several sections: take programs out of it",
    }
}

/// What to do where there is no program.
pub const CHOOSE: &str =
    "no map of the program was found: choose another program, or take a longer part of the stream";
