//! Sound that a map lists as private data.

ghost use Rattle.std.specs.Prelude.{◌≡◌, option_map};
ghost use Rattle.psi_tables.specs.ProgramMap.{map_of};
ghost use Rattle.table_descriptors.specs.Finding.{has_descriptor, audio_told, audio_on};

use crate::finding::find_descriptor;
use crate::language::{entries, find_info};
use psi_tables::{Pmt, Stream};

/// The stream_type of private data in PES packets (ISO/IEC 13818-1, 2.4.4.10).
const PRIVATE: u8 = 6;

/// The tag of an AC-3_descriptor (ETSI EN 300 468, annex D).
const AC3: u8 = 0x6A;

/// The tag of an enhanced_ac-3_descriptor (likewise).
const ENHANCED_AC3: u8 = 0x7A;

/// Sound that DVB lists as private data with a descriptor of its own.
#[derive(Clone, Copy, Debug, PartialEq, Eq)]
pub enum PrivateAudio {
    /// AC-3.
    Ac3,
    /// Enhanced AC-3.
    EnhancedAc3,
}

/// The sound of a stream that a map lists as private data, by the descriptors of its own entry (ETSI EN 300 468, annex D); `None` where the
/// stream is of another type, or its entry has neither descriptor.
#[tactic(auto, unfolding(psi_tables::specs::ProgramMap::map_of))]
pub fn private_audio_of(map: &Pmt<'_>, stream: Stream) -> Option<PrivateAudio>
    ensures { result ≡ audio_on stream (map_of map.now.bytes.now) }
{
    if stream.kind != PRIVATE {
        return None;
    }
    match find_info(entries(map), stream.pid) {
        None => None,
        Some(info) => audio_told(info),
    }
}

/// The sound that descriptors tell.
fn audio_told(info: &[u8]) -> Option<PrivateAudio>
    ensures { result ≡ audio_told info.now }
{
    if has_descriptor(info, AC3) {
        Some(PrivateAudio::Ac3)
    } else if has_descriptor(info, ENHANCED_AC3) {
        Some(PrivateAudio::EnhancedAc3)
    } else {
        None
    }
}

/// Whether a descriptor with this tag is among those that the bytes begin with.
fn has_descriptor(info: &[u8], tag: u8) -> bool
    ensures { result ≡ has_descriptor tag info.now }
{
    match find_descriptor(info, tag) {
        Some(_) => true,
        None => false,
    }
}
