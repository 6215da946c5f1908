//! What the descriptors in tables say (ISO/IEC 13818-1, 2.6): the data of the first one with a tag, and of a stream that a map
//! lists its language, and what sound it is where it is listed as private data. It stands on `psi_tables`, and takes no memory.
//! The crates above use one contract of it: the language of a stream is that of its own entry, and so is its sound.
#![tactic(auto)]

mod audio;
mod finding;
mod language;

pub use audio::{PrivateAudio, private_audio_of};
pub use finding::find_descriptor;
pub use language::language_of;
