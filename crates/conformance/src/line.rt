//! What a line asks for.

ghost use Rattle.std.specs.Prelude.{◌≡◌, ◌≢◌, ◌++◌, [], IfOk, IfSome, None, Some, codes, option_map};
ghost use Rattle.hex_digits.specs.Digits.{spelled};
ghost use Rattle.conformance.specs.Lines.{word_of, asked};
ghost use Rattle.conformance.specs.Answers.{bytes_in};

use hex_digits::bytes_of;
use std::alloc::{AllocError, Global};

/// What bytes are to be read as.
#[derive(Clone, Copy, Debug, PartialEq, Eq)]
pub enum Codec {
    /// A `splice_info_section` of SCTE 35.
    Cue,
    /// A message of SCTE 104.
    Message,
    /// A section of ISO/IEC 13818-1.
    Table,
}

/// What the first word of a line says of the words behind it.
#[derive(Clone, Copy, Debug, PartialEq, Eq)]
pub enum Kind {
    /// One word of bytes, which are to be read so.
    Bytes(Codec),
    /// Packets of ISO/IEC 13818-1, of one PID, a word each.
    Sections,
}

/// The kind that the line's first word names, and the words behind it.
pub fn kind_of(line: &[u8]) -> Option<(Kind, &[u8])>
    ensures exact { option_map (λ found. (found.0, found.1.now)) result ≡ asked line.now }
    ensures parts { IfSome result (λ found. line.now ≡ word_of found.0 ++ found.1.now) }
{
    if let Some(rest) = line.strip_prefix(b"cue ") {
        Some((Kind::Bytes(Codec::Cue), rest))
    } else if let Some(rest) = line.strip_prefix(b"message ") {
        Some((Kind::Bytes(Codec::Message), rest))
    } else if let Some(rest) = line.strip_prefix(b"table ") {
        Some((Kind::Bytes(Codec::Table), rest))
    } else if let Some(rest) = line.strip_prefix(b"sections ") {
        Some((Kind::Sections, rest))
    } else {
        None
    }
}

/// The bytes of one word: at least one by its digits, or none by `-`.
pub fn word_bytes(alloc: Global, word: &[u8]) -> Result<Option<Vec<u8>>, AllocError>
    ensures exact { IfOk result (λ bytes. option_map (λ b. b.items) bytes ≡ bytes_in word.now) }
    ensures empty { word.now ≡ [] → IfOk result (λ bytes. bytes ≡ None) }
    ensures dash { word.now ≡ codes "-" → IfOk result (λ bytes. option_map (λ b. b.items) bytes ≡ Some []) }
    ensures digits { word.now ≢ [] → word.now ≢ codes "-"
        → IfOk result (λ bytes. option_map (λ b. b.items) bytes ≡ spelled word.now) }
{
    if word == b"-".as_slice() {
        return Ok(Some(Vec::new(alloc)));
    }
    if word.is_empty() {
        return Ok(None);
    }
    bytes_of(alloc, word)
}
