//! Whether the numbers of a picture go on from the pictures before it.

ghost use Rattle.std.specs.Prelude.{◌≡◌, length};
ghost use Rattle.ts_packet.specs.Fields.{bytes};
ghost use Rattle.random_access.specs.Numbering.{is_anew, is_continued, numbering_by, numbering_at, first_numbering, goes_on, continues};

use crate::coding::VideoCoding;
use crate::marks::{payload_of, video_of};
use ts_packet::Packet;

/// How a picture is numbered, by a coded slice of it.
#[derive(Clone, Copy, Debug, PartialEq, Eq)]
pub(crate) enum Numbering {
    /// From its own beginning on: an IDR or a BLA picture.
    Anew,
    /// As the pictures before it.
    Continued,
}

/// Whether a unit of this coding, or the front of one, shows that the numbers of its picture go on from the pictures before it, as those of a
/// random access picture of an open group do: its first coded slice is of no IDR picture (ISO/IEC 14496-10, table 7-1), or of neither an IDR
/// nor a BLA picture (ISO/IEC 23008-2, table 7-1). Bytes that end before a slice begins do not show it. A CRA picture behind an end of
/// sequence, which does begin anew, is taken for one that goes on.
pub fn continues(coding: VideoCoding, unit: &[u8]) -> bool
    ensures { result ≡ continues coding unit.now }
{
    let numbering = first_numbering(coding, video_of(unit));
    goes_on(numbering)
}

/// Whether the packet that begins a unit of this coding shows it.
pub fn packet_continues(coding: VideoCoding, packet: &Packet) -> bool
    ensures { result ≡ continues coding (bytes packet.now) }
{
    continues(coding, payload_of(packet))
}

/// Whether that is how it is numbered.
fn goes_on(numbering: Option<Numbering>) -> bool
    ensures { result ≡ goes_on numbering }
{
    match numbering {
        Some(Numbering::Continued) => true,
        Some(Numbering::Anew) => false,
        None => false,
    }
}

/// The first coded slice in bytes.
#[tactic(auto, unfolding(crate::specs::Numbering::first_numbering))]
fn first_numbering(coding: VideoCoding, bytes: &[u8]) -> Option<Numbering>
    ensures { result ≡ first_numbering coding bytes.now }
{
    let mut rest = bytes;
    while let Some((_, after)) = rest.split_first() {
        if let Some(numbering) = numbering_at(coding, rest) {
            return Some(numbering);
        }
        rest = after;
    }
    None
}

/// The coded slice with which bytes begin.
fn numbering_at(coding: VideoCoding, bytes: &[u8]) -> Option<Numbering>
    ensures { result ≡ numbering_at coding bytes.now }
{
    if bytes.len() >= 4 && bytes[0] == 0 && bytes[1] == 0 && bytes[2] == 1 {
        numbering_by(coding, bytes[3])
    } else {
        None
    }
}

/// The coded slice that the first byte of a NAL unit tells.
fn numbering_by(coding: VideoCoding, byte: u8) -> Option<Numbering>
    ensures { result ≡ numbering_by coding byte }
{
    if is_anew(coding, byte) {
        Some(Numbering::Anew)
    } else if is_continued(coding, byte) {
        Some(Numbering::Continued)
    } else {
        None
    }
}

/// Whether that byte is of a slice of a picture that begins anew.
fn is_anew(coding: VideoCoding, byte: u8) -> bool
    ensures { result ≡ is_anew coding byte }
{
    match coding {
        VideoCoding::Mpeg => false,
        VideoCoding::Avc => byte < 128 && byte % 32 == 5,
        VideoCoding::Hevc => byte < 128 && byte / 2 >= 16 && byte / 2 <= 20,
    }
}

/// Whether it is of one of another picture.
fn is_continued(coding: VideoCoding, byte: u8) -> bool
    ensures { result ≡ is_continued coding byte }
{
    match coding {
        VideoCoding::Mpeg => false,
        VideoCoding::Avc => byte < 128 && byte % 32 >= 1 && byte % 32 <= 4,
        VideoCoding::Hevc => byte < 128 && (byte / 2 <= 9 || byte / 2 == 21),
    }
}
