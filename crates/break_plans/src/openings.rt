//! Whether an advertisement opens with a picture that a decoder can show without pictures before it.

ghost use Rattle.std.specs.Prelude.{◌≡◌, length};
ghost use Rattle.ad_library.specs.Library.{held, slice_held};
ghost use Rattle.break_plans.specs.Openings.{first_continues, opens_continued};

use ad_library::AdLibrary;
use psi_tables::Stream;
use random_access::{VideoCoding, continues};

/// Whether the first unit below so many ticks, in the first stream of this type, shows that its picture continues.
fn first_continues(
    library: &AdLibrary,
    advert: u16,
    kind: u8,
    coding: VideoCoding,
    length: u64,
) -> bool
    ensures { result ≡ first_continues coding (slice_held (held library.now advert) kind 0 length) }
{
    match library.slice(advert, kind, 0, length) {
        None => false,
        Some(mut units) => match units.next() {
            None => false,
            Some(unit) => continues(coding, unit.bytes),
        },
    }
}

/// Whether the advertisement of this number, in the place of the video among these streams for so many ticks of 90 kHz, opens with a picture
/// that shows that its numbers go on from pictures before it.
pub fn opens_continued(library: &AdLibrary, advert: u16, streams: &[Stream], length: u64) -> bool
    ensures { result ≡ opens_continued (held library.now advert) streams.now length }
{
    let mut rest = streams;
    while let Some((stream, behind)) = rest.split_first() {
        if let Some(coding) = VideoCoding::of_stream_type(stream.kind) {
            return first_continues(library, advert, stream.kind, coding, length);
        }
        rest = behind;
    }
    false
}
