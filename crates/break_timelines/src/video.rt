//! The video of a program.

ghost use Rattle.std.specs.Prelude.{◌≡◌};
ghost use Rattle.break_timelines.specs.Video.{video_from};

use psi_tables::Stream;
use random_access::VideoCoding;

/// The video of a program.
#[derive(Clone, Copy, Debug, PartialEq, Eq)]
pub(crate) struct Video {
    /// Its place in the order of the map, from 0.
    pub(crate) index: usize,
    /// How it is coded.
    pub(crate) coding: VideoCoding,
}

/// The first video among these streams whose coding is known.
pub(crate) fn video_of(streams: &[Stream]) -> Option<Video>
    ensures { result ≡ video_from 0 streams.now }
{
    let mut index = 0;
    let mut rest = streams;
    while let Some((stream, behind)) = rest.split_first() {
        if let Some(coding) = VideoCoding::of_stream_type(stream.kind) {
            return Some(Video { index, coding });
        }
        index += 1;
        rest = behind;
    }
    None
}
