//! How video is coded, as far as random access goes.

ghost use Rattle.std.specs.Prelude.{◌≡◌};
ghost use Rattle.random_access.specs.Marks.{coding_of};

/// A family of video codings whose headers are told apart.
#[derive(Clone, Copy, Debug, PartialEq, Eq)]
pub enum VideoCoding {
    /// ISO/IEC 11172-2 and 13818-2.
    Mpeg,
    /// ISO/IEC 14496-10.
    Avc,
    /// ISO/IEC 23008-2.
    Hevc,
}

impl VideoCoding {
    /// The coding of streams of this `stream_type`; `None` where it is no video, or video of another coding.
    pub fn of_stream_type(kind: u8) -> Option<VideoCoding>
        ensures { result ≡ coding_of kind }
    {
        match kind {
            0x01 | 0x02 => Some(VideoCoding::Mpeg),
            0x1B => Some(VideoCoding::Avc),
            0x24 => Some(VideoCoding::Hevc),
            _ => None,
        }
    }
}
