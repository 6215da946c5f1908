//! What the first packet of a unit says of random access.

ghost use Rattle.std.specs.Prelude.{◌≡◌, ◌≤◌, length};
ghost use Rattle.ts_packet.specs.Fields.{bytes};
ghost use Rattle.random_access.specs.Marks.{begins_header, starts_header, has_header, has_video_header, video_of, marks_of};
ghost use Rattle.random_access.specs.Marks.{is_marked, header_mark, mark_for};

use crate::coding::VideoCoding;
use ts_packet::Packet;

/// Why a unit is a random access point.
#[derive(Clone, Copy, Debug, PartialEq, Eq)]
pub enum Mark {
    /// random_access_indicator is set in its first packet.
    Indicator,
    /// Its first packet has a sequence header (ISO/IEC 13818-2).
    SequenceHeader,
    /// Its first packet has a sequence parameter set (ISO/IEC 14496-10).
    AvcParameterSet,
    /// Its first packet has a video or a sequence parameter set (ISO/IEC 23008-2).
    HevcParameterSet,
}

/// A header from which a decoder can begin.
#[derive(Clone, Copy, Debug, PartialEq, Eq)]
enum Header {
    Sequence,
    AvcParameters,
    HevcParameters,
}

/// All that a unit's first packet says of random access, whichever way its stream is coded.
#[derive(Clone, Copy, Debug, PartialEq, Eq)]
pub struct Marks {
    /// random_access_indicator.
    pub indicator: bool,
    /// A sequence header, were it ISO/IEC 13818-2.
    pub sequence_header: bool,
    /// A sequence parameter set, were it ISO/IEC 14496-10.
    pub avc_parameters: bool,
    /// A video or a sequence parameter set, were it ISO/IEC 23008-2.
    pub hevc_parameters: bool,
}

impl Marks {
    /// What this packet says.
    pub fn of(packet: &Packet) -> Marks
        ensures { result ≡ marks_of packet.now }
    {
        let video = video_of(payload_of(packet));
        Marks {
            indicator: packet.random_access(),
            sequence_header: has_header(Header::Sequence, video),
            avc_parameters: has_header(Header::AvcParameters, video),
            hevc_parameters: has_header(Header::HevcParameters, video),
        }
    }

    /// Whether there is any.
    pub fn any(self) -> bool
        ensures { result ≡ is_marked self }
    {
        self.indicator || self.sequence_header || self.avc_parameters || self.hevc_parameters
    }

    /// The one by which a unit of a stream of this coding is a random access point.
    pub fn mark_for(self, coding: Option<VideoCoding>) -> Option<Mark>
        ensures { result ≡ mark_for coding self }
    {
        if self.indicator {
            return Some(Mark::Indicator);
        }
        self.header_mark(coding)
    }

    /// The header among them that this coding has.
    fn header_mark(self, coding: Option<VideoCoding>) -> Option<Mark>
        ensures { result ≡ header_mark coding self }
    {
        match coding {
            Some(VideoCoding::Mpeg) if self.sequence_header => Some(Mark::SequenceHeader),
            Some(VideoCoding::Avc) if self.avc_parameters => Some(Mark::AvcParameterSet),
            Some(VideoCoding::Hevc) if self.hevc_parameters => Some(Mark::HevcParameterSet),
            _ => None,
        }
    }
}

/// The payload, empty where there is none.
#[tactic(auto, unfolding(ts_packet::specs::Fields::bytes))]
pub(crate) fn payload_of(packet: &Packet) -> &[u8]
    ensures { result.now ≡ bytes packet.now }
{
    match packet.payload() {
        Some(payload) => payload,
        None => &[],
    }
}

/// Whether a payload begins with the whole front of a PES packet of video.
fn has_video_header(payload: &[u8]) -> bool
    ensures { result ≡ has_video_header payload.now }
{
    payload.len() >= 9
        && payload[0] == 0
        && payload[1] == 0
        && payload[2] == 1
        && payload[3] / 16 == 14
        && payload[6] / 64 == 2
}

/// The video behind the header of a PES packet.
#[tactic(auto, unfolding(crate::specs::Marks::video_of))]
pub(crate) fn video_of(payload: &[u8]) -> &[u8]
    ensures { result.now ≡ video_of payload.now }
{
    if !has_video_header(payload) {
        return &[];
    }
    payload.get(9 + payload[8] as usize..).unwrap_or(&[])
}

/// Whether the byte behind a start code prefix begins this header.
fn begins_header(header: Header, byte: u8) -> bool
    ensures { result ≡ begins_header header byte }
{
    match header {
        Header::Sequence => byte == 0xB3,
        Header::AvcParameters => byte < 128 && byte % 32 == 7,
        Header::HevcParameters => byte < 128 && (byte / 2 == 32 || byte / 2 == 33),
    }
}

/// Whether bytes begin with this header.
fn starts_header(header: Header, bytes: &[u8]) -> bool
    ensures { result ≡ starts_header header bytes.now }
{
    bytes.len() >= 4
        && bytes[0] == 0
        && bytes[1] == 0
        && bytes[2] == 1
        && begins_header(header, bytes[3])
}

/// Whether bytes have this header anywhere.
#[tactic(auto, unfolding(crate::specs::Marks::has_header))]
fn has_header(header: Header, bytes: &[u8]) -> bool
    ensures { result ≡ has_header header bytes.now }
{
    let mut rest = bytes;
    while let Some((_, after)) = rest.split_first() {
        if starts_header(header, rest) {
            return true;
        }
        rest = after;
    }
    false
}
