//! Whether units show that the numbers of their pictures go on from pictures before them, by the begins of units as encoders write them.

use random_access::{VideoCoding, continues, packet_continues};
use std::alloc::{AllocError, Global};
use ts_packet::Packet;

/// The PES header of a unit of video with a time stamp.
const HEADER: [u8; 14] = [
    0x00, 0x00, 0x01, 0xE0, 0x00, 0x00, 0x80, 0x80, 0x05, 0x21, 0x00, 0x07, 0x4B, 0xC1,
];

/// What stands behind the header, and whether it shows that. H.264: an access unit delimiter, a sequence parameter set and slices of the types
/// 5, 1 and 2. HEVC: a delimiter, a video parameter set, and slices of CRA (21), IDR (19 and 20), BLA (16) and trailing (0 and 1) pictures.
const UNITS: [(VideoCoding, &[u8], bool); 16] = [
    (
        VideoCoding::Avc,
        &[
            0, 0, 0, 1, 0x09, 0x10, 0, 0, 1, 0x67, 0x64, 0, 0, 1, 0x65, 0x88,
        ],
        false,
    ),
    (
        VideoCoding::Avc,
        &[
            0, 0, 0, 1, 0x09, 0x10, 0, 0, 1, 0x67, 0x64, 0, 0, 1, 0x41, 0x9A,
        ],
        true,
    ),
    (
        VideoCoding::Avc,
        &[0, 0, 1, 0x09, 0x10, 0, 0, 1, 0x01, 0x9A],
        true,
    ),
    (VideoCoding::Avc, &[0, 0, 1, 0x42, 0x9A], true),
    // An IDR picture, and another one behind it in the same unit.
    (
        VideoCoding::Avc,
        &[0, 0, 1, 0x65, 0x88, 0, 0, 1, 0x41, 0x9A],
        false,
    ),
    // The slice stands in the next packet.
    (
        VideoCoding::Avc,
        &[0, 0, 1, 0x67, 0x64, 0, 0, 1, 0x68],
        false,
    ),
    (VideoCoding::Avc, &[0, 0, 1], false),
    (VideoCoding::Avc, &[], false),
    (
        VideoCoding::Hevc,
        &[
            0, 0, 1, 0x46, 0x01, 0x10, 0, 0, 1, 0x40, 0x01, 0, 0, 1, 0x2A, 0x01,
        ],
        true,
    ),
    (
        VideoCoding::Hevc,
        &[
            0, 0, 1, 0x46, 0x01, 0x10, 0, 0, 1, 0x40, 0x01, 0, 0, 1, 0x26, 0x01,
        ],
        false,
    ),
    (VideoCoding::Hevc, &[0, 0, 1, 0x28, 0x01], false),
    (VideoCoding::Hevc, &[0, 0, 1, 0x20, 0x01], false),
    (VideoCoding::Hevc, &[0, 0, 1, 0x02, 0x01], true),
    (VideoCoding::Hevc, &[0, 0, 1, 0x00, 0x01], true),
    // The same bytes in another coding.
    (VideoCoding::Hevc, &[0, 0, 1, 0x41, 0x9A], false),
    (
        VideoCoding::Mpeg,
        &[0, 0, 1, 0xB3, 0x00, 0, 0, 1, 0x00, 0, 0, 1, 0x01],
        false,
    ),
];

/// The unit, and the packet that ends with it.
fn unit(alloc: Global, video: &[u8]) -> Result<(Vec<u8>, Packet), AllocError> {
    let mut unit = Vec::from_slice(alloc, &HEADER)?;
    unit.extend_from_slice(video)?;
    let mut bytes = [0xFF; 188];
    let room = 184_usize.wrapping_sub(unit.len());
    let length = u8::try_from(room.wrapping_sub(1)).unwrap_or(0);
    bytes[..6].copy_from_slice(&[0x47, 0x41, 0x00, 0x30, length, 0x00]);
    for (place, byte) in unit.iter().enumerate() {
        if let Some(slot) = bytes.get_mut(4_usize.wrapping_add(room).wrapping_add(place)) {
            *slot = *byte;
        }
    }
    let packet = Packet::from_bytes(&bytes).unwrap_or(Packet::null());
    Ok((unit, packet))
}

#[test]
fn first_slices_show_how_pictures_are_numbered(rt: HostRuntime) -> Result<(), AllocError> {
    for (coding, video, shown) in UNITS {
        let (unit, packet) = unit(rt.alloc(), video)?;
        assert_eq!(rt;
            continues(coding, unit.as_slice()),
            shown,
            "{coding:?} {video:?}"
        );
        assert_eq!(rt;
            packet_continues(coding, &packet),
            shown,
            "{coding:?} {video:?}"
        );
    }
    Ok(())
}
