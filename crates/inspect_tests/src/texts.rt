//! Texts of EN 300 468, annex A: bytes as the codecs of Python and of iconv write them.

use service_names::text_of;
use std::test::Fail;

/// Texts, and what they say.
const TEXTS: [(&[u8], &str); 11] = [
    (b"BBC ONE", "BBC ONE"),
    (
        &[0x01, 0xBF, 0xD5, 0xE0, 0xD2, 0xEB, 0xD9],
        "\u{41f}\u{435}\u{440}\u{432}\u{44b}\u{439}",
    ),
    (
        &[0x05, 0x54, 0x52, 0x54, 0x20, 0xDE, 0x65, 0xFE],
        "TRT \u{15e}e\u{15f}",
    ),
    (
        &[0x10, 0x00, 0x02, 0xC8, 0x65, 0x73, 0x6B, 0xE1],
        "\u{10c}esk\u{e1}",
    ),
    (
        &[
            0x53, 0xC8, 0x75, 0x64, 0x20, 0xC2, 0x45, 0x6C, 0x61, 0x6E, 0x20, 0xE8, 0xC2, 0x6F,
            0x64, 0xC2, 0x7A,
        ],
        "S\u{fc}d \u{c9}lan \u{141}\u{f3}d\u{17a}",
    ),
    (b"\x15S\xC3\xBCd", "S\u{fc}d"),
    // Control codes are left out: emphasis on and off, in one byte and in the private use area of UTF-8.
    (b"\x86Das\x87 Erste", "Das Erste"),
    (b"\x15\xEE\x82\x86Das\xEE\x82\x87", "Das"),
    // 0xA4 is the euro sign in the default table.
    (b"5 \xA4", "5 \u{20ac}"),
    // No text by another table, by a part that is not there, or of broken UTF-8.
    (b"\x13\xB0\xA1", "\u{fffd}"),
    (b"\x15\xFF", "\u{fffd}"),
];

#[test]
fn texts_say_what_they_spell(rt: HostRuntime) -> Result<(), Fail> {
    for (bytes, said) in &TEXTS {
        let text = text_of(rt.alloc(), bytes)?;
        assert_eq!(rt; text.as_str(), *said, "of {bytes:?}");
    }
    Ok(())
}
