//! Digits by example: the sixteen of them, bytes with known digits, and texts that spell none.

use hex_digits::{Digits, bytes_of, digit_of, spell, value_of};
use std::test::Fail;

/// Bytes, and how they are written.
const BYTES: [u8; 6] = [0x00, 0x09, 0x0A, 0x5F, 0xAF, 0xFF];

const TEXT: &str = "00090A5FAFFF";

#[test]
fn sixteen_digits(rt: HostRuntime) {
    for (value, digit) in b"0123456789ABCDEF".iter().enumerate() {
        expect_eq!(rt; value_of(*digit), Some(value as u8));
        expect_eq!(rt; digit_of((value % 16) as u8), *digit);
    }
}

#[test]
fn no_other_byte_is_a_digit(rt: HostRuntime) {
    for other in b"/:@Gafg `-\n\0\xFF" {
        assert_eq!(rt; value_of(*other), None, "at {other}");
    }
}

#[test]
fn bytes_are_spelled_behind_the_start(rt: HostRuntime) {
    let mut line = *b"xxxxxxxx";
    spell(&mut line, 1, &[0x00, 0xAF]);
    expect_eq!(rt; line.as_slice(), b"xx00AFxx".as_slice());
}

#[test]
fn bytes_print_as_their_digits(rt: HostRuntime) -> Result<(), Fail> {
    let text = format!(in rt.alloc(); "{}", Digits(&BYTES))?;
    expect_eq!(rt; text.as_str(), TEXT);
    let none = format!(in rt.alloc(); "{}", Digits(&[]))?;
    expect_eq!(rt; none.as_str(), "");
    Ok(())
}

#[test]
fn digits_are_read(rt: HostRuntime) -> Result<(), Fail> {
    let bytes = bytes_of(rt.alloc(), TEXT.as_bytes())?;
    expect_eq!(rt;
        bytes.as_ref().map(|bytes| bytes.as_slice()),
        Some(BYTES.as_slice())
    );
    let none = bytes_of(rt.alloc(), b"")?;
    expect_eq!(rt; none.map(|bytes| bytes.len()), Some(0));
    Ok(())
}

#[test]
fn other_texts_spell_no_bytes(rt: HostRuntime) -> Result<(), Fail> {
    for text in ["A", "af", "aF", "Af", "0G", "000", "00 00", "0x00", "-"] {
        let bytes = bytes_of(rt.alloc(), text.as_bytes())?;
        assert!(rt; bytes.is_none(), "at {text}");
    }
    Ok(())
}
