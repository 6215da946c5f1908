//! Texts of EN 300 468, annex A.

use crate::tables;
use std::alloc::{AllocError, Global};

/// What stands for bytes that are no character.
const REPLACEMENT: char = '\u{fffd}';

/// How the bytes of a text are read.
#[derive(Clone, Copy)]
enum Coding<'a> {
    /// The default table, where accents stand before their letters.
    Latin,
    /// A byte for each character, those from 0xA0 on by this table.
    Table(&'a [char; 96]),
    /// UTF-8.
    Utf8,
    /// Another one.
    Other,
}

/// The characters of a text. Its first byte selects the table: none for the default one, ISO/IEC 8859-5 to 8859-15 in one byte,
/// ISO/IEC 8859-1 to 8859-15 in three, or UTF-8. A text by another table is shown as one U+FFFD, and so is each part of a text that has
/// no character. Control codes are left out.
///
/// # Errors
///
/// Where the allocator refused memory.
pub fn text_of(alloc: Global, bytes: &[u8]) -> Result<String, AllocError> {
    let (coding, rest) = coding_of(bytes);
    match coding {
        Coding::Latin => latin(alloc, rest),
        Coding::Table(table) => by_table(alloc, table, rest),
        Coding::Utf8 => utf8(alloc, rest),
        Coding::Other => String::from_str(alloc, "\u{fffd}"),
    }
}

/// How a text is coded, and its bytes behind that.
fn coding_of(bytes: &[u8]) -> (Coding<'_>, &[u8]) {
    match bytes {
        [0x01..=0x0B, rest @ ..] => (part(bytes[0] + 4), rest),
        [0x10, 0, number, rest @ ..] => (part(*number), rest),
        [0x15, rest @ ..] => (Coding::Utf8, rest),
        [0..=0x1F, ..] => (Coding::Other, bytes),
        _ => (Coding::Latin, bytes),
    }
}

/// The table of this part of ISO/IEC 8859.
fn part<'a>(number: u8) -> Coding<'a> {
    match number {
        1 => Coding::Table(&tables::ISO_8859_1),
        2 => Coding::Table(&tables::ISO_8859_2),
        3 => Coding::Table(&tables::ISO_8859_3),
        4 => Coding::Table(&tables::ISO_8859_4),
        5 => Coding::Table(&tables::ISO_8859_5),
        6 => Coding::Table(&tables::ISO_8859_6),
        7 => Coding::Table(&tables::ISO_8859_7),
        8 => Coding::Table(&tables::ISO_8859_8),
        9 => Coding::Table(&tables::ISO_8859_9),
        10 => Coding::Table(&tables::ISO_8859_10),
        11 => Coding::Table(&tables::ISO_8859_11),
        13 => Coding::Table(&tables::ISO_8859_13),
        14 => Coding::Table(&tables::ISO_8859_14),
        15 => Coding::Table(&tables::ISO_8859_15),
        _ => Coding::Other,
    }
}

/// The character of a byte; `None` for a control code.
fn shown(table: &[char; 96], byte: u8) -> Option<char> {
    match byte {
        0x20..=0x7E => Some(byte as char),
        0xA0.. => Some(table[byte as usize - 0xA0]),
        _ => None,
    }
}

/// The characters of bytes by a table.
fn by_table(alloc: Global, table: &[char; 96], bytes: &[u8]) -> Result<String, AllocError> {
    let mut text = String::new(alloc);
    for byte in bytes {
        if let Some(character) = shown(table, *byte) {
            text.push(character)?;
        }
    }
    Ok(text)
}

/// The character that an accent makes of a letter.
fn accented(accent: u8, letter: u8) -> char {
    for (before, under, character) in &tables::ACCENTED {
        if *before == accent && *under == letter {
            return *character;
        }
    }
    REPLACEMENT
}

/// The characters of bytes by the default table.
fn latin(alloc: Global, bytes: &[u8]) -> Result<String, AllocError> {
    let mut text = String::new(alloc);
    let mut accent: Option<u8> = None;
    for byte in bytes {
        match accent {
            Some(before) => {
                text.push(accented(before, *byte))?;
                accent = None;
            }
            None => {
                if *byte / 16 == 12 {
                    accent = Some(*byte);
                } else if let Some(character) = shown(&tables::LATIN, *byte) {
                    text.push(character)?;
                }
            }
        }
    }
    if accent.is_some() {
        text.push(REPLACEMENT)?;
    }
    Ok(text)
}

/// Whether a character is a control code: those of Unicode, and those of annex A in a text of more than a byte a character.
fn is_control(character: char) -> bool {
    matches!(character as u32, 0..=0x1F | 0x7F..=0x9F | 0xE080..=0xE09F)
}

/// The characters of UTF-8.
fn utf8(alloc: Global, bytes: &[u8]) -> Result<String, AllocError> {
    let Ok(spelled) = std::str::from_utf8(bytes) else {
        return String::from_str(alloc, "\u{fffd}");
    };
    let mut text = String::new(alloc);
    for character in spelled.chars() {
        if !is_control(character) {
            text.push(character)?;
        }
    }
    Ok(text)
}
