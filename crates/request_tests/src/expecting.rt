//! How these tests ask, and what they expect.

use crate::asking::{Outcome, ask};
use std::process::Abort;

/// The words, of which blanks part one from another.
fn words_of<'a>(rt: &impl AllocGlobal, text: &'a str) -> Option<Vec<&'a str>> {
    text.split(' ').collect(rt.alloc()).ok()
}

/// These words print this line.
pub(crate) fn expect_line<R: AllocGlobal + Abort>(rt: &R, text: &str, line: &str) {
    let mut output = Vec::new(rt.alloc());
    let words = words_of(rt, text);
    let outcome = match &words {
        Some(words) => ask(rt.alloc(), words.as_slice(), &mut output),
        None => Outcome::NotTaken,
    };
    assert_eq!(rt; outcome, Outcome::Printed, "{text}");
    assert!(rt; output.as_slice() == line.as_bytes(), "{text}");
}

/// These words end so, and print nothing.
pub(crate) fn expect_nothing<R: AllocGlobal + Abort>(rt: &R, text: &str, expected: Outcome) {
    let mut output: Vec<u8> = Vec::new(rt.alloc());
    let words = words_of(rt, text);
    let outcome = match &words {
        Some(words) => ask(rt.alloc(), words.as_slice(), &mut output),
        None => Outcome::NotTaken,
    };
    assert_eq!(rt; outcome, expected, "{text}");
    assert!(rt; output.is_empty(), "{text}");
}
