//! What the program answers and tells, where nothing is on standard input.

use crate::told::is_told;
use dpi_program::program::program;
use std::io::Cursor;
use std::net::Net;
use std::process::Abort;
use std::rt::Files;

/// The words end with this status, and this is told; where it is empty, whatever is told.
pub(crate) fn expect<R: Files + Net + AllocGlobal + Abort>(
    rt: &R,
    words: &[&str],
    status: u8,
    told: &str,
) {
    let mut output = Vec::new(rt.alloc());
    let mut faults = Vec::new(rt.alloc());
    let mut input = Cursor::new(b"".as_slice());
    let answer = program(rt, words, &mut input, &mut output, &mut faults);
    assert_eq!(rt; answer, status, "{words:?}");
    assert!(rt; is_told(faults.as_slice(), told), "{words:?}");
}
