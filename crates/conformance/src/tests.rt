//! Runs of the program with words, an input and an output of a test's own.

use crate::program::program;
use std::env::{Env, FillError};
use std::io::{self, Read, Write};
use std::test::Fail;

/// A command line: the program's name, and the word behind it, where there is one.
#[derive(Drop)]
struct Words<'a>(Option<&'a [u8]>);

impl Env for Words<'_> {
    fn arg(&self, place: usize, buffer: &mut [u8]) -> Result<usize, FillError> {
        let word = match (place, self.0) {
            (0, _) => b"conformance".as_slice(),
            (1, Some(word)) => word,
            _ => return Err(FillError::NotPresent),
        };
        if buffer.len() < word.len() {
            return Err(FillError::TooLong);
        }
        buffer[..word.len()].copy_from_slice(word);
        Ok(word.len())
    }

    fn var(&self, _name: &str, _buffer: &mut [u8]) -> Result<usize, FillError> {
        Err(FillError::NotPresent)
    }

    fn var_at(&self, _place: usize, _buffer: &mut [u8]) -> Result<usize, FillError> {
        Err(FillError::NotPresent)
    }
}

/// A device of which each call fails.
#[derive(Drop)]
struct Broken;

impl Read for Broken {
    fn read(&mut self, _bytes: &mut [u8]) -> io::Result<usize> {
        Err(io::Error::other("no tape"))
    }
}

impl Write for Broken {
    fn write(&mut self, _bytes: &[u8]) -> io::Result<usize> {
        Err(io::Error::other("no paper"))
    }

    fn flush(&mut self) -> io::Result<()> {
        Ok(())
    }
}

/// Two lines, and their answers by docs/PROFILE.md and README.md.
const LINES: &[u8] = b"message 0007000E8003FFFF000010000110\nx";

const ANSWERS: &[u8] = b"Other as_index=0 number=16 index=1 result=0x8003/WrongIndex\nbad line\n";

#[test]
fn lines_are_answered(rt: HostRuntime) -> Result<(), Fail> {
    let mut output = Vec::new(rt.alloc());
    let mut faults = Vec::new(rt.alloc());
    let machine = (Words(None), rt.alloc());
    let status = program(&machine, LINES, &mut output, &mut faults);
    assert_eq!(rt; status, 0);
    assert_eq!(rt; output.as_slice(), ANSWERS);
    assert_eq!(rt; faults.len(), 0);
    Ok(())
}

#[test]
fn a_word_is_answered_by_the_usage(rt: HostRuntime) -> Result<(), Fail> {
    let mut output = Vec::new(rt.alloc());
    let mut faults = Vec::new(rt.alloc());
    let machine = (Words(Some(b"--help")), rt.alloc());
    let status = program(&machine, LINES, &mut output, &mut faults);
    assert_eq!(rt; status, 2);
    assert_eq!(rt; output.len(), 0);
    assert!(rt; faults.starts_with(b"Usage: conformance < LINES\n"));
    assert!(rt; faults.ends_with(b"\nas this help is.\n"));
    Ok(())
}

#[test]
fn a_word_that_is_no_text_is_told(rt: HostRuntime) -> Result<(), Fail> {
    let mut output = Vec::new(rt.alloc());
    let mut faults = Vec::new(rt.alloc());
    let machine = (Words(Some(b"\xFF")), rt.alloc());
    let status = program(&machine, LINES, &mut output, &mut faults);
    assert_eq!(rt; status, 2);
    assert_eq!(rt; output.len(), 0);
    assert_eq!(rt;
        faults.as_slice(),
        b"error: an argument is not UTF-8 text\n".as_slice()
    );
    Ok(())
}

#[test]
fn devices_that_fail_are_told(rt: HostRuntime) -> Result<(), Fail> {
    let mut output = Vec::new(rt.alloc());
    let mut faults = Vec::new(rt.alloc());
    let machine = (Words(None), rt.alloc());
    assert_eq!(rt; program(&machine, Broken, &mut output, &mut faults), 1);
    assert_eq!(rt; program(&machine, LINES, Broken, &mut faults), 1);
    assert_eq!(rt; output.len(), 0);
    assert_eq!(rt;
        faults.as_slice(),
        b"fault: Io: no tape\nfault: Io: no paper\n".as_slice()
    );
    Ok(())
}

#[test]
fn many_lines_are_answered(rt: HostRuntime) -> Result<(), Fail> {
    let mut output = Vec::new(rt.alloc());
    let mut faults = Vec::new(rt.alloc());
    let machine = (Words(None), rt.alloc());
    let lines = vec![in rt.alloc(); b'\n'; 70_000]?;
    let status = program(&machine, lines.as_slice(), &mut output, &mut faults);
    assert_eq!(rt; status, 0);
    assert_eq!(rt; output.len(), 9 * 70_000);
    assert!(rt;
        output
            .as_slice()
            .chunks(9)
            .all(|answer| answer == b"bad line\n".as_slice())
    );
    Ok(())
}
