//! Runs from an ordinary file, which never waits: the output is written in whole blocks.

use crate::live::network::null_packets;
use dpi_program::program::program;
use failing_devices::{Failing, Record, RecordedTarget};
use std::io::Cursor;
use std::test::Fail;
use std::{env, fs};

/// Blocks of 262,144 bytes at most, of whole packets: 1,394 of them, as many, and the 212 that are left.
#[test]
fn a_file_is_written_in_blocks(rt: HostRuntime) -> Result<(), Fail> {
    let path = env::temp_dir(&rt)?.join(rt.alloc(), "program_tests_live_blocks.ts")?;
    let path = path.to_str().ok_or("a path")?;
    let network = null_packets(rt.alloc(), 3_000)?;
    fs::write(&rt, path, &network)?;
    let record = Record::new();
    let never = Failing::never();
    let mut output = RecordedTarget::new(rt.alloc(), &record, never, never);
    let mut faults = Vec::new(rt.alloc());
    let mut input = Cursor::new(b"".as_slice());
    let words = [
        "cut", "--pid", "256", "--from", "0", "--length", "1", "--in", path, "--out", "-",
    ];
    let status = program(&rt, &words, &mut input, &mut output, &mut faults);
    fs::remove_file(&rt, path)?;
    assert_eq!(rt; status, 0);
    assert_eq!(rt; output.written(), [262_072, 524_144, 564_000].as_slice());
    assert_eq!(rt; output.flushed(), [564_000].as_slice());
    assert!(rt; output.taken() == network.as_slice());
    Ok(())
}
