//! Scripts by example: the pieces that good ones give, the lines that are refused, and refused memory.

use automations::{Script, ScriptFault};
use chain_engine::{Automation, Taken};
use linked_list_allocator::LocalHeap;
use std::alloc::{Allocator, Global};
use std::io::{self, Write};
use std::process::Abort;
use std::test::Fail;
use ts_packet::Device;

/// Loads a text, whose replies are kept.
fn load(alloc: Global, text: &[u8]) -> Result<Script<Vec<u8>>, ScriptFault> {
    let mut reader = Device::new(text);
    Script::load(alloc, &mut reader, Vec::new(alloc))
}

/// The text is refused as a bad script.
fn expect_bad<R: AllocGlobal + Abort>(rt: &R, text: &[u8]) {
    let is_bad = match load(rt.alloc(), text) {
        Ok(_) => false,
        Err(fault) => fault == ScriptFault::BadScript,
    };
    assert!(rt; is_bad, "{text:?}");
}

#[test]
fn bad_lines_are_refused(rt: HostRuntime) {
    for text in [
        b"\n".as_slice(),
        b"0 00\n\n".as_slice(),
        b"0 0a\n".as_slice(),
        b"0 000\n".as_slice(),
        b"0 0".as_slice(),
        b"0\n".as_slice(),
        b"0 \n".as_slice(),
        b"0".as_slice(),
        b"0  00\n".as_slice(),
        b" 0 00\n".as_slice(),
        b"0 00 \n".as_slice(),
        b"0 00\r\n".as_slice(),
        b"+1 00\n".as_slice(),
        b"-1 00\n".as_slice(),
        b"0x1 00\n".as_slice(),
        b"3 00\n3 00\n".as_slice(),
        b"3 00\n2 00\n".as_slice(),
        b"18446744073709551616 00\n".as_slice(),
        b"99999999999999999999 00\n".as_slice(),
    ] {
        expect_bad(&rt, text);
    }
}

/// The next take gives these bytes, none where it gives nothing.
fn expect_piece<R: Abort, W: Write>(rt: &R, script: &mut Script<W>, piece: &[u8]) {
    let mut room = [0; 4_096];
    let is_same = match script.take(&mut room) {
        Taken::Bytes(count) => &room[..count.min(4_096)] == piece,
        Taken::Nothing => piece.is_empty(),
        Taken::Ended => false,
        Taken::Failed => false,
    };
    assert!(rt; is_same, "{piece:?}");
}

#[test]
fn pieces_come_before_their_packets(rt: HostRuntime) -> Result<(), Fail> {
    let Ok(mut script) = load(rt.alloc(), b"1 0A\n002 FF00\n4 7F") else {
        return Err(Fail::from("a good script"));
    };
    for piece in [
        b"".as_slice(),
        b"\x0A".as_slice(),
        b"\xFF\x00".as_slice(),
        b"".as_slice(),
        b"\x7F".as_slice(),
        b"".as_slice(),
        b"".as_slice(),
    ] {
        expect_piece(&rt, &mut script, piece);
    }
    let Ok(mut empty) = load(rt.alloc(), b"") else {
        return Err(Fail::from("an empty script"));
    };
    expect_piece(&rt, &mut empty, b"");
    let last = load(rt.alloc(), b"18446744073709551615 00\n");
    assert!(rt; last.is_ok());
    Ok(())
}

#[test]
fn lines_hold_4096_bytes(rt: HostRuntime) -> Result<(), Fail> {
    let mut text = Vec::from_slice(rt.alloc(), b"0 ")?;
    for _ in 0..4_096 {
        text.extend_from_slice(b"A5")?;
    }
    assert!(rt; load(rt.alloc(), text.as_slice()).is_ok());
    text.extend_from_slice(b"A5")?;
    expect_bad(&rt, text.as_slice());
    Ok(())
}

/// Takes no byte.
#[derive(Drop)]
struct Full;

impl Write for Full {
    fn write(&mut self, _buf: &[u8]) -> io::Result<usize> {
        Ok(0)
    }

    fn flush(&mut self) -> io::Result<()> {
        Ok(())
    }
}

#[test]
fn replies_are_printed_or_lost(rt: HostRuntime) -> Result<(), Fail> {
    let mut printed = Vec::new(rt.alloc());
    let mut nothing = Device::new(b"".as_slice());
    let Ok(mut script) = Script::load(rt.alloc(), &mut nothing, &mut printed) else {
        return Err(Fail::from("an empty script"));
    };
    assert!(rt; script.answer(&[0x00, 0x07, 0xAB]));
    assert!(rt; !script.has_lost_a_reply());
    drop(script);
    assert!(rt; printed.as_slice() == b"reply 0007AB\n".as_slice());
    let mut nothing = Device::new(b"".as_slice());
    let Ok(mut script) = Script::load(rt.alloc(), &mut nothing, Full) else {
        return Err(Fail::from("an empty script"));
    };
    assert!(rt; !script.answer(&[0x00]));
    assert!(rt; script.has_lost_a_reply());
    Ok(())
}

/// What becomes of a script's text in this memory.
fn fault_in<M: Allocator + Copy>(alloc: M, replies: Vec<u8>) -> Option<ScriptFault> {
    let mut reader = Device::new(
        b"3 FFFF001E00000500010000010101000E010000000100070FA0012C000001\n".as_slice(),
    );
    match Script::load_in(alloc, &mut reader, replies) {
        Ok(_) => None,
        Err(fault) => Some(fault),
    }
}

#[test]
fn memory_is_refused_to_a_script(rt: HostRuntime) -> Result<(), Fail> {
    for (size, want) in [
        (16, Some(ScriptFault::OutOfMemory)),
        (64, Some(ScriptFault::OutOfMemory)),
        (4_096, None),
    ] {
        let heap = LocalHeap::new(rt.alloc(), size)?;
        let fault = fault_in(&heap, Vec::new(rt.alloc()));
        assert!(rt; fault == want, "with {size} bytes");
        expect_eq!(rt; heap.used(), 0);
    }
    Ok(())
}

/// In any memory the script is loaded or memory is refused: each request is refused in turn.
#[test]
fn each_request_of_a_script_is_refused(rt: HostRuntime) -> Result<(), Fail> {
    let mut refused: u32 = 0;
    for step in 1..=64 {
        let heap = LocalHeap::new(rt.alloc(), 16 * step)?;
        match fault_in(&heap, Vec::new(rt.alloc())) {
            None => assert!(rt; step > 2),
            Some(fault) => {
                assert!(rt;
                    fault == ScriptFault::OutOfMemory,
                    "with {step} times 16 bytes"
                );
                refused = refused.saturating_add(1);
            }
        }
        expect_eq!(rt; heap.used(), 0);
    }
    assert!(rt; refused > 2 && refused < 64);
    Ok(())
}
