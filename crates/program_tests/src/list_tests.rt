//! Lists of advertisements: which lines are taken, lists of files, and refused memory.

use ad_library::{AdFault, AdLibrary};
use ad_lists::{ListFault, load_list};
use linked_list_allocator::LocalHeap;
use std::alloc::{AllocError, Allocator, Global};
use std::io::{self, Cursor, ErrorKind, Read};
use std::process::Abort;
use std::rt::Files;
use std::test::*;
use std::{env, fs};
use ts_packet::Device;

/// What a list of this text comes to.
fn fault_of(rt: &HostRuntime, text: &[u8]) -> Option<ListFault> {
    let mut device = Device::new(Cursor::new(text));
    match load_list(rt, rt.alloc(), &mut device) {
        Ok(_) => None,
        Err(fault) => Some(fault),
    }
}

#[test]
fn lines_are_judged(rt: HostRuntime) -> Result<(), Fail> {
    for text in [b"".as_slice(), b"\n", b"\n\n", b" \t\r\n", b"\n  "] {
        expect_eq!(rt; fault_of(&rt, text), None);
    }
    for text in [
        b"7\n".as_slice(),
        b"7 \n",
        b" none.ts\n",
        b"x none.ts\n",
        b"+7 none.ts\n",
        b"-7 none.ts\n",
        b" 7 none.ts\n",
        b"7\tnone.ts\n",
        b"0x7 none.ts\n",
        b"65536 none.ts\n",
        b"99999999999999999999 none.ts\n",
        b"\xFF none.ts\n",
        b"7 \xFF.ts\n",
        b"\nx",
        b"x\n7 no/such.ts\n",
    ] {
        expect_eq!(rt; fault_of(&rt, text), Some(ListFault::BadList));
    }
    for text in [
        b"7 no/such.ts\nx".as_slice(),
        b"\n7 no/such.ts",
        b"0 no/such.ts\n",
        b"65535 no/such.ts\n",
        b"00007 no/such.ts\n",
        b"7 no/such .ts\n",
        b"7 .\n",
    ] {
        expect_eq!(rt; fault_of(&rt, text), Some(ListFault::File));
    }
    Ok(())
}

/// Gives a line feed, and then fails, or is interrupted once in between.
#[derive(Drop)]
struct Failing {
    calls: usize,
}

impl Read for Failing {
    fn read(&mut self, buf: &mut [u8]) -> io::Result<usize> {
        self.calls = self.calls.saturating_add(1);
        if self.calls == 1 {
            return Err(io::Error::from(ErrorKind::Interrupted));
        }
        if self.calls == 2
            && let Some(place) = buf.first_mut()
        {
            *place = b'\n';
            return Ok(1);
        }
        Err(io::Error::from(ErrorKind::ConnectionReset))
    }
}

#[test]
fn a_list_that_cannot_be_read_on(rt: HostRuntime) -> Result<(), Fail> {
    let mut device = Device::new(Failing { calls: 0 });
    let loaded = load_list(&rt, rt.alloc(), &mut device);
    assert!(rt; matches!(&loaded, Err(ListFault::Io)));
    Ok(())
}

/// Puts a packet that begins a section or a unit, its payload at the front or at the end.
fn put_packet(out: &mut Vec<u8>, pid: u16, section: &[u8], unit: &[u8]) -> Result<(), AllocError> {
    let size = (section.len() + unit.len()).min(182);
    out.extend_from_slice(&[0x47, 0x40 + (pid / 256 % 32) as u8, (pid % 256) as u8])?;
    if section.is_empty() {
        out.extend_from_slice(&[0x30, (183 - size) as u8, 0])?;
        for _ in size..182 {
            out.push(0xFF)?;
        }
        return out.extend_from_slice(&unit[..size.min(unit.len())]);
    }
    out.extend_from_slice(&[0x10, 0])?;
    out.extend_from_slice(&section[..size.min(section.len())])?;
    for _ in size..183 {
        out.push(0xFF)?;
    }
    Ok(())
}

/// PAT, map, and a video unit at time 0.
pub(crate) fn advert(alloc: Global) -> Result<Vec<u8>, AllocError> {
    let mut out = Vec::new(alloc);
    let pat = [
        0, 0xB0, 0x0D, 0, 1, 0xC1, 0, 0, 0, 1, 0xE0, 0x20, 0xA2, 0xC3, 0x29, 0x41,
    ];
    put_packet(&mut out, 0, &pat, &[])?;
    let map = [
        2, 0xB0, 0x12, 0, 1, 0xC1, 0, 0, 0xE1, 0, 0xF0, 0, 0x1B, 0xE1, 0, 0xF0, 0, 0x15, 0xBD,
        0x4D, 0x56,
    ];
    put_packet(&mut out, 0x20, &map, &[])?;
    let unit = [
        0, 0, 1, 0xE0, 0, 0, 0x80, 0x80, 5, 0x21, 0, 1, 0, 1, 0xA5, 0x5A,
    ];
    put_packet(&mut out, 0x100, &[], &unit)?;
    Ok(out)
}

/// The same, and a second unit a second later.
fn longer_advert(alloc: Global) -> Result<Vec<u8>, AllocError> {
    let mut out = advert(alloc)?;
    let unit = [
        0, 0, 1, 0xE0, 0, 0, 0x80, 0x80, 5, 0x21, 0, 5, 0xBF, 0x21, 0xA5, 0x5A,
    ];
    let start = out.len();
    put_packet(&mut out, 0x100, &[], &unit)?;
    if let Some(counter) = out.get_mut(start.saturating_add(3)) {
        *counter = 0x31;
    }
    Ok(out)
}

/// How many units the first two seconds of the video of an advertisement have, up to two.
fn count_units<M: Allocator + Copy>(library: &AdLibrary<M>, id: u16) -> u8 {
    let Some(mut slice) = library.slice(id, 0x1B, 0, 180_000) else {
        return 0;
    };
    if slice.next().is_none() {
        return 0;
    }
    if slice.next().is_none() { 1 } else { 2 }
}

/// The advertisement of each line is of that line's own stream.
#[test]
fn each_line_has_its_own_stream(rt: HostRuntime) -> Result<(), Fail> {
    let folder = env::temp_dir(&rt)?;
    let short = folder.join(rt.alloc(), "program_tests_ad_short.ts")?;
    let short = short.to_str().ok_or("a name")?;
    let long = folder.join(rt.alloc(), "program_tests_ad_long.ts")?;
    let long = long.to_str().ok_or("a name")?;
    fs::write(&rt, short, advert(rt.alloc())?.as_slice())?;
    fs::write(&rt, long, longer_advert(rt.alloc())?.as_slice())?;
    let text = format!(in rt.alloc(); "1 {short}\n2 {long}\n3 {short}\n4 {long}")?;
    let mut device = Device::new(Cursor::new(text.as_bytes()));
    let Ok(library) = load_list(&rt, rt.alloc(), &mut device) else {
        return Err(Fail::from("a good list"));
    };
    for (id, count) in [(1, 1), (2, 2), (3, 1), (4, 2), (5, 0)] {
        expect_eq!(rt; (id, count_units(&library, id)), (id, count));
    }
    fs::remove_file(&rt, short)?;
    fs::remove_file(&rt, long)?;
    Ok(())
}

/// Whether the library holds the advertisement under 7 and 65,535, and under no number beside them.
fn is_whole<M: Allocator + Copy>(library: &AdLibrary<M>) -> bool {
    [(7, true), (65_535, true), (0, false), (8, false)]
        .iter()
        .all(|(id, is_there)| {
            library.fits(*id, &[], 1) == *is_there
                && library.slice(*id, 0x1B, 0, 1).is_some() == *is_there
        })
}

#[test]
fn lists_of_files(rt: HostRuntime) -> Result<(), Fail> {
    let folder = env::temp_dir(&rt)?;
    let path = folder.join(rt.alloc(), "program_tests_ad_list.ts")?;
    let path = path.to_str().ok_or("a name")?;
    let bytes = advert(rt.alloc())?;
    fs::write(&rt, path, bytes.as_slice())?;
    let text = format!(in rt.alloc(); "7 {path}\n\n65535 {path}")?;
    let mut device = Device::new(Cursor::new(text.as_bytes()));
    let Ok(library) = load_list(&rt, rt.alloc(), &mut device) else {
        return Err(Fail::from("a good list"));
    };
    assert!(rt; is_whole(&library));
    let text = format!(in rt.alloc(); "7 {path}\n8 {path}\n07 {path}\nx")?;
    expect_eq!(rt;
        fault_of(&rt, text.as_bytes()),
        Some(ListFault::Ad(AdFault::Exists))
    );
    let text = format!(in rt.alloc(); "7 {path}\nx\n7 {path}\n")?;
    expect_eq!(rt; fault_of(&rt, text.as_bytes()), Some(ListFault::BadList));
    fs::write(&rt, path, b"".as_slice())?;
    let text = format!(in rt.alloc(); "7 {path}\nx")?;
    expect_eq!(rt;
        fault_of(&rt, text.as_bytes()),
        Some(ListFault::Ad(AdFault::NoProgram))
    );
    fs::remove_file(&rt, path)?;
    expect_eq!(rt; fault_of(&rt, text.as_bytes()), Some(ListFault::File));
    Ok(())
}

/// How many bytes of memory there are.
const HEAP: usize = 200_000;

/// Whether a list is loaded whole, and why not.
fn is_loaded<R: Files, M: Allocator + Copy>(
    rt: &R,
    alloc: M,
    text: &[u8],
) -> Result<bool, ListFault> {
    let mut device = Device::new(Cursor::new(text));
    match load_list(rt, alloc, &mut device) {
        Ok(library) => Ok(is_whole(&library)),
        Err(fault) => Err(fault),
    }
}

/// In so much memory, the list is loaded whole or memory is refused, which is told; and it is loaded where the rest of the memory is given
/// back. Answers whether it was refused.
fn is_refused<R: Files + Abort>(
    rt: &R,
    heap: &LocalHeap,
    text: &[u8],
    free: usize,
) -> Result<bool, Fail> {
    let taken: Vec<u8, &LocalHeap> = Vec::with_capacity(heap, HEAP.saturating_sub(free))?;
    let answer = is_loaded(rt, heap, text);
    assert!(rt;
        answer == Ok(true) || answer == Err(ListFault::OutOfMemory),
        "with {free} bytes"
    );
    drop(taken);
    assert!(rt;
        is_loaded(rt, heap, text) == Ok(true),
        "behind {free} bytes"
    );
    expect_eq!(rt; heap.used(), 0);
    Ok(answer.is_err())
}

#[test]
fn each_request_refused(rt: HostRuntime) -> Result<(), Fail> {
    let folder = env::temp_dir(&rt)?;
    let path = folder.join(rt.alloc(), "ad_lists_memory.ts")?;
    let path = path.to_str().ok_or("a name")?;
    let bytes = advert(rt.alloc())?;
    fs::write(&rt, path, bytes.as_slice())?;
    let text = format!(in rt.alloc(); "7 {path}\n\n65535 {path}")?;
    let heap = LocalHeap::new(rt.alloc(), HEAP)?;
    for step in 0..12 {
        assert!(rt; is_refused(&rt, &heap, text.as_bytes(), 16 * step)?);
    }
    let mut refused: u32 = 0;
    for step in 0..200 {
        if is_refused(&rt, &heap, text.as_bytes(), 131_072 + 16 * step)? {
            refused = refused.saturating_add(1);
        }
    }
    assert!(rt; refused > 100 && refused < 200);
    fs::remove_file(&rt, path)?;
    Ok(())
}
