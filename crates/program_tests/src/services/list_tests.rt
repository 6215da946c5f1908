//! Lists of services: which lines are taken, where a list stops, and refused memory.

use crate::services::runs::ADVERT;
use ad_lists::ListFault;
use chain_services::ServiceFault;
use linked_list_allocator::LocalHeap;
use psi_tables::BadConfig;
use service_lists::{ServicesFault, load_services};
use std::alloc::Allocator;
use std::io::Cursor;
use std::process::Abort;
use std::rt::Files;
use std::test::Fail;
use std::{env, fs};
use ts_packet::Device;
use two_program_streams::Stream;

/// At which line a list of this text stops, and why.
fn stop_of(rt: &HostRuntime, text: &[u8]) -> Option<(Option<usize>, ServicesFault)> {
    let mut device = Device::new(Cursor::new(text));
    match load_services(rt, rt.alloc(), &mut device) {
        Ok(_) => None,
        Err(unloaded) => Some((unloaded.line, unloaded.fault)),
    }
}

#[test]
fn lines_of_services_are_judged(rt: HostRuntime) -> Result<(), Fail> {
    for text in [b"".as_slice(), b"\n", b" \t\r\x0C\n\n  "] {
        expect_eq!(rt;
            stop_of(&rt, text),
            Some((None, ServicesFault::Services(ServiceFault::NoService)))
        );
    }
    for text in [
        b"x".as_slice(),
        b"1",
        b"1 496",
        b"1 496 1",
        b"1 496 1 ",
        b" 1 496 1 no/such",
        b"1  496 1 no/such",
        b"1\t496 1 no/such",
        b"+1 496 1 no/such",
        b"65536 496 1 no/such",
        b"1 0x1F0 1 no/such",
        b"1 8192 1 no/such",
        b"1 496 65536 no/such",
        b"1 496 -1 no/such",
        b"1 496 1 \xFF",
    ] {
        expect_eq!(rt; stop_of(&rt, text), Some((Some(1), ServicesFault::BadLine)));
    }
    for (text, bad) in [
        (b"0 496 1 no/such".as_slice(), BadConfig::Program),
        (b"1 15 1 no/such", BadConfig::CuePid),
        (b"1 8191 1 no/such", BadConfig::CuePid),
    ] {
        expect_eq!(rt;
            stop_of(&rt, text),
            Some((Some(1), ServicesFault::Config(bad)))
        );
    }
    for text in [
        b"\n1 496 1 no/such\nx".as_slice(),
        b"\n00001 00016 0 no/such",
        b" \n65535 8190 65535 no/such and more",
        b"\n1 496 1  no/such",
        b"\n1 496 1 .",
    ] {
        expect_eq!(rt; stop_of(&rt, text), Some((Some(2), ServicesFault::File)));
    }
    Ok(())
}

#[test]
fn lists_of_services_are_files(rt: HostRuntime) -> Result<(), Fail> {
    let folder = env::temp_dir(&rt)?;
    let path = folder.join(rt.alloc(), "program_tests_services_adverts.txt")?;
    let path = path.to_str().ok_or("a name")?;
    fs::write(&rt, path, b"".as_slice())?;
    let text = format!(in rt.alloc(); "2 497 9 {path}\n\n1 496 1 {path}")?;
    let mut device = Device::new(Cursor::new(text.as_bytes()));
    let Ok(list) = load_services(&rt, rt.alloc(), &mut device) else {
        return Err(Fail::from("a good list"));
    };
    expect_eq!(rt; list.libraries.len(), 2);
    let mut indices = Vec::new(rt.alloc());
    for config in list.configs.as_slice() {
        indices.push((config.program, config.cue_pid.get(), config.index))?;
    }
    assert!(rt; indices.as_slice() == [(2, 497, 9), (1, 496, 1)].as_slice());
    let text = format!(in rt.alloc(); "2 497 1 {path}\n1 496 1 {path}\n")?;
    expect_eq!(rt;
        stop_of(&rt, text.as_bytes()),
        Some((None, ServicesFault::Services(ServiceFault::SharedIndex)))
    );
    let text = format!(in rt.alloc(); "2 497 1 {path}\n1 496 1 {path}\nx")?;
    expect_eq!(rt;
        stop_of(&rt, text.as_bytes()),
        Some((Some(3), ServicesFault::BadLine))
    );
    fs::write(&rt, path, b"7 no/such\n".as_slice())?;
    expect_eq!(rt;
        stop_of(&rt, text.as_bytes()),
        Some((Some(1), ServicesFault::Adverts(ListFault::File)))
    );
    fs::write(&rt, path, b"x".as_slice())?;
    expect_eq!(rt;
        stop_of(&rt, text.as_bytes()),
        Some((Some(1), ServicesFault::Adverts(ListFault::BadList)))
    );
    fs::remove_file(&rt, path)?;
    Ok(())
}

/// How many bytes of memory there are.
const HEAP: usize = 1_500_000;

/// How a list of this text is loaded with memory of this allocator: it has this many services, or is refused.
fn loaded<R: Files, M: Allocator + Copy>(
    rt: &R,
    alloc: M,
    text: &[u8],
) -> Result<usize, ServicesFault> {
    let mut device = Device::new(Cursor::new(text));
    match load_services(rt, alloc, &mut device) {
        Ok(list) => Ok(list.libraries.len()),
        Err(unloaded) => Err(unloaded.fault),
    }
}

/// In so much memory, the list is loaded whole or memory is refused, which is told; and it is loaded where the rest of the memory is given
/// back. Answers whether it was refused.
fn is_refused<R: Files + Abort>(
    rt: &R,
    heap: &LocalHeap,
    text: &[u8],
    free: usize,
) -> Result<bool, Fail> {
    let taken: Vec<u8, &LocalHeap> = Vec::with_capacity(heap, HEAP.saturating_sub(free))?;
    let answer = loaded(rt, heap, text);
    assert!(rt;
        answer == Ok(2) || answer == Err(ServicesFault::OutOfMemory),
        "with {free} bytes"
    );
    drop(taken);
    assert!(rt; loaded(rt, heap, text) == Ok(2), "behind {free} bytes");
    expect_eq!(rt; heap.used(), 0);
    Ok(answer.is_err())
}

#[test]
fn each_request_of_services_refused(rt: HostRuntime) -> Result<(), Fail> {
    let folder = env::temp_dir(&rt)?;
    let advert = folder.join(rt.alloc(), "program_tests_services_memory.ts")?;
    let advert = advert.to_str().ok_or("a name")?;
    let adverts = folder.join(rt.alloc(), "program_tests_services_memory.txt")?;
    let adverts = adverts.to_str().ok_or("a name")?;
    let stream = Stream::of(rt.alloc(), ADVERT)?;
    fs::write(&rt, advert, stream.bytes())?;
    let text = format!(in rt.alloc(); "7 {advert}")?;
    fs::write(&rt, adverts, text.as_bytes())?;
    let text = format!(in rt.alloc(); "2 497 2 {adverts}\n1 496 1 {adverts}")?;
    let heap = LocalHeap::new(rt.alloc(), HEAP)?;
    let mut refused: u32 = 0;
    for step in 0..60 {
        for free in [16 * step, 131_072 + 64 * step, 25_000 * step] {
            if is_refused(&rt, &heap, text.as_bytes(), free)? {
                refused = refused.saturating_add(1);
            }
        }
    }
    assert!(rt; refused > 100 && refused < 179);
    fs::remove_file(&rt, advert)?;
    fs::remove_file(&rt, adverts)?;
    Ok(())
}
