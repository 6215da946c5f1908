//! Lists of services in little memory: whatever request is refused, that is told, and all memory is given back.

use linked_list_allocator::LocalHeap;
use service_lists::{ServicesFault, load_services};
use std::alloc::Allocator;
use std::io::Cursor;
use std::process::Abort;
use std::rt::Files;
use std::test::Fail;
use std::{env, fs};
use ts_packet::Device;

/// How many bytes of memory there are.
const HEAP: usize = 400_000;

/// Why a list of two services is not loaded in this memory.
fn fault_in<R: Files, M: Allocator + Copy>(rt: &R, alloc: M, text: &[u8]) -> Option<ServicesFault> {
    let mut device = Device::new(Cursor::new(text));
    match load_services(rt, alloc, &mut device) {
        Ok(list) if list.libraries.len() == 2 => None,
        Ok(_) => Some(ServicesFault::BadLine),
        Err(unloaded) => Some(unloaded.fault),
    }
}

/// In so much memory the list is loaded whole or memory is refused, which is told. Answers whether it was refused.
fn is_refused<R: Files + Abort>(
    rt: &R,
    heap: &LocalHeap,
    text: &[u8],
    free: usize,
) -> Result<bool, Fail> {
    let taken: Vec<u8, &LocalHeap> = Vec::with_capacity(heap, HEAP.saturating_sub(free))?;
    let fault = fault_in(rt, heap, text);
    assert!(rt;
        fault.is_none() || fault == Some(ServicesFault::OutOfMemory),
        "with {free} bytes"
    );
    drop(taken);
    expect_eq!(*rt; heap.used(), 0);
    Ok(fault.is_some())
}

#[test]
fn each_request_of_a_list_of_services_is_refused(rt: HostRuntime) -> Result<(), Fail> {
    let adverts = env::temp_dir(&rt)?.join(rt.alloc(), "program_tests_service_memory.txt")?;
    let adverts = adverts.to_str().ok_or("a name")?;
    fs::write(&rt, adverts, b"\n".as_slice())?;
    let text = format!(in rt.alloc(); "1 496 1 {adverts}\n2 497 2 {adverts}\n")?;
    let heap = LocalHeap::new(rt.alloc(), HEAP)?;
    for step in 0..32 {
        assert!(rt; is_refused(&rt, &heap, text.as_bytes(), 16 * step)?);
    }
    let mut refused: u32 = 0;
    for step in 0..350 {
        if is_refused(&rt, &heap, text.as_bytes(), 1_024 * step)? {
            refused = refused.saturating_add(1);
        }
    }
    assert!(rt; refused > 32 && refused < 350);
    assert!(rt; !is_refused(&rt, &heap, text.as_bytes(), HEAP)?);
    fs::remove_file(&rt, adverts)?;
    Ok(())
}
