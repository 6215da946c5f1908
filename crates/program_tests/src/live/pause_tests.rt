//! Runs whose input may pause: what came in is out before the next read, by one write at most. Both ends of a run stand in one record. The
//! packets are null packets, which each kind of run passes on as they are.

use crate::live::network::{expect_prompt, null_packets, pauses};
use ad_library::AdLibrary;
use command_lines::command::CutOptions;
use command_lines::splice_options::SpliceOptions;
use dpi_program::program::program;
use failing_devices::{Failing, Record, RecordedSource, RecordedTarget};
use passages::fault::fault_name;
use passages::kinds::{Cutting, Splicing, Unasked};
use passages::running::run_from;
use passages::tell::{Side, Stopped};
use pes_time::Time33;
use psi_tables::Config;
use run_ends::End;
use run_events::Unheard;
use std::alloc::{AllocError, Global};
use std::io::{Read, Write};
use std::process::Abort;
use std::test::Fail;
use ts_packet::Pid;

/// What is done with the packets.
#[derive(Clone, Copy, Debug)]
enum Kind {
    Cut,
    Splice,
}

const KINDS: [Kind; 2] = [Kind::Cut, Kind::Splice];

/// A cut of PID 0x100, on which nothing comes.
fn cut<R: Read + Drop, O: Write + Drop>(
    alloc: Global,
    is_live: bool,
    input: R,
    output: O,
) -> Result<Result<(), Stopped>, Fail> {
    let options = CutOptions {
        pid: Pid::new(0x100).ok_or("a PID")?,
        from: Time33::new(0).ok_or("a time")?,
        length: 1,
        input: End::Standard,
        output: End::Standard,
        is_verbose: false,
    };
    let passage = Cutting { options: &options };
    let mut output = output;
    match run_from(
        alloc,
        passage,
        &mut Unasked,
        None,
        is_live,
        input,
        &mut output,
    ) {
        Ok(_) => Ok(Ok(())),
        Err(stopped) => Ok(Err(stopped)),
    }
}

/// A run with a library in which nothing is.
fn splice<R: Read + Drop, O: Write + Drop>(
    alloc: Global,
    is_live: bool,
    input: R,
    output: O,
) -> Result<Result<(), Stopped>, Fail> {
    let Ok(config) = Config::new(1, Pid::new(0x1F0).ok_or("a PID")?, 1) else {
        return Err(Fail::from("a configuration"));
    };
    let options = SpliceOptions {
        config,
        network: End::Standard,
        adverts: End::Standard,
        output: End::Standard,
        events: End::Lines,
        is_on_air: false,
        is_quiet: false,
        is_verbose: false,
    };
    let library = AdLibrary::new(alloc);
    let passage = Splicing {
        options: &options,
        library: &library,
        watch: Unheard,
    };
    let mut output = output;
    match run_from(
        alloc,
        passage,
        &mut Unasked,
        None,
        is_live,
        input,
        &mut output,
    ) {
        Ok(_) => Ok(Ok(())),
        Err(stopped) => Ok(Err(stopped)),
    }
}

/// Passes the packets on.
fn pass<R: Read + Drop, O: Write + Drop>(
    alloc: Global,
    kind: Kind,
    is_live: bool,
    input: R,
    output: O,
) -> Result<Result<(), Stopped>, Fail> {
    match kind {
        Kind::Cut => cut(alloc, is_live, input, output),
        Kind::Splice => splice(alloc, is_live, input, output),
    }
}

/// A live run: each packet that came in is out before the next read, by one write for all that a read brought.
fn expect_out<R: AllocGlobal + Abort>(rt: &R, kind: Kind) -> Result<(), Fail> {
    let network = null_packets(rt.alloc(), 10)?;
    let sizes = pauses(rt.alloc())?;
    let record = Record::new();
    let mut input = RecordedSource::new(rt.alloc(), &network, &sizes, &record);
    let never = Failing::never();
    let mut output = RecordedTarget::new(rt.alloc(), &record, never, never);
    let ended = pass(rt.alloc(), kind, true, &mut input, &mut output)?;
    let Ok(()) = ended else {
        return Err(Fail::from("a run that stopped"));
    };
    expect_prompt(rt, input.moments(), 188);
    assert_eq!(*rt; input.moments().len(), 192, "{kind:?}");
    assert_eq!(*rt; record.moment().given, 1_880, "{kind:?}");
    assert_eq!(*rt; record.moment().writes, 4, "{kind:?}");
    assert!(*rt; output.taken() == network.as_slice(), "{kind:?}");
    assert_eq!(*rt; output.flushed().len(), 5, "{kind:?}");
    Ok(())
}

#[test]
fn what_came_in_is_out_before_a_pause(rt: HostRuntime) -> Result<(), Fail> {
    for kind in KINDS {
        expect_out(&rt, kind)?;
    }
    Ok(())
}

/// A live run whose calls fail so: it stops with `Io` at its output, so many bytes are out, a front of the packets, and nothing is read
/// behind the failure.
fn expect_stop<R: AllocGlobal + Abort>(
    rt: &R,
    kind: Kind,
    writes: Failing,
    flushes: Failing,
    size: usize,
) -> Result<(), Fail> {
    let network = null_packets(rt.alloc(), 10)?;
    let sizes = pauses(rt.alloc())?;
    let record = Record::new();
    let mut input = RecordedSource::new(rt.alloc(), &network, &sizes, &record);
    let mut output = RecordedTarget::new(rt.alloc(), &record, writes, flushes);
    let ended = pass(rt.alloc(), kind, true, &mut input, &mut output)?;
    let place = writes.first.max(flushes.first);
    let Err(stopped) = ended else {
        return Err(Fail::from("a run that went through"));
    };
    assert_eq!(rt; fault_name(stopped.fault), "Io", "{kind:?} {place}");
    assert!(rt; stopped.side == Side::Writing, "{kind:?} {place}");
    assert!(rt; stopped.reason.is_some(), "{kind:?} {place}");
    assert_eq!(rt; output.taken().len(), size, "{kind:?} {place}");
    assert!(rt;
        network.as_slice().starts_with(output.taken()),
        "{kind:?} {place}"
    );
    assert_eq!(rt; input.late_reads(), 0, "{kind:?} {place}");
    Ok(())
}

/// A write that fails alone loses nothing that came in before it: its bytes go out at the end. Behind one that fails for good nothing goes
/// out.
#[test]
fn each_write_of_a_live_run_fails_in_turn(rt: HostRuntime) -> Result<(), Fail> {
    let never = Failing::never();
    for kind in KINDS {
        let mut before = 0;
        for (place, size) in [1_316, 1_504, 1_692, 1_880].iter().enumerate() {
            expect_stop(&rt, kind, Failing::once(place), never, *size)?;
            expect_stop(&rt, kind, Failing::from(place), never, before)?;
            before = *size;
        }
    }
    Ok(())
}

/// The flushes of a live run stand before the reads that may wait, and one at the end.
#[test]
fn each_flush_of_a_live_run_fails_in_turn(rt: HostRuntime) -> Result<(), Fail> {
    let never = Failing::never();
    for kind in KINDS {
        let sizes = [1_316, 1_504, 1_692, 1_880, 1_880];
        for (place, size) in sizes.iter().enumerate() {
            expect_stop(&rt, kind, never, Failing::once(place), *size)?;
            expect_stop(&rt, kind, never, Failing::from(place), *size)?;
        }
    }
    Ok(())
}

/// The lines of null packets, each with its number in its digits.
fn null_lines(alloc: Global, count: u8) -> Result<Vec<u8>, AllocError> {
    let mut text = Vec::new(alloc);
    for number in 0..count {
        text.extend_from_slice(b"471FFF10")?;
        for _ in 8..376 {
            text.push(b'0' + number % 10)?;
        }
        text.push(b'\n')?;
    }
    Ok(text)
}

/// Two lines come at once, then a line in two pieces, then the rest: each line is answered before more is read.
#[test]
fn lines_are_answered_before_a_pause(rt: HostRuntime) -> Result<(), Fail> {
    let text = null_lines(rt.alloc(), 6)?;
    let record = Record::new();
    let sizes = [754, 100, 277, 376, 1];
    let mut input = RecordedSource::new(rt.alloc(), &text, &sizes, &record);
    let never = Failing::never();
    let mut output = RecordedTarget::new(rt.alloc(), &record, never, never);
    let mut faults = Vec::new(rt.alloc());
    let words = ["cut", "--pid", "256", "--from", "0", "--length", "1"];
    let status = program(&rt, &words, &mut input, &mut output, &mut faults);
    assert_eq!(rt; status, 0);
    expect_prompt(&rt, input.moments(), 377);
    assert_eq!(rt; record.moment().writes, 4);
    assert!(rt; output.taken() == text.as_slice());
    Ok(())
}
