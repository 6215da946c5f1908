//! Files standard input as an advertisement, puts its units into packets, with their stamps moved, as often as the first argument says, and
//! writes the last packets to standard output: the program by which `bench/library` times the library of advertisements and `put_moved`.
#![tactic(auto)]

ghost use Rattle.std.specs.Prelude.{◌≡◌, OnOk};
ghost use Rattle.ts_packet.specs.Transfers.{WentWell};

use ad_library::{AdFault, AdLibrary};
use pes_time::Time33;
use std::alloc::Global;
use std::env;
use std::io::{self, BufReader, Read, Write};
use std::process::ExitCode;
use ts_packet::{Buffered, Counter, Device, PacketReader, PacketSink, PacketWriter, Pid, PutFault};
use unit_packing::put_moved;

/// How many bytes are read at a time.
const BUFFER_SIZE: usize = 131_072;

/// The number of the advertisement.
const ID: u16 = 1;

/// Video and audio, as their stream_types have it, and the second byte of each one's PID.
const STREAMS: [(u8, u8); 2] = [(0x1B, 0), (0x0F, 1)];

/// Files the advertisement of a stream.
fn file<I: Read + Drop>(alloc: Global, library: &mut AdLibrary, input: I) -> Result<(), AdFault> {
    let Ok(reader) = BufReader::with_capacity(alloc, BUFFER_SIZE, input) else {
        return Err(AdFault::OutOfMemory);
    };
    let mut device = Buffered::new(reader);
    let mut packets = PacketReader::new(&mut device);
    match library.add(ID, &mut packets) {
        Ok(()) => Ok(()),
        Err(fault) => Err(fault),
    }
}

/// How far the stamps are moved.
fn delta() -> Time33
    ensures { result ≡ 1_234_567 }
{
    match Time33::new(1_234_567) {
        Some(delta) => delta,
        None => unreachable!(),
    }
}

/// Puts all units of the first stream of a type on this PID.
fn put_stream<S: PacketSink>(
    library: &AdLibrary,
    kind: u8,
    pid: Pid,
    sink: &mut S,
) -> Result<(), PutFault>
    ensures leads { S.leads sink.old sink.new }
    ensures well { OnOk result (WentWell (S.counts sink.old) (S.counts sink.new)) }
{
    let Some(mut units) = library.slice(ID, kind, 0, u64::MAX) else {
        return Ok(());
    };
    let mut counter = Counter::new();
    for _ in 0..units.most() {
        let Some(unit) = units.next() else {
            return Ok(());
        };
        match put_moved(
            unit.bytes,
            &unit.head,
            delta(),
            unit.random_access,
            pid,
            &mut counter,
            sink,
        ) {
            Ok(()) => {}
            Err(fault) => return Err(fault),
        }
    }
    Ok(())
}

/// Puts the units of the advertisement so often, and answers the packets of the last time.
fn put_often(library: &AdLibrary, rounds: u32, list: Vec<u8>) -> Result<Vec<u8>, PutFault> {
    let mut device = Device::new(list);
    for _round in 0..rounds {
        let mut list = device.into_inner();
        list.clear();
        device = Device::new(list);
        let mut sink = PacketWriter::new(&mut device);
        for (kind, place) in STREAMS {
            let pid = Pid::of_bits(1, place);
            match put_stream(library, kind, pid, &mut sink) {
                Ok(()) => {}
                Err(fault) => return Err(fault),
            }
        }
    }
    Ok(device.into_inner())
}

/// Does it all, and writes a fault to standard error.
fn run(rt: &HostRuntime) -> io::Result<u8> {
    let words: Vec<String> = env::args(rt)?.skip(1).collect(rt.alloc())?;
    let rounds = match words.first() {
        None => 1,
        Some(word) => word.parse::<u32>().unwrap_or(1),
    };
    let mut library = AdLibrary::new(rt.alloc());
    if let Err(fault) = file(rt.alloc(), &mut library, rt.stdin()) {
        writeln!(&mut rt.stderr(), "{fault}")?;
        return Ok(1);
    }
    match put_often(&library, rounds, Vec::new(rt.alloc())) {
        Ok(list) => {
            rt.stdout().write_all(list.as_slice())?;
            Ok(0)
        }
        Err(fault) => {
            writeln!(&mut rt.stderr(), "{fault}")?;
            Ok(1)
        }
    }
}

fn main(rt: HostRuntime) -> ExitCode {
    match run(&rt) {
        Ok(status) => ExitCode::from(status),
        Err(_) => ExitCode::from(1),
    }
}
