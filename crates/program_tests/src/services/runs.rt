//! Runs of services over streams made by hand, and the parts of which these are made.

use ad_library::AdLibrary;
use automations::Script;
use chain_engine::RunFault;
use chain_services::{ServiceEvents, ServiceReport, Services, run_services};
use psi_tables::Config;
use splice_plans::SwitchReport;
use std::alloc::Global;
use std::test::Fail;
use ts_packet::{Device, PacketReader, PacketWriter, Pid};
use two_program_streams::Item::*;
use two_program_streams::{Item, Stream};

/// Video of the first program.
pub(crate) const ONE: u16 = 0x100;

/// Video of the second program.
pub(crate) const TWO: u16 = 0x110;

/// How far the clock of the second program is ahead of the first one's: half a turn.
pub(crate) const AHEAD: u64 = 1 << 32;

/// Two programs: both have a unit at 900,000 of their own clock before packet 5.
pub(crate) const NETWORK: &[Item] = &[
    Pat,
    Map(1, &[ONE]),
    Map(2, &[TWO]),
    Unit(ONE, 900_000),
    Unit(TWO, AHEAD + 900_000),
    Unit(ONE, 1_200_000),
    Unit(TWO, AHEAD + 1_200_000),
    Unit(ONE, 1_300_000),
    Unit(TWO, AHEAD + 1_300_000),
    Unit(ONE, 1_900_000),
    Unit(TWO, AHEAD + 1_900_000),
    Unit(ONE, 2_200_000),
    Unit(TWO, AHEAD + 2_200_000),
];

/// It with the breaks from 1,260,000 to 2,160,000 of both programs.
pub(crate) const BOTH_PLAYED: &[Item] = &[
    Pat,
    Map(1, &[ONE]),
    Map(2, &[TWO]),
    Unit(ONE, 900_000),
    Unit(TWO, AHEAD + 900_000),
    Unit(ONE, 1_200_000),
    Unit(TWO, AHEAD + 1_200_000),
    Ad(ONE, 1_260_000),
    Ad(TWO, AHEAD + 1_260_000),
    Ad(ONE, 1_560_000),
    Ad(ONE, 1_860_000),
    Ad(TWO, AHEAD + 1_560_000),
    Ad(TWO, AHEAD + 1_860_000),
    Ad(ONE, 2_115_000),
    Unit(ONE, 2_200_000),
    Ad(TWO, AHEAD + 2_115_000),
    Unit(TWO, AHEAD + 2_200_000),
];

/// It with that of the first program alone.
pub(crate) const FIRST_PLAYED: &[Item] = &[
    Pat,
    Map(1, &[ONE]),
    Map(2, &[TWO]),
    Unit(ONE, 900_000),
    Unit(TWO, AHEAD + 900_000),
    Unit(ONE, 1_200_000),
    Unit(TWO, AHEAD + 1_200_000),
    Ad(ONE, 1_260_000),
    Unit(TWO, AHEAD + 1_300_000),
    Ad(ONE, 1_560_000),
    Ad(ONE, 1_860_000),
    Unit(TWO, AHEAD + 1_900_000),
    Ad(ONE, 2_115_000),
    Unit(ONE, 2_200_000),
    Unit(TWO, AHEAD + 2_200_000),
];

/// An advertisement that is long enough for these breaks.
pub(crate) const ADVERT: &[Item] = &[
    Pat,
    Map(1, &[ONE]),
    Ad(ONE, 90_000),
    Ad(ONE, 390_000),
    Ad(ONE, 690_000),
    Ad(ONE, 945_000),
];

/// Before packet 5 a break of index 1 is asked for: event 1, in 4 seconds, for 10, with advertisement 7.
pub(crate) const FIRST: &str = "5 FFFF001E00000500010000010101000E010000000100070FA00064000001\n";

/// Likewise of index 1 and of index 2, in one piece.
pub(crate) const BOTH: &str =
    "5 FFFF001E00000500010000010101000E010000000100070FA00064000001FFFF001E00000600020000010101000E010000000100070FA00064000001\n";

/// Likewise of index 3.
pub(crate) const THIRD: &str = "5 FFFF001E00000500030000010101000E010000000100070FA00064000001\n";

/// The service of this program, with this PID for cues and this index.
pub(crate) fn service(program: u16, cue_pid: u16, index: u16) -> Result<Config, Fail> {
    let cue_pid = Pid::new(cue_pid).ok_or("a PID")?;
    match Config::new(program, cue_pid, index) {
        Ok(config) => Ok(config),
        Err(_) => Err(Fail::from("a service")),
    }
}

/// The services of both programs.
pub(crate) fn both_services() -> Result<[Config; 2], Fail> {
    Ok([service(1, 0x1F0, 1)?, service(2, 0x1F1, 2)?])
}

/// A library that has the advertisement as 7.
fn library(alloc: Global) -> Result<AdLibrary, Fail> {
    let mut library = AdLibrary::new(alloc);
    let stream = Stream::of(alloc, ADVERT)?;
    let mut device = Device::new(stream.bytes());
    let mut reader = PacketReader::new(&mut device);
    if library.add(7, &mut reader).is_err() {
        return Err(Fail::from("an advertisement"));
    }
    Ok(library)
}

/// How a run ends, what is out, and the replies as printed.
#[derive(Drop)]
pub(crate) struct Outcome {
    pub(crate) ended: Result<ServiceReport, RunFault>,
    pub(crate) out: Vec<u8>,
    pub(crate) replies: Vec<u8>,
}

/// Runs these services over this network with this script, each with the advertisement.
pub(crate) fn run(
    alloc: Global,
    configs: &[Config],
    network: &[u8],
    script: &str,
) -> Result<Outcome, Fail> {
    let Ok(services) = Services::new(alloc, configs) else {
        return Err(Fail::from("services"));
    };
    let mut libraries = Vec::new(alloc);
    for _ in configs {
        libraries.push(library(alloc)?)?;
    }
    if libraries.len() != services.count() {
        return Err(Fail::from("a library for each service"));
    }
    let mut replies = Vec::new(alloc);
    let mut text = Device::new(script.as_bytes());
    let Ok(mut script) = Script::load(alloc, &mut text, &mut replies) else {
        return Err(Fail::from("a script"));
    };
    let mut input = Device::new(network);
    let mut packets = PacketReader::new(&mut input);
    let mut target = Device::new(Vec::new(alloc));
    let mut out = PacketWriter::new(&mut target);
    let ended = run_services(
        services,
        &mut packets,
        &mut script,
        libraries.as_slice(),
        &mut out,
    );
    drop(script);
    Ok(Outcome {
        ended,
        out: target.into_inner(),
        replies,
    })
}

/// What a switch counted where this many breaks were played, and nothing else was met.
pub(crate) fn played(number: u16, count: u64) -> ServiceEvents {
    ServiceEvents {
        index: number,
        program: number,
        switch: SwitchReport {
            played: count,
            not_fitted: 0,
            unconditioned: 0,
            ignored: 0,
        },
    }
}
