//! Runs on air of services over streams made by hand, and the parts of which these are made.

use ad_library::AdLibrary;
use automations::Script;
use chain_engine::{Chain, Report, RunFault, Service};
use chain_services::{ServiceEvents, ServiceReport};
use on_air::{AirReport, AirWatch, Begun, run_on_air};
use psi_tables::{Config, FeedFault, NetworkFault};
use services_on_air::{AirServices, ServiceBegun, ServicesWatch, Shown, run_services_on_air};
use splice_plans::SwitchReport;
use std::alloc::Global;
use std::test::Fail;
use ts_packet::{Device, Packet, PacketReader, PacketWriter, Pid};
use two_program_streams::Item::*;
use two_program_streams::{Item, Stream};

/// Video of the first program.
pub(crate) const ONE: u16 = 0x100;

/// Video of the second program.
pub(crate) const TWO: u16 = 0x110;

/// How far the clock of the second program is ahead of the first one's: half a turn.
pub(crate) const AHEAD: u64 = 1 << 32;

/// An advertisement that is long enough for a break of ten seconds.
const ADVERT: &[Item] = &[
    Pat,
    Map(1, &[ONE]),
    Ad(ONE, 90_000),
    Ad(ONE, 390_000),
    Ad(ONE, 690_000),
    Ad(ONE, 945_000),
];

/// Before packet 5 a break of index 1 and one of index 2 are asked for, in one piece: event 1, in 4 seconds, for 10, with advertisement 7.
pub(crate) const BOTH: &str =
    "5 FFFF001E00000500010000010101000E010000000100070FA00064000001FFFF001E00000600020000010101000E010000000100070FA00064000001\n";

/// The replies where both are accepted.
pub(crate) const BOTH_ACCEPTED: &str =
    "reply 0007000E0064FFFF000005000105\nreply 0007000E0064FFFF000006000206\n";

/// The replies where the second program has no time yet.
pub(crate) const SECOND_WITHOUT_CLOCK: &str =
    "reply 0007000E0064FFFF000005000105\nreply 0007000E800EFFFF000006000206\n";

/// The service of this program, with this PID for cues and this index.
pub(crate) fn service(program: u16, cue_pid: u16, index: u16) -> Result<Config, Fail> {
    let cue_pid = Pid::new(cue_pid).ok_or("a PID")?;
    match Config::new(program, cue_pid, index) {
        Ok(config) => Ok(config),
        Err(_) => Err(Fail::from("a service")),
    }
}

/// The services of both programs.
pub(crate) fn both_services() -> Result<[Config; 2], Fail> {
    Ok([service(1, 0x1F0, 1)?, service(2, 0x1F1, 2)?])
}

/// A library that has the advertisement as 7.
fn library(alloc: Global) -> Result<AdLibrary, Fail> {
    let mut library = AdLibrary::new(alloc);
    let stream = Stream::of(alloc, ADVERT)?;
    let mut device = Device::new(stream.bytes());
    let mut reader = PacketReader::new(&mut device);
    if library.add(7, &mut reader).is_err() {
        return Err(Fail::from("an advertisement"));
    }
    Ok(library)
}

/// What was told of a run: the stretch that began last, how many did, and the packets that were left unjudged, the last eight.
#[derive(Clone, Copy, Debug, PartialEq, Eq, Drop)]
pub(crate) struct Told {
    pub(crate) last: Option<ServiceBegun>,
    pub(crate) begun: u32,
    pub(crate) unjudged: [u64; 8],
}

impl Told {
    /// Nothing was told.
    pub(crate) fn nothing() -> Told {
        Told {
            last: None,
            begun: 0,
            unjudged: [0; 8],
        }
    }

    /// Of the packets of these numbers, the last one first, and zeros behind them.
    pub(crate) fn of_unjudged(packets: &[u64]) -> Told {
        let mut told = Told::nothing();
        let size = packets.len().min(8);
        told.unjudged[..size].copy_from_slice(&packets[..size]);
        told
    }

    fn keep_begun(&mut self, begun: ServiceBegun) {
        self.last = Some(begun);
        self.begun = self.begun.saturating_add(1);
    }

    fn keep_unjudged(&mut self, packet: u64) {
        for place in 0..7 {
            self.unjudged[7 - place] = self.unjudged[6 - place];
        }
        self.unjudged[0] = packet;
    }
}

impl ServicesWatch for Told {
    fn begun(&mut self, begun: &ServiceBegun) {
        self.keep_begun(*begun);
    }

    fn unjudged(&mut self, packet: u64) {
        self.keep_unjudged(packet);
    }

    fn looks(&mut self, _packet: &Packet, _turns: u64) -> bool {
        false
    }

    fn shown(&mut self, _service: &Service, _library: &AdLibrary, _shown: Shown<'_>) {}

    fn ended(&mut self, _program: u16, _report: &SwitchReport, _lost: u64) {}
}

/// Of one chain as of a service of program 1.
impl AirWatch for Told {
    fn begun(&mut self, begun: &Begun) {
        self.keep_begun(ServiceBegun {
            program: 1,
            stretch: begun.stretch,
            packet: begun.packet,
            pid: begun.pid,
            fault: of_network(begun.fault),
        });
    }

    fn unjudged(&mut self, packet: u64) {
        self.keep_unjudged(packet);
    }
}

/// The fault of a run for a packet of its network.
pub(crate) fn of_network(fault: NetworkFault) -> RunFault {
    RunFault::Feed(FeedFault::Network(fault))
}

/// What a run reports, what is out, the replies as printed, and what was told meanwhile.
#[derive(Drop)]
pub(crate) struct Outcome<R> {
    pub(crate) report: AirReport<R>,
    pub(crate) out: Vec<u8>,
    pub(crate) replies: Vec<u8>,
    pub(crate) told: Told,
}

/// Runs these services on air over this network with this script, each with the advertisement.
pub(crate) fn run(
    alloc: Global,
    configs: &[Config],
    network: &[u8],
    script: &str,
) -> Result<Outcome<ServiceReport>, Fail> {
    let Ok(services) = AirServices::new(alloc, configs) else {
        return Err(Fail::from("services"));
    };
    let mut libraries = Vec::new(alloc);
    for _ in configs {
        libraries.push(library(alloc)?)?;
    }
    let mut replies = Vec::new(alloc);
    let mut text = Device::new(script.as_bytes());
    let Ok(mut script) = Script::load(alloc, &mut text, &mut replies) else {
        return Err(Fail::from("a script"));
    };
    let mut input = Device::new(network);
    let mut packets = PacketReader::new(&mut input);
    let mut target = Device::new(Vec::new(alloc));
    let mut out = PacketWriter::new(&mut target);
    let mut told = Told::nothing();
    let libraries = libraries.as_slice();
    let ended = run_services_on_air(
        services,
        &mut packets,
        &mut script,
        libraries,
        &mut out,
        &mut told,
    );
    drop(script);
    match ended {
        Ok(report) => Ok(Outcome {
            report,
            out: target.into_inner(),
            replies,
            told,
        }),
        Err(_) => Err(Fail::from("a run")),
    }
}

/// Runs one chain on air, likewise.
pub(crate) fn run_alone(
    alloc: Global,
    config: Config,
    network: &[u8],
    script: &str,
) -> Result<Outcome<Report>, Fail> {
    let Ok(chain) = Chain::new(alloc, config) else {
        return Err(Fail::from("memory"));
    };
    let library = library(alloc)?;
    let mut replies = Vec::new(alloc);
    let mut text = Device::new(script.as_bytes());
    let Ok(mut script) = Script::load(alloc, &mut text, &mut replies) else {
        return Err(Fail::from("a script"));
    };
    let mut input = Device::new(network);
    let mut packets = PacketReader::new(&mut input);
    let mut target = Device::new(Vec::new(alloc));
    let mut out = PacketWriter::new(&mut target);
    let mut told = Told::nothing();
    let ended = run_on_air(
        chain,
        &mut packets,
        &mut script,
        &library,
        &mut out,
        &mut told,
    );
    drop(script);
    match ended {
        Ok(report) => Ok(Outcome {
            report,
            out: target.into_inner(),
            replies,
            told,
        }),
        Err(_) => Err(Fail::from("a run")),
    }
}

/// What a switch counted where this many breaks were played, and nothing else was met.
pub(crate) fn played(number: u16, count: u64) -> ServiceEvents {
    ServiceEvents {
        index: number,
        program: number,
        switch: SwitchReport {
            played: count,
            not_fitted: 0,
            unconditioned: 0,
            ignored: 0,
        },
    }
}
