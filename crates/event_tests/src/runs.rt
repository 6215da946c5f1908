//! Runs over streams made by hand, of which is told.

use crate::stream::Item::*;
use crate::stream::{AAC, AVC, Item, Stream};
use ad_library::AdLibrary;
use automations::Script;
use chain_engine::Chain;
use chain_services::Services;
use event_logs::{EventLog, Listening, Telling, Warnings};
use on_air::Unwatched;
use psi_tables::Config;
use run_events::{
    HeardAutomation, Hearing, Overheard, inject_told, run_told, run_told_on_air, services_told,
    services_told_on_air, splice_told,
};
use services_on_air::AirServices;
use std::alloc::Global;
use std::cell::RefCell;
use std::process::Abort;
use std::test::Fail;
use ts_packet::{Device, PacketReader, PacketWriter, Pid};

/// The video of program 1.
pub(crate) const VIDEO: u16 = 0x100;

/// Its sound.
pub(crate) const SOUND: u16 = 0x101;

/// An advertisement of ten seconds.
pub(crate) const ADVERT: &[Item] = &[
    Pat,
    Map(1, &[(AVC, VIDEO), (AAC, SOUND)]),
    Point(VIDEO, 90_000),
    Unit(SOUND, 90_000),
    Unit(VIDEO, 390_000),
    Unit(SOUND, 390_000),
    Unit(VIDEO, 690_000),
    Unit(SOUND, 690_000),
    Unit(VIDEO, 945_000),
    Unit(SOUND, 945_000),
];

/// What is run.
#[derive(Clone, Copy)]
pub(crate) enum Kind {
    Inject,
    Splice,
    Run,
    RunOnAir,
    Services,
    ServicesOnAir,
    /// A service of program 3, on air.
    OtherOnAir,
    /// A run of program 3.
    Other,
    /// A service of program 3.
    OtherService,
}

/// What was told of a run.
#[derive(Drop)]
pub(crate) struct Outcome {
    /// The lines of its log.
    pub(crate) log: Vec<u8>,
    /// Its warnings.
    pub(crate) warned: Vec<u8>,
    /// The packets that went out.
    pub(crate) out: Vec<u8>,
}

/// A library that has this advertisement as 7.
fn library(alloc: Global, advert: &[Item]) -> Result<AdLibrary, Fail> {
    let mut library = AdLibrary::new(alloc);
    let stream = Stream::of(alloc, advert)?;
    let mut device = Device::new(stream.bytes());
    let mut reader = PacketReader::new(&mut device);
    if library.add(7, &mut reader).is_err() {
        return Err(Fail::from("an advertisement"));
    }
    Ok(library)
}

/// The service of this program, with cues on PID 496 of program 1, 498 of program 3, and the program's number as index.
pub(crate) fn config(program: u16) -> Result<Config, Fail> {
    let pid = Pid::new(495u16.wrapping_add(program)).ok_or("a PID")?;
    match Config::new(program, pid, program) {
        Ok(config) => Ok(config),
        Err(_) => Err(Fail::from("a configuration")),
    }
}

/// Who hears of these runs.
type Heard = RefCell<Telling<Vec<u8>, Vec<u8>>>;

/// Runs between these.
fn pass<'a>(
    alloc: Global,
    kind: Kind,
    advert: &[Item],
    input: &[u8],
    script: &mut Script<&'a mut Vec<u8>>,
    out: &mut Device<Vec<u8>>,
    told: &Heard,
) -> Result<bool, Fail> {
    let library = library(alloc, advert)?;
    let listening = Listening::new(told);
    let hearing = &mut Hearing {
        watch: listening,
        overheard: Some(Overheard::new_in(alloc)?),
    };
    let mut heard = HeardAutomation::new(script, hearing);
    let mut device = Device::new(input);
    let mut packets = PacketReader::new(&mut device);
    let mut writer = PacketWriter::new(out);
    let (one, three) = (config(1)?, config(3)?);
    let libraries = [library];
    let is_other = matches!(kind, Kind::Other | Kind::OtherService | Kind::OtherOnAir);
    let own = if is_other { three } else { one };
    let Ok(chain) = Chain::new(alloc, own) else {
        return Err(Fail::from("memory"));
    };
    Ok(match kind {
        Kind::Inject => inject_told(
            chain,
            &mut packets,
            &mut heard,
            &mut writer,
            listening,
        ).is_ok(),
        Kind::Splice => {
            splice_told(one, &mut packets, &libraries[0], &mut writer, listening).is_ok()
        }
        Kind::Run | Kind::Other => run_told(
            chain,
            &mut packets,
            &mut heard,
            &libraries[0],
            &mut writer,
            listening,
        )
        .is_ok(),
        Kind::RunOnAir => run_told_on_air(
            chain,
            &mut packets,
            &mut heard,
            &libraries[0],
            &mut writer,
            &mut Unwatched,
            listening,
        )
        .is_ok(),
        Kind::Services | Kind::OtherService => {
            let Ok(services) = Services::new(alloc, &[own]) else {
                return Err(Fail::from("services"));
            };
            services_told(
                services,
                &mut packets,
                &mut heard,
                &libraries,
                &mut writer,
                listening,
            )
            .is_ok()
        }
        Kind::ServicesOnAir | Kind::OtherOnAir => {
            let Ok(services) = AirServices::new(alloc, &[own]) else {
                return Err(Fail::from("services"));
            };
            services_told_on_air(
                services,
                &mut packets,
                &mut heard,
                &libraries,
                &mut writer,
                &mut Unwatched,
                listening,
            )
            .is_ok()
        }
    })
}

/// Runs a network of these bytes, with this advertisement listed as 7 and this script.
pub(crate) fn run_bytes(
    alloc: Global,
    kind: Kind,
    advert: &[Item],
    network: &[u8],
    script: &str,
) -> Result<Outcome, Fail> {
    let mut replies = Vec::new(alloc);
    let mut text = Device::new(script.as_bytes());
    let Ok(mut script) = Script::load(alloc, &mut text, &mut replies) else {
        return Err(Fail::from("a script"));
    };
    let mut out = Device::new(Vec::new(alloc));
    let told = RefCell::new(Telling::new(
        Some(EventLog::new(Vec::new(alloc))),
        Some(Warnings::new()),
        Some(Vec::new(alloc)),
    ));
    if !pass(alloc, kind, advert, network, &mut script, &mut out, &told)? {
        return Err(Fail::from("a run"));
    }
    drop(script);
    let (log, warnings) = told.into_inner().into_parts();
    let (Some(log), Some(warnings)) = (log, warnings) else {
        return Err(Fail::from("a log and warnings"));
    };
    let mut warned = Vec::new(alloc);
    warnings.print(&mut warned);
    Ok(Outcome {
        log: log.into_stream(),
        warned,
        out: out.into_inner(),
    })
}

/// Runs a network of these items, likewise.
pub(crate) fn run(
    alloc: Global,
    kind: Kind,
    network: &[Item],
    script: &str,
) -> Result<Outcome, Fail> {
    let network = Stream::of(alloc, network)?;
    run_bytes(alloc, kind, ADVERT, network.bytes(), script)
}

/// These bytes as text.
fn text_of(bytes: &[u8]) -> &str {
    match str::from_utf8(bytes) {
        Ok(text) => text,
        Err(_) => "no text",
    }
}

/// The log and the warnings are these.
pub(crate) fn expect<R: Abort>(rt: &R, outcome: &Outcome, log: &str, warned: &str) {
    assert_eq!(rt; text_of(outcome.log.as_slice()), log);
    assert_eq!(rt; text_of(outcome.warned.as_slice()), warned);
}
