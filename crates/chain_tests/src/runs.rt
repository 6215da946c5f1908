//! Runs over streams made by hand, and what is expected of them.

use crate::item::Item;
use crate::item::Item::*;
use crate::stream::Stream;
use ad_library::AdLibrary;
use chain_engine::{RunFault, run_splice};
use psi_tables::Config;
use splice_switch::SwitchReport;
use std::alloc::{AllocError, Global};
use std::process::Abort;
use std::test::Fail;
use ts_packet::{Device, PacketReader, PacketWriter, Pid};

/// Program 1 with cues on PID 0x1F0 and index 1.
pub(crate) fn config() -> Result<Config, Fail> {
    match Config::new(1, Pid::of_bits(0x01, 0xF0), 1) {
        Ok(config) => Ok(config),
        Err(_) => Err(Fail::from("a configuration")),
    }
}

/// An advertisement: its number, and its stream.
pub(crate) type Filed = (u16, &'static [Item]);

/// Advertisement 7: units of offset 0, 300,000, 600,000 and 855,000, enough for a break of 900,000.
pub(crate) const SEVEN: &[Filed] = &[(
    7,
    &[Pat, Map, Ad(90_000), Ad(390_000), Ad(690_000), Ad(945_000)],
)];

/// The library of these advertisements.
pub(crate) fn library(alloc: Global, filed: &[Filed]) -> Result<AdLibrary, Fail> {
    let mut library = AdLibrary::new(alloc);
    for (id, items) in filed {
        let stream = Stream::of(alloc, items)?;
        let mut device = Device::new(stream.bytes());
        let mut reader = PacketReader::new(&mut device);
        if library.add(*id, &mut reader).is_err() {
            return Err(Fail::from("an advertisement"));
        }
    }
    Ok(library)
}

/// How `run_splice` ends over these bytes, and what is out.
pub(crate) fn spliced(
    alloc: Global,
    network: &[u8],
    library: &AdLibrary,
) -> Result<(Result<SwitchReport, RunFault>, Vec<u8>), Fail> {
    let mut input = Device::new(network);
    let mut reader = PacketReader::new(&mut input);
    let mut target = Device::new(Vec::new(alloc));
    let mut out = PacketWriter::new(&mut target);
    let outcome = run_splice(config()?, &mut reader, library, &mut out);
    Ok((outcome, target.into_inner()))
}

/// The first packet that differs in these, from 0 on, or none.
pub(crate) fn difference(got: &[u8], want: &[u8]) -> Option<usize> {
    let differs = got
        .chunks(188)
        .zip(want.chunks(188))
        .position(|(a, b)| a != b);
    if differs.is_none() && got.len() != want.len() {
        return Some(got.len().min(want.len()) / 188);
    }
    differs
}

/// What a run is expected to make of a network.
#[derive(Clone, Copy)]
pub(crate) struct Row {
    pub(crate) name: &'static str,
    pub(crate) network: &'static [Item],
    pub(crate) want: &'static [Item],
    /// Events played, not fitted and unconditioned, and cues ignored.
    pub(crate) report: [u64; 4],
}

/// A run over this network ends well, with this output and this report.
pub(crate) fn expect_splice<R: AllocGlobal + Abort>(
    rt: &R,
    name: &str,
    network: &[u8],
    library: &AdLibrary,
    want: &[u8],
    report: [u64; 4],
) -> Result<(), Fail> {
    let (outcome, got) = spliced(rt.alloc(), network, library)?;
    // The first packet that differs is told.
    expect_eq!(*rt; (name, difference(got.as_slice(), want)), (name, None));
    let Ok(told) = outcome else {
        return Err(Fail::from("a run"));
    };
    let counts = [
        told.played,
        told.not_fitted,
        told.unconditioned,
        told.ignored,
    ];
    expect_eq!(*rt; (name, counts), (name, report));
    Ok(())
}

/// Each row is as expected.
pub(crate) fn expect_rows<R: AllocGlobal + Abort>(
    rt: &R,
    filed: &[Filed],
    rows: &[Row],
) -> Result<(), Fail> {
    let library = library(rt.alloc(), filed)?;
    for row in rows {
        let network = Stream::of(rt.alloc(), row.network)?;
        let want = Stream::of(rt.alloc(), row.want)?;
        expect_splice(
            rt,
            row.name,
            network.bytes(),
            &library,
            want.bytes(),
            row.report,
        )?;
    }
    Ok(())
}
