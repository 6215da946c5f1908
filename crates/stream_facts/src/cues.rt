//! The cues on the air.

use crate::facts::CueFacts;
use psi_section::Assembler;
use psi_tables::Pmt;
use std::alloc::{AllocError, Global};
use ts_packet::{Packet, Pid};

/// The stream_type of cues (ANSI/SCTE 35).
const CUES: u8 = 0x86;

/// The reader of a PID of cues.
#[derive(Drop)]
struct CueReader {
    pid: Pid,
    assembler: Assembler,
}

/// The cues so far.
#[derive(Drop)]
pub struct CueList {
    readers: Vec<CueReader>,
    cues: Vec<CueFacts>,
}

impl CueList {
    /// None yet.
    pub fn new(alloc: Global) -> CueList {
        CueList {
            readers: Vec::new(alloc),
            cues: Vec::new(alloc),
        }
    }

    /// The cues, in order.
    pub fn into_cues(self) -> Vec<CueFacts> {
        let CueList { readers: _, cues } = self;
        cues
    }

    /// Reads on the PIDs on which a map lists cues from now on.
    ///
    /// # Errors
    ///
    /// Where the allocator refused memory.
    pub fn follow(&mut self, map: &Pmt<'_>) -> Result<(), AllocError> {
        for stream in map.entries() {
            if stream.kind == CUES {
                read_on(&mut self.readers, stream.pid)?;
            }
        }
        Ok(())
    }

    /// Takes the next packet of the stream, before which so many stand.
    ///
    /// # Errors
    ///
    /// Where the allocator refused memory.
    pub fn feed(&mut self, alloc: Global, packet: &Packet, before: u64) -> Result<(), AllocError> {
        for reader in self.readers.iter_mut() {
            if packet.is_on(reader.pid) {
                take(alloc, reader, packet, before, &mut self.cues)?;
            }
        }
        Ok(())
    }
}

/// Reads on a PID from now on, if it is not one that is read.
fn read_on(readers: &mut Vec<CueReader>, pid: Pid) -> Result<(), AllocError> {
    for reader in readers.iter_mut() {
        if reader.pid == pid {
            return Ok(());
        }
    }
    readers.push(CueReader {
        pid,
        assembler: Assembler::new(),
    })?;
    Ok(())
}

/// Takes a packet of a PID of cues.
fn take(
    alloc: Global,
    reader: &mut CueReader,
    packet: &Packet,
    before: u64,
    cues: &mut Vec<CueFacts>,
) -> Result<(), AllocError> {
    reader.assembler.pass_over();
    reader.assembler.feed(packet);
    for section in reader.assembler.sections() {
        let kept = Vec::from_slice(alloc, section)?;
        cues.push(CueFacts {
            packet: before,
            pid: reader.pid,
            section: kept,
        })?;
    }
    Ok(())
}
