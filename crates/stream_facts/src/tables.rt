//! The programs of a stream, as its tables list them.

use psi_section::Assembler;
use psi_tables::{Pat, Pmt};
use service_names::service_name;
use std::alloc::{AllocError, Global};
use ts_packet::{Packet, Pid};

/// The PID of the service descriptions (EN 300 468, 5.1.3).
const DESCRIPTIONS: u16 = 0x11;

/// As many sections of service descriptions are kept: a table has so many at most.
const MOST_DESCRIPTIONS: usize = 256;

/// A program of the PAT, and the last map that applied.
#[derive(Drop)]
pub struct Listing {
    /// Its number.
    pub number: u16,
    /// The PID of its map.
    pub pmt_pid: Pid,
    assembler: Assembler,
    map: Option<Vec<u8>>,
}

impl Listing {
    /// Its last map.
    pub fn map(&self) -> Option<Pmt<'_>> {
        match &self.map {
            None => None,
            Some(section) => Pmt::read(section.as_slice()).ok(),
        }
    }

    /// Takes a packet of the map's PID.
    fn feed(&mut self, alloc: Global, packet: &Packet) -> Result<(), AllocError> {
        self.assembler.pass_over();
        self.assembler.feed(packet);
        for section in self.assembler.sections() {
            if let Ok(map) = Pmt::read(section)
                && map.program() == self.number
                && map.current()
            {
                self.map = Some(Vec::from_slice(alloc, section)?);
            }
        }
        Ok(())
    }
}

/// The tables of a stream.
#[derive(Drop)]
pub struct TableSet {
    associations: Assembler,
    descriptions: Assembler,
    listings: Vec<Listing>,
    described: Vec<Vec<u8>>,
}

impl TableSet {
    /// No table yet.
    pub fn new(alloc: Global) -> TableSet {
        TableSet {
            associations: Assembler::new(),
            descriptions: Assembler::new(),
            listings: Vec::new(alloc),
            described: Vec::new(alloc),
        }
    }

    /// The programs, in the order in which the stream lists them.
    pub fn listings(&self) -> &[Listing] {
        self.listings.as_slice()
    }

    /// The text of the name of a service.
    pub fn name(&self, number: u16) -> Option<&[u8]> {
        for section in &self.described {
            if let Some(name) = service_name(section.as_slice(), number) {
                return Some(name);
            }
        }
        None
    }

    /// Takes the next packet of the stream, and answers whether it was one of a map.
    ///
    /// # Errors
    ///
    /// Where the allocator refused memory.
    pub fn feed(&mut self, alloc: Global, packet: &Packet) -> Result<bool, AllocError> {
        if packet.error() {
            return Ok(false);
        }
        let pid = packet.pid().get();
        if pid == 0 {
            self.associate(packet)?;
        } else if pid == DESCRIPTIONS {
            self.describe(alloc, packet)?;
        }
        let mut is_map = false;
        for listing in self.listings.iter_mut() {
            if listing.pmt_pid.get() == pid {
                listing.feed(alloc, packet)?;
                is_map = true;
            }
        }
        Ok(is_map)
    }

    /// Takes a packet of PID 0.
    fn associate(&mut self, packet: &Packet) -> Result<(), AllocError> {
        self.associations.pass_over();
        self.associations.feed(packet);
        for section in self.associations.sections() {
            if let Ok(pat) = Pat::read(section)
                && pat.current()
            {
                list_all(&mut self.listings, section)?;
            }
        }
        Ok(())
    }

    /// Takes a packet of the service descriptions.
    fn describe(&mut self, alloc: Global, packet: &Packet) -> Result<(), AllocError> {
        self.descriptions.pass_over();
        self.descriptions.feed(packet);
        for section in self.descriptions.sections() {
            if self.described.len() < MOST_DESCRIPTIONS && !holds(&self.described, section) {
                let kept = Vec::from_slice(alloc, section)?;
                self.described.push(kept)?;
            }
        }
        Ok(())
    }
}

/// Whether one of the sections is this one.
fn holds(sections: &Vec<Vec<u8>>, section: &[u8]) -> bool {
    for kept in sections {
        if kept.as_slice() == section {
            return true;
        }
    }
    false
}

/// Lists the programs of a PAT.
fn list_all(listings: &mut Vec<Listing>, pat: &[u8]) -> Result<(), AllocError> {
    let pairs = pat.get(8..pat.len().saturating_sub(4)).unwrap_or(&[]);
    for pair in pairs.chunks_exact(4) {
        if let [high, low, pid_high, pid_low] = pair {
            let number = u16::from(*high) * 256 + u16::from(*low);
            if number != 0 {
                list(listings, number, Pid::of_bits(*pid_high, *pid_low))?;
            }
        }
    }
    Ok(())
}

/// Lists a program, with the PID of its map.
fn list(listings: &mut Vec<Listing>, number: u16, pmt_pid: Pid) -> Result<(), AllocError> {
    for listing in listings.iter_mut() {
        if listing.number == number {
            if listing.pmt_pid != pmt_pid {
                listing.pmt_pid = pmt_pid;
                listing.assembler = Assembler::new();
            }
            return Ok(());
        }
    }
    listings.push(Listing {
        number,
        pmt_pid,
        assembler: Assembler::new(),
        map: None,
    })?;
    Ok(())
}
