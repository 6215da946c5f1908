//! A group of packets: made once, and begun anew for each repetition, where only counters, time stamps, clock references and a few bytes
//! of each unit are other ones.

use crate::fields::{CLOCK, clock, put, stamp};
use crate::random::spread;

/// Where the stamps of a unit stand, and how many ticks they lie behind the start of the group.
#[derive(Clone, Copy, Debug)]
pub struct UnitPlace {
    pub place: usize,
    pub ticks: u64,
    /// Whether a PTS stands there; without one the few bytes that change stand there.
    pub has_time: bool,
    /// How many ticks before the PTS the DTS lies, where there is one.
    pub decoding: Option<u64>,
    /// What makes the bytes of this unit others than those of the other units.
    pub salt: u64,
}

/// Where a clock reference stands, and how many ticks it lies behind the start of the group.
#[derive(Clone, Copy, Debug)]
pub struct ClockPlace {
    pub place: usize,
    pub ticks: u64,
}

/// Where the byte of a continuity counter stands, and by how much it is greater in the next repetition.
#[derive(Clone, Copy, Debug)]
pub struct CounterPlace {
    pub place: usize,
    pub step: u8,
}

/// A group of packets, and what changes in it from one repetition to the next.
#[derive(Debug, Drop)]
pub struct Group {
    pub bytes: Vec<u8>,
    pub units: Vec<UnitPlace>,
    pub clocks: Vec<ClockPlace>,
    pub counters: Vec<CounterPlace>,
    /// How many ticks it lasts.
    pub ticks: u64,
}

impl Group {
    /// How many packets it has.
    pub fn count(&self) -> u64 {
        let count = self.bytes.len() / 188;
        count as u64
    }

    /// Moves the counters on to the next repetition.
    pub fn count_on(&mut self) {
        for counter in &self.counters {
            if let Some(byte) = self.bytes.get_mut(counter.place) {
                let old = *byte;
                *byte = (old & 0xF0) | (old.wrapping_add(counter.step) & 0x0F);
            }
        }
    }

    /// Writes the times of a repetition that starts at this time, and the bytes that differ by its number.
    pub fn set_times(&mut self, start: u64, number: u64) {
        for unit in &self.units {
            write_unit(self.bytes.as_mut_slice(), unit, start, number);
        }
        for reference in &self.clocks {
            let ticks = start.wrapping_add(reference.ticks);
            put(self.bytes.as_mut_slice(), reference.place, &clock(ticks));
        }
    }
}

/// Writes what changes of a unit.
fn write_unit(bytes: &mut [u8], unit: &UnitPlace, start: u64, number: u64) {
    let mut place = unit.place;
    if unit.has_time {
        let time = start.wrapping_add(unit.ticks) & CLOCK;
        match unit.decoding {
            None => {
                put(bytes, place, &stamp(2, time));
                place = place.wrapping_add(5);
            }
            Some(lead) => {
                put(bytes, place, &stamp(3, time));
                let decoding = time.wrapping_sub(lead) & CLOCK;
                put(bytes, place.wrapping_add(5), &stamp(1, decoding));
                place = place.wrapping_add(10);
            }
        }
    }
    let mark = spread(number.wrapping_add(unit.salt));
    put(bytes, place, &mark.to_le_bytes());
}
