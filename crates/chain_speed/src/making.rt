//! How a group is made: the packets of all streams in the order of their times, as a multiplexer sends them, behind the tables.

use crate::fields::{CLOCK, low_bytes, put};
use crate::group::{ClockPlace, CounterPlace, Group, UnitPlace};
use crate::plan::{PICTURE, Plan, Stream, map_pid};
use crate::random::{Random, spread};
use crate::tables::{association, map};
use std::alloc::{AllocError, Global};

/// How many bytes of stuffing the last packet of a unit has, its flags included.
const LAST_STUFFING: usize = 60;

/// How many bytes of stuffing each packet of an awkward network has at least, its flags included.
const AWKWARD_STUFFING: usize = 12;

/// The bytes of a clock reference with what stands before it in an adaptation field.
const CLOCK_FIELD: usize = 8;

/// How long before its picture's time a clock reference is.
const CLOCK_LEAD: u64 = 18_000;

/// A packet of a stream in a group.
#[derive(Clone, Copy, Debug)]
struct Slot {
    /// When it is sent.
    time: u64,
    /// The stream, or none for a null packet.
    stream: Option<Stream>,
    /// The place of the stream among all.
    place: usize,
    /// The unit in the group.
    unit: usize,
    /// The packet in the unit.
    index: usize,
    /// How many packets the unit has.
    size: usize,
}

/// The PID and the number of payload packets so far.
#[derive(Clone, Copy, Debug)]
struct Count {
    pid: u16,
    packets: u64,
}

/// The PID whose counter stands here.
#[derive(Clone, Copy, Debug)]
struct Counted {
    place: usize,
    pid: u16,
}

/// A group in the making.
#[derive(Drop)]
struct Maker {
    bytes: Vec<u8>,
    units: Vec<UnitPlace>,
    clocks: Vec<ClockPlace>,
    counted: Vec<Counted>,
    counts: Vec<Count>,
    random: Random,
    phases: Vec<u64>,
    seed: u64,
    is_awkward: bool,
}

/// This share of so many ticks.
fn share(ticks: u64, part: usize, whole: usize) -> u64 {
    let product = ticks.wrapping_mul(part as u64);
    product.checked_div(whole as u64).unwrap_or(0)
}

/// The packets of all streams, and null packets, by their times.
fn slots(alloc: Global, plan: &Plan) -> Result<Vec<Slot>, AllocError> {
    let mut slots = Vec::new(alloc);
    for (place, stream) in plan.streams.iter().enumerate() {
        let mut begin = 0_u64;
        for (unit, size) in stream.sizes.iter().enumerate() {
            for index in 0..*size {
                slots.push(Slot {
                    time: begin.wrapping_add(share(stream.ticks, index, *size)),
                    stream: Some(*stream),
                    place,
                    unit,
                    index,
                    size: *size,
                })?;
            }
            begin = begin.wrapping_add(stream.ticks);
        }
    }
    for index in 0..plan.nulls {
        slots.push(Slot {
            time: share(plan.ticks, index, plan.nulls),
            stream: None,
            place: 0,
            unit: 0,
            index,
            size: 1,
        })?;
    }
    slots.sort_by_key(|slot| slot.time)?;
    Ok(slots)
}

/// The group of a plan, whose bytes and phases follow from a seed.
pub fn make(alloc: Global, plan: &Plan, seed: u64) -> Result<Group, AllocError> {
    let mut maker = Maker {
        bytes: Vec::new(alloc),
        units: Vec::new(alloc),
        clocks: Vec::new(alloc),
        counted: Vec::new(alloc),
        counts: Vec::new(alloc),
        random: Random::new(seed, 1),
        phases: Vec::new(alloc),
        seed,
        is_awkward: plan.is_awkward,
    };
    let mut phases = Random::new(seed, 2);
    for stream in &plan.streams {
        let phase = phases.below(stream.ticks);
        maker.phases.push(if stream.is_video { 0 } else { phase })?;
    }
    maker.put_tables(alloc, plan)?;
    let mut sent = 0_u64;
    for slot in &slots(alloc, plan)? {
        maker.put_slot(slot)?;
        sent = sent.wrapping_add(1);
        if plan.is_awkward && sent % 16 == 0 {
            maker.double_last()?;
        }
        if plan.is_awkward && sent % 10 == 0 {
            maker.put_tables(alloc, plan)?;
        }
    }
    maker.finish(alloc, plan.ticks)
}

impl Maker {
    /// How many payload packets of a PID came before.
    fn counted_before(&self, pid: u16) -> u64 {
        for count in &self.counts {
            if count.pid == pid {
                return count.packets;
            }
        }
        0
    }

    /// The number of the next payload packet of a PID, which is counted.
    fn next_counter(&mut self, pid: u16) -> Result<u8, AllocError> {
        let before = self.counted_before(pid);
        let [low, ..] = before.to_le_bytes();
        for count in self.counts.iter_mut() {
            if count.pid == pid {
                count.packets = count.packets.wrapping_add(1);
                return Ok(low & 15);
            }
        }
        self.counts.push(Count { pid, packets: 1 })?;
        Ok(0)
    }

    /// The first four bytes of the next payload packet of a PID.
    fn head(&mut self, pid: u16, is_start: bool, control: u8) -> Result<[u8; 4], AllocError> {
        let counter = self.next_counter(pid)?;
        let [high, low] = pid.to_be_bytes();
        let start = if is_start { 0x40 } else { 0 };
        let place = self.bytes.len().wrapping_add(3);
        self.counted.push(Counted { place, pid })?;
        Ok([0x47, start | (high & 0x1F), low, control | counter])
    }

    /// Puts the PAT and the maps.
    fn put_tables(&mut self, alloc: Global, plan: &Plan) -> Result<(), AllocError> {
        let section = association(alloc, plan)?;
        self.put_section(0, section.as_slice())?;
        for program in 0..plan.programs {
            let section = map(alloc, plan, program)?;
            self.put_section(map_pid(program), section.as_slice())?;
        }
        Ok(())
    }

    /// Puts a section on its PID.
    fn put_section(&mut self, pid: u16, section: &[u8]) -> Result<(), AllocError> {
        let mut bytes = [0xFF; 188];
        put(&mut bytes, 0, &self.head(pid, true, 0x10)?);
        put(&mut bytes, 4, &[0]);
        put(&mut bytes, 5, section);
        self.bytes.extend_from_slice(&bytes)?;
        if let Some(rest) = section.get(183..) {
            for part in rest.chunks(184) {
                let mut bytes = [0xFF; 188];
                put(&mut bytes, 0, &self.head(pid, false, 0x10)?);
                put(&mut bytes, 4, part);
                self.bytes.extend_from_slice(&bytes)?;
            }
        }
        Ok(())
    }

    /// Puts a packet of a stream, or a null packet.
    fn put_slot(&mut self, slot: &Slot) -> Result<(), AllocError> {
        let Some(stream) = slot.stream else {
            let mut bytes = [0xFF; 188];
            put(&mut bytes, 0, &[0x47, 0x1F, 0xFF, 0x10]);
            return self.bytes.extend_from_slice(&bytes);
        };
        let field = self.field_size(&stream, slot.index, slot.size);
        let mut bytes = self.filling();
        let control = if field > 0 { 0x30 } else { 0x10 };
        let head = self.head(stream.pid, slot.index == 0, control)?;
        put(&mut bytes, 0, &head);
        if field > 0 {
            self.put_field(&mut bytes, &stream, slot, field)?;
        }
        if slot.index == 0 {
            self.put_start(&mut bytes, &stream, slot, field)?;
        }
        self.bytes.extend_from_slice(&bytes)
    }

    /// Bytes that look random.
    fn filling(&mut self) -> [u8; 188] {
        let mut bytes = [0; 188];
        let (words, _) = bytes.as_chunks_mut::<8>();
        for word in words {
            *word = self.random.next().to_le_bytes();
        }
        bytes
    }

    /// How many bytes the adaptation field of a packet has, its length included.
    fn field_size(&self, stream: &Stream, index: usize, size: usize) -> usize {
        let first = if index == 0 && stream.is_video {
            CLOCK_FIELD
        } else {
            0
        };
        let is_last = index.wrapping_add(1) == size;
        let last = if is_last && size > 1 {
            LAST_STUFFING
        } else {
            0
        };
        let awkward = if self.is_awkward { AWKWARD_STUFFING } else { 0 };
        first.max(last).max(awkward)
    }

    /// Puts the adaptation field of a packet.
    fn put_field(
        &mut self,
        bytes: &mut [u8],
        stream: &Stream,
        slot: &Slot,
        field: usize,
    ) -> Result<(), AllocError> {
        if let Some(room) = bytes.get_mut(4..) {
            for byte in room.iter_mut().take(field) {
                *byte = 0xFF;
            }
        }
        let has_clock = slot.index == 0 && stream.is_video;
        let random_access = if slot.index == 0 && slot.unit == 0 {
            0x40
        } else {
            0
        };
        let flags = if has_clock {
            0x10 | random_access
        } else {
            random_access
        };
        let [_, length] = low_bytes(field.wrapping_sub(1));
        put(bytes, 4, &[length, flags]);
        if has_clock {
            let ticks = stream.ticks.wrapping_mul(slot.unit as u64);
            self.clocks.push(ClockPlace {
                place: self.bytes.len().wrapping_add(6),
                ticks: ticks.wrapping_sub(CLOCK_LEAD) & CLOCK,
            })?;
        }
        Ok(())
    }

    /// How many bytes a unit has behind its first six, or 0 where it need not say so.
    fn unit_length(&self, stream: &Stream, size: usize) -> usize {
        if stream.is_video {
            return 0;
        }
        let mut length = 0_usize;
        for index in 0..size {
            let field = self.field_size(stream, index, size);
            length = length.wrapping_add(184).wrapping_sub(field);
        }
        length.wrapping_sub(6)
    }

    /// Puts the start of a unit: its header, without the stamps, which each repetition writes.
    fn put_start(
        &mut self,
        bytes: &mut [u8],
        stream: &Stream,
        slot: &Slot,
        field: usize,
    ) -> Result<(), AllocError> {
        let has_time = !(self.is_awkward && slot.unit == 9);
        let decoding = if stream.is_video && slot.unit % 2 == 1 {
            Some(PICTURE)
        } else {
            None
        };
        let (flags, size) = match (has_time, decoding) {
            (false, _) => (0, 0),
            (true, None) => (0x80, 5),
            (true, Some(_)) => (0xC0, 10),
        };
        let [high, low] = low_bytes(self.unit_length(stream, slot.size));
        let place = field.wrapping_add(4);
        put(
            bytes,
            place,
            &[0, 0, 1, stream.id, high, low, 0x84, flags, size],
        );
        let phase = self.phases.get(slot.place).copied().unwrap_or(0);
        let ticks = stream.ticks.wrapping_mul(slot.unit as u64);
        let number = (slot.place as u64)
            .wrapping_mul(64)
            .wrapping_add(slot.unit as u64);
        self.units
            .push(UnitPlace {
                place: self.bytes.len().wrapping_add(place).wrapping_add(9),
                ticks: ticks.wrapping_add(phase),
                has_time,
                decoding,
                salt: spread(self.seed.wrapping_add(number << 40)),
            })
            .map_err(AllocError::from)
    }

    /// Doubles the last packet.
    fn double_last(&mut self) -> Result<(), AllocError> {
        let place = self.bytes.len().saturating_sub(188);
        let mut copy = [0; 188];
        if let Some(last) = self.bytes.as_slice().get(place..) {
            put(&mut copy, 0, last);
        }
        self.bytes.extend_from_slice(&copy)?;
        if let Some(counted) = self.counted.last().copied()
            && counted.place >= place
        {
            let place = counted.place.wrapping_add(188);
            self.counted.push(Counted { place, ..counted })?;
        }
        if let Some(unit) = self.units.last().copied()
            && unit.place >= place
        {
            let place = unit.place.wrapping_add(188);
            self.units.push(UnitPlace { place, ..unit })?;
        }
        if let Some(clock) = self.clocks.last().copied()
            && clock.place >= place
        {
            let place = clock.place.wrapping_add(188);
            self.clocks.push(ClockPlace { place, ..clock })?;
        }
        Ok(())
    }

    /// The group, with those counters that a repetition changes.
    fn finish(self, alloc: Global, ticks: u64) -> Result<Group, AllocError> {
        let mut counters = Vec::new(alloc);
        for counted in &self.counted {
            let [low, ..] = self.counted_before(counted.pid).to_le_bytes();
            let step = low & 15;
            if step > 0 {
                counters.push(CounterPlace {
                    place: counted.place,
                    step,
                })?;
            }
        }
        let Maker {
            bytes,
            units,
            clocks,
            ..
        } = self;
        Ok(Group {
            bytes,
            units,
            clocks,
            counters,
            ticks,
        })
    }
}
