//! One transport packet.

ghost use Rattle.std.specs.Prelude.{◌≡◌, ℕ, List, ◌+◌, ◌*◌, ◌/◌, ◌%◌, ◌<◌, ◌≤◌, ◌^◌, ◌↔◌, ◌&&◌, if◌then◌else◌, true, false};
ghost use Rattle.std.specs.Prelude.{slice_index, slice_set, length, Some, None, Ok, Err, option_map, drop, IsTrue, is_some, IfOk, OnErr};
ghost use Rattle.ts_packet.specs.Fields.{in_error, unit_start, pid_of, scrambled, number, payload, random_access, pcr};
ghost use Rattle.ts_packet.specs.Fields.{with_number, renumbered, has_adaptation, on, payload_on, carries_as, alike, marked};
ghost use Rattle.std.specs.Io.KnownBytes.{Consumes};
ghost use Rattle.ts_packet.specs.Packets.{packet_fault, or_fault, null_packet};
ghost use Rattle.ts_packet.specs.Clock.{clock_packet};
ghost use Rattle.ts_packet.specs.Transfers.{Filled, FallsShort, FillCounts};
ghost use Rattle.ts_packet.specs.Sinks.{Later};

use crate::device::Source;
use crate::pid::Pid;
use crate::transfer::{FillFault, fill};
use std::marker::Model;
use thiserror::Error;

/// The bytes of a transport packet.
pub const PACKET_SIZE: usize = 188;

/// The first byte of every packet (ISO/IEC 13818-1, 2.4.3.3, sync_byte).
pub const SYNC_BYTE: u8 = 0x47;

/// Why 188 bytes are no packet.
#[derive(Clone, Copy, Debug, PartialEq, Eq, Drop, Error)]
pub enum PacketFault {
    /// The first byte is not 0x47.
    #[error("a packet that does not begin with the sync byte")]
    SyncLost,
    /// adaptation_field_length is over 183 for a packet without payload, or over 182 for one with a payload.
    #[error("an adaptation field that does not fit its packet")]
    BadAdaptation,
}

/// A transport packet (ISO/IEC 13818-1, 2.4.3.2): contracts see it as its 188 bytes.
#[derive(Clone, Copy, Debug, PartialEq, Eq)]
pub struct Packet {
    bytes: [u8; 188],
}

impl Model for Packet {
    ghost use Rattle.std.specs.Prelude.{◌≡◌, ℕ, List, length};

    ghost Value = { List ℕ };

    ghost view = { λ p. p.bytes };

    ghost invariant = { λ p. length p.bytes ≡ 188 };

    ghost inverse = { λ b. record { bytes = b } };
}

impl Packet {
    /// The packet that these bytes are.
    ///
    /// # Errors
    ///
    /// `SyncLost`, then `BadAdaptation`, as [`PacketFault`] says. Of a packet that is marked in error only the first byte is judged.
    pub fn from_bytes(bytes: &[u8; 188]) -> Result<Packet, PacketFault>
        ensures { result ≡ or_fault (packet_fault bytes.now) bytes.now }
    {
        let packet = Packet { bytes: *bytes };
        match packet.fault() {
            None => Ok(packet),
            Some(fault) => Err(fault),
        }
    }

    /// A null packet: PID 0x1FFF, payload alone, each byte of it 0xFF.
    pub fn null() -> Packet
        ensures { result ≡ null_packet }
    {
        let mut bytes = [0xFF; 188];
        bytes[0] = SYNC_BYTE;
        bytes[1] = 0x1F;
        bytes[3] = 0x10;
        Packet { bytes }
    }

    /// The packet of this PID that carries a program clock reference alone, with a continuity_counter below 16.
    pub(crate) fn of_clock(pid: Pid, counter: u8, clock: [u8; 6]) -> Packet
        requires { counter < 16 }
        ensures value { result ≡ clock_packet pid counter clock }
        ensures below { pid < 8192 }
        ensures size { length clock ≡ 6 }
    {
        let number = pid.get();
        let mut bytes = [0xFF; 188];
        bytes[0] = SYNC_BYTE;
        bytes[1] = (number / 256) as u8;
        bytes[2] = (number % 256) as u8;
        bytes[3] = 0x20 + counter;
        bytes[4] = 183;
        bytes[5] = 0x10;
        bytes[6] = clock[0];
        bytes[7] = clock[1];
        bytes[8] = clock[2];
        bytes[9] = clock[3];
        bytes[10] = clock[4];
        bytes[11] = clock[5];
        Packet { bytes }
    }

    /// Reads the bytes of the next packet into this one, and answers how many there are: fewer than 188 only at the end. They are
    /// not judged.
    #[inline(always)]
    pub(crate) fn fill_from<S: Source>(&mut self, source: &mut S) -> Result<usize, FillFault>
        ensures size { length self.new ≡ 188 }
        ensures ok { IfOk result (λ n. Filled (S.remaining source.old) (S.remaining source.new) self.new n) }
        ensures err { OnErr result (FallsShort 188 (S.remaining source.old) (S.remaining source.new)) }
        ensures counts { FillCounts 188 result (S.counts source.old) (S.counts source.new) }
        ensures few { (S.counts source.new).calls ≤ (S.counts source.old).calls + 2 ^ 20 }
        ensures later { Later (S.counts source.old) (S.counts source.new) }
    {
        fill(source, &mut self.bytes)
    }

    /// Fills this packet with the next 188 bytes, where so many lie ready, and answers whether it did; else the source is as it was.
    /// They are not judged: [`Packet::fault`] does that.
    #[inline(always)]
    pub fn fill_ready<S: Source>(&mut self, source: &mut S) -> bool
        ensures size { length self.new ≡ 188 }
        ensures bytes { result ≡ true → Consumes (S.remaining source.old) (S.remaining source.new) self.new }
        ensures counts { S.counts source.new ≡ S.counts source.old }
        ensures apart { result ≡ false → source.new ≡ source.old }
    {
        source.read_ready(&mut self.bytes)
    }

    /// Makes this the packet of these 188 bytes. They are not judged: [`Packet::fault`] does that.
    pub fn set_bytes(&mut self, bytes: &[u8])
        requires { length bytes.now ≡ 188 }
        ensures { self.new ≡ bytes.now }
    {
        self.bytes.copy_from_slice(bytes);
    }

    /// Sets transport_error_indicator, and changes nothing else.
    #[tactic(auto, using(crate::proofs::FieldLemmas::set_is_marked))]
    pub fn mark_in_error(&mut self)
        ensures { self.new ≡ marked self.old }
    {
        self.bytes[1] = self.bytes[1] % 128 + 128;
    }

    /// Why the bytes are no packet.
    #[tactic(auto, unfolding(crate::specs::Packets::packet_fault))]
    pub fn fault(&self) -> Option<PacketFault>
        ensures { result ≡ packet_fault self.now }
    {
        if self.bytes[0] != SYNC_BYTE {
            return Some(PacketFault::SyncLost);
        }
        if self.error() {
            return None;
        }
        let control = self.adaptation_control();
        if control == 2 && self.bytes[4] > 183 || control == 3 && self.bytes[4] > 182 {
            return Some(PacketFault::BadAdaptation);
        }
        None
    }

    /// transport_error_indicator: the packet is marked in error.
    #[inline(always)]
    #[tactic(auto, unfolding(crate::specs::Fields::in_error))]
    pub fn error(&self) -> bool
        ensures { result ≡ in_error self.now }
    {
        self.bytes[1] / 128 % 2 == 1
    }

    /// payload_unit_start_indicator.
    #[inline(always)]
    #[tactic(auto, unfolding(crate::specs::Fields::unit_start))]
    pub fn unit_start(&self) -> bool
        ensures { result ≡ unit_start self.now }
    {
        self.bytes[1] / 64 % 2 == 1
    }

    /// The PID.
    #[inline(always)]
    #[tactic(auto, unfolding(crate::specs::Fields::pid_of))]
    pub fn pid(&self) -> Pid
        ensures { result ≡ pid_of self.now }
    {
        Pid::of_bits(self.bytes[1], self.bytes[2])
    }

    /// transport_scrambling_control is not 00.
    #[inline(always)]
    #[tactic(auto, unfolding(crate::specs::Fields::scrambled))]
    pub fn scrambled(&self) -> bool
        ensures { result ≡ scrambled self.now }
    {
        self.bytes[3] / 64 != 0
    }

    /// continuity_counter, below 16.
    #[inline(always)]
    #[tactic(auto, unfolding(crate::specs::Fields::number))]
    pub fn counter(&self) -> u8
        ensures value { result ≡ number self.now }
        ensures below { result < 16 }
    {
        self.bytes[3] % 16
    }

    /// adaptation_field_control.
    #[inline(always)]
    fn adaptation_control(&self) -> u8
        ensures value { result ≡ slice_index self.now 3 / 16 % 4 }
    {
        self.bytes[3] / 16 % 4
    }

    /// The payload, 1 to 184 bytes. A packet that is marked in error has none, nor has one of
    /// adaptation_field_control 00 or 10.
    #[inline(always)]
    #[tactic(auto, unfolding(crate::specs::Fields::payload))]
    pub fn payload(&self) -> Option<&[u8]>
        ensures { option_map (λ x. x.now) result ≡ payload self.now }
    {
        if self.error() {
            return None;
        }
        match self.adaptation_control() {
            1 => self.bytes.get(4..),
            3 => {
                let length = self.bytes[4];
                if length <= 182 {
                    self.bytes.get(5 + length as usize..)
                } else {
                    None
                }
            }
            _ => None,
        }
    }

    /// An adaptation field of at least this length is there, and the packet is not marked in error.
    fn has_adaptation(&self, length: u8) -> bool
        ensures { result ≡ has_adaptation length self.now }
    {
        let control = self.adaptation_control();
        !self.error() && (control == 2 || control == 3) && length <= self.bytes[4]
    }

    /// random_access_indicator; false where there is no adaptation field with flags.
    #[tactic(auto, unfolding(crate::specs::Fields::random_access))]
    pub fn random_access(&self) -> bool
        ensures { result ≡ random_access self.now }
    {
        self.has_adaptation(1) && self.bytes[5] / 64 % 2 == 1
    }

    /// The six bytes of the program clock reference, as they are: a base of 33 bits in 90 kHz ticks, 6 reserved bits and
    /// an extension of 9 bits. `None` where PCR_flag is not set or the adaptation field is shorter than 7 bytes.
    #[tactic(auto, unfolding(crate::specs::Fields::pcr))]
    pub fn pcr(&self) -> Option<[u8; 6]>
        ensures { result ≡ pcr self.now }
    {
        if self.has_adaptation(7) && self.bytes[5] / 16 % 2 == 1 {
            Some([
                self.bytes[6],
                self.bytes[7],
                self.bytes[8],
                self.bytes[9],
                self.bytes[10],
                self.bytes[11],
            ])
        } else {
            None
        }
    }

    /// The packet's bytes, lent.
    pub fn as_bytes(&self) -> &[u8; 188]
        ensures value { result.now ≡ self.now }
        ensures size { length result.now ≡ 188 }
    {
        &self.bytes
    }

    /// The packet's bytes.
    pub fn to_bytes(&self) -> [u8; 188]
        ensures { result ≡ self.now }
    {
        *self.as_bytes()
    }

    /// Gives the packet another continuity_counter, below 16, and changes nothing else.
    #[tactic(auto, using(crate::proofs::FieldLemmas::set_is_with_number))]
    pub fn set_counter(&mut self, counter: u8)
        requires { counter < 16 }
        ensures { self.new ≡ with_number counter self.old }
    {
        self.bytes[3] = self.bytes[3] / 16 * 16 + counter;
    }

    /// The packet with another continuity_counter, below 16.
    pub fn with_counter(&self, counter: u8) -> Packet
        requires { counter < 16 }
        ensures { result ≡ with_number counter self.now }
    {
        let mut packet = *self;
        packet.set_counter(counter);
        packet
    }

    /// The packet has a payload.
    #[inline(always)]
    pub fn has_payload(&self) -> bool
        ensures { result ≡ is_some (payload self.now) }
    {
        self.payload().is_some()
    }

    /// The packet has a payload, and it is scrambled.
    #[inline(always)]
    pub fn has_scrambled_payload(&self) -> bool
        ensures { result ≡ (is_some (payload self.now) && scrambled self.now) }
    {
        self.scrambled() && self.has_payload()
    }

    /// A packet of the PID that is not marked in error.
    #[inline(always)]
    #[tactic(auto, unfolding(crate::specs::Fields::on))]
    pub fn is_on(&self, pid: Pid) -> bool
        ensures { result ≡ on pid self.now }
    {
        !self.error() && self.pid().get() == pid.get()
    }

    /// A payload packet of the PID.
    #[inline(always)]
    #[tactic(auto, unfolding(crate::specs::Fields::payload_on))]
    pub fn has_payload_on(&self, pid: Pid) -> bool
        ensures { result ≡ payload_on pid self.now }
    {
        self.is_on(pid) && self.has_payload()
    }

    /// Equal in payload_unit_start_indicator and payload.
    #[tactic(auto, unfolding(crate::specs::Fields::carries_as))]
    pub fn carries_as(&self, packet: &Packet) -> bool
        ensures { result ≡ carries_as self.now packet.now }
    {
        self.unit_start() == packet.unit_start() && self.payload() == packet.payload()
    }

    /// Equal in continuity_counter, payload_unit_start_indicator and payload.
    #[tactic(auto, unfolding(crate::specs::Fields::alike))]
    pub fn is_like(&self, packet: &Packet) -> bool
        ensures { result ≡ alike self.now packet.now }
    {
        self.counter() == packet.counter() && self.carries_as(packet)
    }
}
