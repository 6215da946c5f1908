//! Sections into packets.

ghost use Rattle.std.specs.Prelude.{◌≡◌, ◌<◌, ◌≤◌, ◌+◌, ◌%◌, ◌/◌, ◌++◌, ◌∷◌, []};
ghost use Rattle.std.specs.Prelude.{ℕ, List, Option, length, slice_index, drop, replicate, OnOk, IfErr};

use ts_packet::packet::SYNC_BYTE;
use ts_packet::{Packet, PacketSink, Pid, PutFault};

/// Writes sections into packets of one PID, each section from the front of a packet on (ISO/IEC 13818-1, 2.4.4.1).
#[derive(Clone, Copy, Debug, PartialEq, Eq, Drop)]
pub struct Packetiser {
    pid: Pid,
    /// continuity_counter of the next packet.
    counter: u8,
    ghost below: { counter < 16 },
}

impl Packetiser {
    ghost use Rattle.ts_packet.specs.Transfers.{WentWell};
    ghost use Rattle.ts_packet.specs.Sinks.{Blamed};
    ghost use Rattle.psi_section.specs.Packetising.{Puts, PutsAfter, PutFails, first_packet, next_packet, rest_of, packets_of};

    /// A packetiser whose packets have this PID, and whose first has this continuity_counter, below 16.
    pub fn new(pid: Pid, counter: u8) -> Packetiser
        requires { counter < 16 }
        ensures { Puts result pid counter }
    {
        Packetiser { pid, counter }
    }

    /// The continuity_counter of the next packet, below 16.
    pub fn upcoming(&self) -> u8
        ensures value { result ≡ self.now.counter }
        ensures below { result < 16 }
    {
        self.counter
    }

    /// Puts the packets of a section, which is not empty.
    ///
    /// # Errors
    ///
    /// The sink's. Packets before the one that failed are out, and the counter goes on behind them.
    pub fn put<S: PacketSink>(&mut self, section: &[u8], sink: &mut S) -> Result<(), PutFault>
        requires { 0 < length section.now }
        ensures leads { S.leads sink.old sink.new }
        ensures ok { (start : Option (List ℕ)) (ps : List (List ℕ)) → S.holds sink.old start ps →
            OnOk result (S.holds sink.new start (ps ++ packets_of self.old section.now)) }
        ensures counter { OnOk result (PutsAfter self.new self.old (length (packets_of self.old section.now))) }
        ensures err { (start : Option (List ℕ)) (ps : List (List ℕ)) → S.holds sink.old start ps →
            IfErr result (λ f. PutFails self.old self.new (packets_of self.old section.now)
            (λ put p. S.fails sink.new start (ps ++ put) p f)) }
        ensures well { OnOk result (WentWell (S.counts sink.old) (S.counts sink.new)) }
        ensures blamed { IfErr result (λ f. Blamed f (S.counts sink.old) (S.counts sink.new) (S.is_full sink.new)) }
    {
        let packet = self.first_packet(section);
        match self.send(&packet, sink) {
            Ok(()) => {}
            Err(fault) => return Err(fault),
        }
        self.put_rest(&section[section.len().min(183)..], sink)
    }

    /// Puts the packets in which a section goes on with these bytes.
    fn put_rest<S: PacketSink>(&mut self, bytes: &[u8], sink: &mut S) -> Result<(), PutFault>
        ensures leads { S.leads sink.old sink.new }
        ensures ok { (start : Option (List ℕ)) (ps : List (List ℕ)) → S.holds sink.old start ps →
            OnOk result (S.holds sink.new start (ps ++ rest_of self.old bytes.now)) }
        ensures counter { OnOk result (PutsAfter self.new self.old (length (rest_of self.old bytes.now))) }
        ensures err { (start : Option (List ℕ)) (ps : List (List ℕ)) → S.holds sink.old start ps →
            IfErr result (λ f. PutFails self.old self.new (rest_of self.old bytes.now)
            (λ put p. S.fails sink.new start (ps ++ put) p f)) }
        ensures well { OnOk result (WentWell (S.counts sink.old) (S.counts sink.new)) }
        ensures blamed { IfErr result (λ f. Blamed f (S.counts sink.old) (S.counts sink.new) (S.is_full sink.new)) }
    {
        let mut at = 0;
        while at < bytes.len() {
            let packet = self.next_packet(&bytes[at..]);
            match self.send(&packet, sink) {
                Ok(()) => {}
                Err(fault) => return Err(fault),
            }
            at = bytes.len().min(at + 184);
        }
        Ok(())
    }

    /// Puts a packet, and counts it where it is taken.
    fn send<S: PacketSink>(&mut self, packet: &Packet, sink: &mut S) -> Result<(), PutFault>
        ensures leads { S.leads sink.old sink.new }
        ensures ok { (start : Option (List ℕ)) (ps : List (List ℕ)) → S.holds sink.old start ps →
            OnOk result (S.holds sink.new start (ps ++ packet.now ∷ [])) }
        ensures counted { OnOk result (Puts self.new self.old.pid ((self.old.counter + 1) % 16)) }
        ensures err { (start : Option (List ℕ)) (ps : List (List ℕ)) → S.holds sink.old start ps →
            IfErr result (λ f. S.fails sink.new start ps packet.now f) }
        ensures same { IfErr result (λ _. Puts self.new self.old.pid self.old.counter) }
        ensures well { OnOk result (WentWell (S.counts sink.old) (S.counts sink.new)) }
        ensures blamed { IfErr result (λ f. Blamed f (S.counts sink.old) (S.counts sink.new) (S.is_full sink.new)) }
    {
        match sink.put(packet) {
            Ok(()) => {
                self.counter = (self.counter + 1) % 16;
                Ok(())
            }
            Err(fault) => Err(fault),
        }
    }

    /// The packet in which a section begins.
    fn first_packet(&self, section: &[u8]) -> Packet
        ensures { result ≡ first_packet self.now.pid self.now.counter section.now }
    {
        let mut bytes = self.header();
        bytes[1] += 0x40;
        bytes[4] = 0;
        let count = section.len().min(183);
        bytes[5..5 + count].copy_from_slice(&section[..count]);
        packet_of(&bytes)
    }

    /// A packet in which a section goes on with these bytes.
    fn next_packet(&self, section: &[u8]) -> Packet
        ensures { result ≡ next_packet self.now.pid self.now.counter section.now }
    {
        let mut bytes = self.header();
        let count = section.len().min(184);
        bytes[4..4 + count].copy_from_slice(&section[..count]);
        packet_of(&bytes)
    }

    /// The four bytes before the payload, and 0xFF in its place.
    fn header(&self) -> [u8; 188]
        ensures value { result ≡ 0x47 ∷ (self.now.pid / 256) ∷ self.now.pid % 256 ∷ (16 + self.now.counter)
            ∷ replicate 184 0xFF }
        ensures below { self.now.pid < 8192 }
    {
        let number = self.pid.get();
        let mut bytes = [0xFF; 188];
        bytes[0] = SYNC_BYTE;
        bytes[1] = (number / 256) as u8;
        bytes[2] = (number % 256) as u8;
        bytes[3] = 0x10 + self.counter;
        bytes
    }
}

/// The packet of these bytes, whose payload begins behind the fourth.
#[tactic(auto, using(crate::proofs::PacketiserLemmas::no_fault))]
fn packet_of(bytes: &[u8; 188]) -> Packet
    requires sync { slice_index bytes.now 0 ≡ 71 }
    requires payload { slice_index bytes.now 3 / 16 % 4 ≡ 1 }
    ensures { result ≡ bytes.now }
{
    match Packet::from_bytes(bytes) {
        Ok(packet) => packet,
        Err(_) => unreachable!(),
    }
}
