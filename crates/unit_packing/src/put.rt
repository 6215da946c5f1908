//! Units put into packets of a PID.

ghost use Rattle.std.specs.Prelude.{◌≡◌, ◌<◌, ◌≤◌, ◌+◌, ◌%◌, ◌++◌, ◌∷◌, [], ℕ, List, Option, Ok, length, OnOk, IfErr};
ghost use Rattle.ts_packet.specs.Numbering.{Step, Inserted, Counts};
ghost use Rattle.ts_packet.specs.Sinks.{Blamed};
ghost use Rattle.ts_packet.specs.Transfers.{WentWell};
ghost use Rattle.pes_time.specs.Stamps.{head_of, restamped};
ghost use Rattle.unit_stream.specs.UnitPackets.{put_in};
ghost use Rattle.unit_packing.specs.Packing.{rest_unit_packets, unit_packets};
ghost use Rattle.unit_packing.specs.Putting.{next_number, UnitPutFails};

use crate::packet::{full_packet, packet_of, room, write_packet};
use pes_time::{PesHead, Time33, restamp};
use ts_packet::packet::PACKET_SIZE;
use ts_packet::{Counter, Packet, PacketSink, Pid, PutFault};

/// Puts the packets of a unit, which is not empty: as many bytes in each as fit, the first marked as a random access point or not. The
/// counter numbers them, behind what it has counted on the PID.
///
/// # Errors
///
/// The sink's. Packets before the one that failed are out, and the counter has counted these alone.
pub fn put_unit<S: PacketSink>(
    bytes: &[u8],
    random_access: bool,
    pid: Pid,
    counter: &mut Counter,
    sink: &mut S,
) -> Result<(), PutFault>
    requires { 0 < length bytes.now }
    ensures leads { S.leads sink.old sink.new }
    ensures ok { (start : Option (List ℕ)) (ps : List (List ℕ)) (steps : List Step) → S.holds sink.old start ps
        → Counts counter.old steps → OnOk result (S.holds sink.new start
        (ps ++ unit_packets pid random_access (next_number steps) bytes.now)) }
    ensures counted { (steps : List Step) → Counts counter.old steps →
        OnOk result (Counts counter.new (put_in (unit_packets pid random_access (next_number steps) bytes.now) steps)) }
    ensures err { (start : Option (List ℕ)) (ps : List (List ℕ)) (steps : List Step) → S.holds sink.old start ps
        → Counts counter.old steps → IfErr result (λ f. UnitPutFails counter.new steps
        (unit_packets pid random_access (next_number steps) bytes.now)
        (λ put p. S.fails sink.new start (ps ++ put) p f)) }
    ensures well { OnOk result (WentWell (S.counts sink.old) (S.counts sink.new)) }
    ensures blamed { IfErr result (λ f. Blamed f (S.counts sink.old) (S.counts sink.new) (S.is_full sink.new)) }
{
    let size = bytes.len().min(room(random_access));
    let part = &bytes[..size];
    let mut counted = *counter;
    let mut made = [0xFF; PACKET_SIZE];
    write_packet(&mut made, pid, counted.fresh(), true, random_access, part);
    let first = packet_of(&made);
    match put_packet(&first, counted, counter, sink) {
        Ok(()) => {}
        Err(fault) => return Err(fault),
    }
    put_rest(&bytes[size..], pid, counter, sink)
}

/// Puts the packets of a unit as [`put_unit`] does, with its PTS and DTS `delta` ticks of 90 kHz later, modulo 2^33, and no other bit
/// changed. The head is the one that [`PesHead::read`] reads from the unit, or from the payload of the packet in which it began; the
/// bytes handed in stay as they are.
///
/// # Errors
///
/// As of [`put_unit`].
pub fn put_moved<S: PacketSink>(
    bytes: &[u8],
    head: &PesHead,
    delta: Time33,
    random_access: bool,
    pid: Pid,
    counter: &mut Counter,
    sink: &mut S,
) -> Result<(), PutFault>
    requires some { 0 < length bytes.now }
    requires head { head_of bytes.now ≡ Ok head.now }
    ensures leads { S.leads sink.old sink.new }
    ensures ok { (start : Option (List ℕ)) (ps : List (List ℕ)) (steps : List Step) → S.holds sink.old start ps
        → Counts counter.old steps → OnOk result (S.holds sink.new start
        (ps ++ unit_packets pid random_access (next_number steps) (restamped bytes.now delta))) }
    ensures counted { (steps : List Step) → Counts counter.old steps →
        OnOk result (Counts counter.new
        (put_in (unit_packets pid random_access (next_number steps) (restamped bytes.now delta)) steps)) }
    ensures err { (start : Option (List ℕ)) (ps : List (List ℕ)) (steps : List Step) → S.holds sink.old start ps
        → Counts counter.old steps → IfErr result (λ f. UnitPutFails counter.new steps
        (unit_packets pid random_access (next_number steps) (restamped bytes.now delta))
        (λ put p. S.fails sink.new start (ps ++ put) p f)) }
    ensures well { OnOk result (WentWell (S.counts sink.old) (S.counts sink.new)) }
    ensures blamed { IfErr result (λ f. Blamed f (S.counts sink.old) (S.counts sink.new) (S.is_full sink.new)) }
{
    let size = bytes.len().min(room(random_access));
    let part = &bytes[..size];
    let mut counted = *counter;
    let mut raw = [0xFF; PACKET_SIZE];
    write_packet(&mut raw, pid, counted.fresh(), true, random_access, part);
    restamp(&mut raw[PACKET_SIZE - size..], head, delta);
    let first = packet_of(&raw);
    match put_packet(&first, counted, counter, sink) {
        Ok(()) => {}
        Err(fault) => return Err(fault),
    }
    put_rest(&bytes[size..], pid, counter, sink)
}

/// Puts the packets in which a unit goes on with these bytes.
fn put_rest<S: PacketSink>(
    bytes: &[u8],
    pid: Pid,
    counter: &mut Counter,
    sink: &mut S,
) -> Result<(), PutFault>
    ensures leads { S.leads sink.old sink.new }
    ensures ok { (start : Option (List ℕ)) (ps : List (List ℕ)) (steps : List Step) → S.holds sink.old start ps
        → Counts counter.old steps → OnOk result (S.holds sink.new start
        (ps ++ rest_unit_packets pid (next_number steps) bytes.now)) }
    ensures counted { (steps : List Step) → Counts counter.old steps →
        OnOk result (Counts counter.new (put_in (rest_unit_packets pid (next_number steps) bytes.now) steps)) }
    ensures err { (start : Option (List ℕ)) (ps : List (List ℕ)) (steps : List Step) → S.holds sink.old start ps
        → Counts counter.old steps → IfErr result (λ f. UnitPutFails counter.new steps
        (rest_unit_packets pid (next_number steps) bytes.now)
        (λ put p. S.fails sink.new start (ps ++ put) p f)) }
    ensures well { OnOk result (WentWell (S.counts sink.old) (S.counts sink.new)) }
    ensures blamed { IfErr result (λ f. Blamed f (S.counts sink.old) (S.counts sink.new) (S.is_full sink.new)) }
{
    let mut at = 0;
    while bytes.len() - at >= 184 {
        let mut counted = *counter;
        let packet = full_packet(pid, counted.fresh(), &bytes[at..at + 184]);
        match put_packet(&packet, counted, counter, sink) {
            Ok(()) => {}
            Err(fault) => return Err(fault),
        }
        at += 184;
    }
    if at == bytes.len() {
        return Ok(());
    }
    let mut counted = *counter;
    let mut made = [0xFF; PACKET_SIZE];
    write_packet(&mut made, pid, counted.fresh(), false, false, &bytes[at..]);
    let packet = packet_of(&made);
    put_packet(&packet, counted, counter, sink)
}

/// Puts a packet that this counter has counted, which is the counter from then on where the packet is taken.
fn put_packet<S: PacketSink>(
    packet: &Packet,
    counted: Counter,
    counter: &mut Counter,
    sink: &mut S,
) -> Result<(), PutFault>
    ensures leads { S.leads sink.old sink.new }
    ensures ok { (start : Option (List ℕ)) (ps : List (List ℕ)) → S.holds sink.old start ps
        → OnOk result (S.holds sink.new start (ps ++ packet.now ∷ [])) }
    ensures counted { OnOk result (counter.new ≡ counted) }
    ensures err { (start : Option (List ℕ)) (ps : List (List ℕ)) → S.holds sink.old start ps
        → IfErr result (λ f. S.fails sink.new start ps packet.now f) }
    ensures same { IfErr result (λ _. counter.new ≡ counter.old) }
    ensures well { OnOk result (WentWell (S.counts sink.old) (S.counts sink.new)) }
    ensures blamed { IfErr result (λ f. Blamed f (S.counts sink.old) (S.counts sink.new) (S.is_full sink.new)) }
{
    match sink.put(packet) {
        Ok(()) => {
            *counter = counted;
            Ok(())
        }
        Err(fault) => Err(fault),
    }
}
