//! The packets that have brought a part of a section on the PID of a program's map.

ghost use Rattle.std.specs.Prelude.{◌≡◌, ℕ, List, [], ◌∷◌, ◌++◌, true, Option, None, Some, is_some, OnOk, not, slice_get};
ghost use Rattle.ts_packet.specs.Fields.{on, payload_on, unit_start};
ghost use Rattle.ts_packet.specs.Duplicates.{original};
ghost use Rattle.ts_packet.specs.Following.{Follows};
ghost use Rattle.psi_section.specs.Assembling.{Waits};
ghost use Rattle.program_follower.specs.declared.purpose.Purpose.{Purpose};
ghost use Rattle.program_follower.specs.Program.{known_pids};
ghost use Rattle.on_air.specs.Tails.{TailStands, TailOf, IsRead, KeepsPackets, has_part, brought_on, tail_on};

use chain_engine::AirStage;
use psi_section::Assembler;
use ts_packet::{Follower, Packet, PacketSink, Pid, PutFault};

/// The most packets that are kept of a section.
const MOST: usize = 32;

/// The packets that have brought the section on the PID of the map that is not whole yet. Where a stretch ends with them, they go out as they
/// came. It takes no memory.
#[derive(Drop)]
pub struct MapTail {
    /// The PID of the map, behind the PAT.
    pid: Option<Pid>,
    assembler: Assembler,
    follower: Follower,
    last: Packet,
    packets: [Packet; MOST],
    /// How many of these there are, and 33 where there are more than are kept.
    count: usize,
}

/// The PID of the map, once the PAT gave it.
fn map_pid<S: AirStage>(stage: &S) -> Option<Pid>
    ensures { (c : Purpose) (read : List (List ℕ)) → S.follows stage.now c read → result ≡ slice_get (known_pids c.program read) 0 }
{
    stage.pids().first().copied()
}

impl MapTail {
    /// No packet has come, and the PAT neither.
    pub fn new() -> MapTail
        ensures { (known : Option ℕ) → TailStands result known [] }
    {
        MapTail {
            pid: None,
            assembler: Assembler::new(),
            follower: Follower::new(Pid::of_bits(0, 0)),
            last: Packet::null(),
            packets: [Packet::null(); MOST],
            count: 0,
        }
    }

    /// Takes the next packet of a stage, which is judged.
    #[inline(always)]
    pub(crate) fn follow<S: AirStage>(&mut self, stage: &S, packet: &Packet)
        ensures { (c : Purpose) (read : List (List ℕ)) → S.follows stage.now c read → TailOf self.old c read
            → TailOf self.new c (packet.now ∷ read) }
    {
        if self.is_before_pat() {
            match map_pid(stage) {
                Some(pid) => self.begin(pid),
                None => return,
            }
        }
        self.take(packet);
    }

    /// The PID of the map is not known yet.
    #[inline(always)]
    pub fn is_before_pat(&self) -> bool
        ensures { result ≡ not (is_some self.now.pid) }
    {
        self.pid.is_none()
    }

    /// The PAT has come, and gives the map this PID.
    pub fn begin(&mut self, pid: Pid)
        requires { self.old.pid ≡ None }
        ensures pid { self.new.pid ≡ Some pid }
        ensures stands { (since : List (List ℕ)) → TailStands self.old (Some pid) since → TailStands self.new (Some pid) since }
    {
        self.pid = Some(pid);
        self.follower = Follower::new(pid);
    }

    /// Takes the next packet that is judged.
    #[inline(always)]
    pub fn take(&mut self, packet: &Packet)
        ensures before { self.old.pid ≡ None → self.new ≡ self.old }
        ensures behind { (known : Option ℕ) (since : List (List ℕ)) → is_some self.old.pid ≡ true → TailStands self.old known since
            → TailStands self.new known (packet.now ∷ since) }
        ensures pid { self.new.pid ≡ self.old.pid }
    {
        match self.pid {
            Some(pid) if packet.is_on(pid) => self.take_of_map(packet),
            Some(_) | None => {}
        }
    }

    /// Takes a packet on the PID of the map.
    #[cold]
    #[inline(never)]
    fn take_of_map(&mut self, packet: &Packet)
        ensures pid { self.new.pid ≡ self.old.pid }
        ensures read { (pid : ℕ) (since : List (List ℕ)) → on pid packet.now ≡ true → IsRead self.old pid since
            → IsRead self.new pid (packet.now ∷ since) }
    {
        if !packet.has_payload() {
            return;
        }
        if self.read(packet) {
            self.bring(packet);
        }
    }

    /// Reads a payload packet on the PID of the map, and answers whether it is an original.
    fn read(&mut self, packet: &Packet) -> bool
        ensures original { (pid : ℕ) (since : List (List ℕ)) → payload_on pid packet.now ≡ true
            → Follows self.old.follower self.old.last pid since → result ≡ original pid packet.now since }
        ensures follows { (pid : ℕ) (since : List (List ℕ)) → payload_on pid packet.now ≡ true
            → Follows self.old.follower self.old.last pid since → Follows self.new.follower self.new.last pid (packet.now ∷ since) }
        ensures waits { (pid : ℕ) (since : List (List ℕ)) → payload_on pid packet.now ≡ true → Waits self.old.assembler pid since
            → Waits self.new.assembler pid (packet.now ∷ since) }
        ensures same { (self.new.pid ≡ self.old.pid) × (self.new.packets ≡ self.old.packets) × (self.new.count ≡ self.old.count) }
    {
        let is_original = self.follower.take(packet, &self.last);
        self.last = *packet;
        self.assembler.pass_over();
        self.assembler.feed(packet);
        self.assembler.pass_over();
        is_original
    }

    /// Keeps an original that was read, where a part of a section is not whole yet behind it: behind those that are kept, or alone, where the
    /// part begins in it.
    fn bring(&mut self, packet: &Packet)
        ensures keeps { (pid : ℕ) (past ps : List (List ℕ)) → Waits self.old.assembler pid past → KeepsPackets self.old ps
            → KeepsPackets self.new (brought_on (has_part pid past) (unit_start packet.now) packet.now ps) }
        ensures same { (self.new.pid ≡ self.old.pid) × (self.new.assembler ≡ self.old.assembler) × (self.new.follower ≡ self.old.follower)
            × (self.new.last ≡ self.old.last) }
    {
        if !self.assembler.has_part() {
            self.count = 0;
            return;
        }
        if packet.unit_start() {
            self.count = 0;
        }
        self.keep(packet);
    }

    /// Keeps a packet behind those that are kept, where there is room.
    fn keep(&mut self, packet: &Packet)
        ensures keeps { (ps : List (List ℕ)) → KeepsPackets self.old ps → KeepsPackets self.new (packet.now ∷ ps) }
        ensures same { (self.new.pid ≡ self.old.pid) × (self.new.assembler ≡ self.old.assembler) × (self.new.follower ≡ self.old.follower)
            × (self.new.last ≡ self.old.last) }
    {
        if self.count < MOST {
            self.packets[self.count] = *packet;
        }
        if self.count <= MOST {
            self.count += 1;
        }
    }

    /// Puts the packets that have brought a part of a section, as they came; none where there are more than 32.
    pub fn put<K: PacketSink>(&self, out: &mut K) -> Result<(), PutFault>
        ensures leads { K.leads out.old out.new }
        ensures puts { (known : Option ℕ) (since : List (List ℕ)) (start : Option (List ℕ)) (before : List (List ℕ))
            → TailStands self.now known since → K.holds out.old start before → OnOk result (K.holds out.new start (before ++ tail_on known since)) }
    {
        if self.count > MOST {
            return Ok(());
        }
        for packet in &self.packets[..self.count] {
            match out.put(packet) {
                Ok(()) => {}
                Err(fault) => return Err(fault),
            }
        }
        Ok(())
    }
}
