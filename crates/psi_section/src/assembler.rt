//! Sections out of packets.

ghost use Rattle.std.specs.Prelude.{◌≡◌, ◌∷◌, [], ◌≤◌, ◌-◌, ◌^◌, ℕ, List, length, nat_lt, Some, None, true, false};

use crate::front::{Front, front_of, is_bad};
use crate::sections::Sections;
use crate::store::Store;
use ts_packet::{Last, Packet};

/// Gives the sections in the packets of one PID (ISO/IEC 13818-1, 2.4.4). It takes no memory.
#[derive(Clone, Copy)]
pub struct Assembler {
    /// The last payload packet.
    last: Option<Last>,
    /// The bytes of sections that are not given yet, or of a part of one.
    store: Store,
    /// The number of sections whose CRC_32 failed; it stops at the greatest.
    bad: u64,
}

impl Assembler {
    ghost use Rattle.ts_packet.specs.Fields.{payload, bytes};
    ghost use Rattle.ts_packet.specs.Duplicates.{repeats_last, follows_on};
    ghost use Rattle.psi_section.specs.Sections.{given, held, taken, failed, packet_taken};
    ghost use Rattle.psi_section.specs.Storing.{content};
    ghost use Rattle.psi_section.specs.Assembling.{IsOf, IsReady, Waits, StillGives, capped, bad_left, left};
    ghost use Rattle.psi_section.specs.SectionsLeft.{sections_left};

    /// An assembler that was fed no packet.
    pub fn new() -> Assembler
        ensures waits { (pid : ℕ) → Waits result pid [] }
        ensures ready { IsReady result }
    {
        Assembler {
            last: None,
            store: Store::new(),
            bad: 0,
        }
    }

    /// Takes the next packet of the PID. Between two packets `pass_over` is to be called. A packet marked in error is left out, and so
    /// is one without payload.
    pub fn feed(&mut self, packet: &Packet)
        requires { IsReady self.old }
        ensures { (pid : ℕ) (past : List (List ℕ)) → IsOf pid packet.now → Waits self.old pid past →
            StillGives self.new pid (packet.now ∷ past) (given pid packet.now past) }
    {
        let Some(payload) = packet.payload() else {
            return;
        };
        let _bytes = packet.as_bytes();
        let is_repeat = self.is_repeated(packet);
        if !is_repeat {
            self.read(packet, payload);
        }
        self.last = Some(Last {
            packet: *packet,
            is_repeat,
        });
    }

    /// Whether this packet is the duplicate of the last payload packet.
    fn is_repeated(&self, packet: &Packet) -> bool
        ensures { result ≡ repeats_last packet.now self.now.last }
    {
        match &self.last {
            Some(last) => last.packet.is_like(packet) && !last.is_repeat,
            None => false,
        }
    }

    /// Whether the counter is one past that of the last payload packet, or there was none.
    fn follows_on(&self, packet: &Packet) -> bool
        ensures { result ≡ follows_on packet.now self.now.last }
    {
        match &self.last {
            Some(last) => packet.counter() == (last.packet.counter() + 1) % 16,
            None => true,
        }
    }

    /// Takes the payload of a packet that is no duplicate.
    fn read(&mut self, packet: &Packet, payload: &[u8])
        requires room { length (content self.old.store) ≤ 4096 }
        requires size { length payload.now ≤ 184 }
        requires same { payload.now ≡ bytes packet.now }
        ensures taken { taken (content self.new.store)
            ≡ packet_taken packet.now self.old.last (content self.old.store) }
        ensures last { self.new.last ≡ self.old.last }
        ensures bad { self.new.bad ≡ self.old.bad }
    {
        if !self.follows_on(packet) {
            self.store.clear();
        }
        self.store.take_payload(packet.unit_start(), payload);
    }

    /// The sections that the last packet fed finished, in order, lent from the assembler's own buffer until `pass_over`.
    pub fn sections(&self) -> Sections<'_>
        ensures { sections_left result ≡ left self.now }
    {
        Sections::of(self.store.content())
    }

    /// Passes over the sections that the last packet fed finished, and counts those whose CRC_32 fails.
    pub fn pass_over(&mut self)
        ensures waits { (pid : ℕ) (past todo : List (List ℕ)) → StillGives self.old pid past todo → Waits self.new pid past }
        ensures ready { IsReady self.new }
    {
        loop {
            match front_of(self.store.content()) {
                Front::Whole(size) => {
                    let is_bad = is_bad(&self.store.content()[..size]);
                    self.store.skip(size);
                    if is_bad {
                        self.bad = self.bad.saturating_add(1);
                    }
                }
                Front::Part => return,
                Front::Nothing => {
                    self.store.clear();
                    return;
                }
            }
        }
    }

    /// Whether a section has begun that is not whole yet, once those that are were passed over.
    pub fn has_part(&self) -> bool
        ensures { (pid : ℕ) (past : List (List ℕ)) → Waits self.now pid past → result ≡ nat_lt 0 (length (held pid past)) }
    {
        self.store.len() > 0
    }

    /// An assembler that was fed the same.
    pub fn copied(&self) -> Assembler
        ensures { result ≡ self.now }
    {
        *self
    }

    /// The number of sections passed over whose CRC_32 failed; it stops at the greatest.
    pub fn bad(&self) -> u64
        ensures waits { (pid : ℕ) (past : List (List ℕ)) → Waits self.now pid past → result ≡ capped (failed pid past) }
        ensures gives { (pid : ℕ) (past todo : List (List ℕ)) → StillGives self.now pid past todo →
            result ≡ capped (failed pid past - bad_left self.now) }
    {
        self.bad
    }
}
