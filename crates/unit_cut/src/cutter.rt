//! Cuts the units of one PID out of a run, packet by packet.

ghost use Rattle.std.specs.Prelude.{◌≡◌, ℕ, List, [], ◌∷◌, Option, Some, None, true, false, not, is_some, if◌then◌else◌};
ghost use Rattle.std.specs.Prelude.{Result, Ok, Err, OnOk, IfOk, IfErr};
ghost use Rattle.ts_packet.specs.Fields.{on, payload, payload_on, with_number};

use crate::timing::Timing;
use pes_time::Time33;
use ts_packet::{Counter, Packet, Pid};
use unit_stream::{Piece, UnitFault, UnitFollower};

/// Cuts out the units of one PID whose time lies in an interval. No packet is held and no memory is taken: a unit is decided
/// at the packet that begins it.
#[derive(Clone, Copy, Debug)]
pub struct Cutter {
    pid: Pid,
    units: UnitFollower,
    timing: Timing,
    counter: Counter,
}

impl Cutter {
    ghost use Rattle.ts_packet.specs.Following.{CarriesSame, kept_after};
    ghost use Rattle.ts_packet.specs.Numbering.{Step, Counts, Kept, Dropped, number_out};
    ghost use Rattle.unit_cut.specs.Standing.{CutterStandsFor, Begins, CutAnswers, Cut};

    /// A cutter for the units of `pid` from `from` on, for `length` ticks of 90 kHz.
    pub fn new(pid: Pid, from: Time33, length: u32) -> Cutter
        ensures { (kept : List ℕ) (k : Cut) → k.pid ≡ pid → k.from ≡ from → k.length ≡ length
            → CutterStandsFor result kept k [] }
    {
        Cutter {
            pid,
            units: UnitFollower::new(pid),
            timing: Timing::new(from, length),
            counter: Counter::new(),
        }
    }

    /// Keeps a packet, with its counter moved.
    fn keep(&mut self, packet: &mut Packet)
        ensures pid { self.new.pid ≡ self.old.pid }
        ensures units { self.new.units ≡ self.old.units }
        ensures timing { self.new.timing ≡ self.old.timing }
        ensures carries { CarriesSame packet.new packet.old }
        ensures counts { (steps : List Step) → Counts self.old.counter steps
            → Counts self.new.counter (Kept packet.old ∷ steps) }
        ensures packet { (steps : List Step) → Counts self.old.counter steps
            → packet.new ≡ with_number (number_out packet.old steps) packet.old }
    {
        let number = self.counter.kept(packet);
        packet.set_counter(number);
    }

    /// A payload packet of the PID.
    #[inline(always)]
    pub fn is_payload_on_pid(&self, packet: &Packet) -> bool
        ensures { result ≡ payload_on self.now.pid packet.now }
    {
        packet.has_payload_on(self.pid)
    }

    /// The next packet: whether it stays, with its counter moved, or goes. `kept` is the PID's last payload packet, as it came out of
    /// this call, and any packet where there was none: the cutter copies none, so the caller keeps it where it lies.
    ///
    /// # Errors
    ///
    /// What the packet may not be, as [`UnitFault`] says. Give the cutter no packet after that.
    #[inline(always)]
    pub fn feed(&mut self, packet: &mut Packet, kept: &Packet) -> Result<bool, UnitFault>
        ensures answers { (k : Cut) (past : List (List ℕ)) → Begins k (packet.old ∷ past)
            → CutterStandsFor self.old kept.now k past → CutAnswers k packet.old past result packet.new }
        ensures stands { (k : Cut) (past : List (List ℕ)) → Begins k (packet.old ∷ past)
            → CutterStandsFor self.old kept.now k past
            → OnOk result (CutterStandsFor self.new (kept_after k.pid packet.old packet.new kept.now) k
            (packet.old ∷ past)) }
    {
        if !packet.is_on(self.pid) {
            return Ok(true);
        }
        if packet.has_scrambled_payload() {
            return Err(UnitFault::Scrambled);
        }
        match self.units.feed(packet, kept) {
            Piece::Start { payload } => match self.timing.begin(payload) {
                Ok(()) => Ok(self.settle(packet)),
                Err(fault) => Err(fault),
            },
            Piece::More { .. } => Ok(self.settle(packet)),
            Piece::Lead => Ok(self.settle(packet)),
            Piece::Duplicate => Ok(self.settle_duplicate(packet)),
            Piece::NoPayload => {
                self.keep(packet);
                Ok(true)
            }
            Piece::Error => {
                self.keep(packet);
                Ok(true)
            }
        }
    }

    /// Whether an original payload packet stays; one that goes is counted.
    fn settle(&mut self, packet: &mut Packet) -> bool
        requires { is_some (payload packet.old) ≡ true }
        ensures pid { self.new.pid ≡ self.old.pid }
        ensures units { self.new.units ≡ self.old.units }
        ensures timing { self.new.timing ≡ self.old.timing }
        ensures carries { CarriesSame packet.new packet.old }
        ensures stays { result ≡ not self.old.timing.is_going }
        ensures counts { (steps : List Step) → Counts self.old.counter steps
            → Counts self.new.counter (if result then Kept packet.old ∷ steps else Dropped packet.old ∷ steps) }
        ensures packet { (steps : List Step) → Counts self.old.counter steps → result ≡ true
            → packet.new ≡ with_number (number_out packet.old steps) packet.old }
    {
        if self.timing.is_going() {
            self.counter.dropped(packet);
            return false;
        }
        self.keep(packet);
        true
    }

    /// Whether a duplicate stays.
    fn settle_duplicate(&mut self, packet: &mut Packet) -> bool
        ensures pid { self.new.pid ≡ self.old.pid }
        ensures units { self.new.units ≡ self.old.units }
        ensures timing { self.new.timing ≡ self.old.timing }
        ensures carries { CarriesSame packet.new packet.old }
        ensures stays { result ≡ not self.old.timing.is_going }
        ensures counts { (steps : List Step) → Counts self.old.counter steps
            → Counts self.new.counter (if result then Kept packet.old ∷ steps else steps) }
        ensures packet { (steps : List Step) → Counts self.old.counter steps → result ≡ true
            → packet.new ≡ with_number (number_out packet.old steps) packet.old }
    {
        if self.timing.is_going() {
            return false;
        }
        self.keep(packet);
        true
    }
}
