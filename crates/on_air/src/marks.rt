//! What is kept of the packets of each switched stream that were left unjudged.

ghost use Rattle.std.specs.Prelude.{◌≡◌, ℕ, List, [], ◌∷◌, Option, Some, false, true, not, ◌&&◌, if◌then◌else◌, is_some};
ghost use Rattle.psi_tables.specs.declared.network.NetworkFault.TheVariants.{TimeJump};
ghost use Rattle.ts_packet.specs.Fields.{payload, alike};
ghost use Rattle.std.specs.List.{list_any};
ghost use Rattle.program_follower.specs.declared.purpose.Purpose.{Purpose};
ghost use Rattle.program_follower.specs.Faults.{network_fault};
ghost use Rattle.on_air.specs.Stretches.{Entry, as_read, has_time, stream_at, start_at, verdict, verdict_of};
ghost use Rattle.on_air.specs.Marking.{keeps_any, Keeps, KeepsOf, Becomes, BecomesOf, StandsSo, is_judged_by, is_in_place};

use chain_engine::AirStage;
use program_follower::UnitStart;
use psi_tables::NetworkFault;
use ts_packet::Packet;

/// What becomes of a packet.
#[derive(Clone, Copy, Debug, PartialEq, Eq, Drop)]
pub enum Verdict {
    /// It is judged.
    Judged,
    /// It is left unjudged.
    Unjudged,
    /// A stretch begins anew with it, since this is wrong with it.
    BeginsAnew(NetworkFault),
}

impl Verdict {
    /// It is that the packet is judged.
    pub fn is_judged(self) -> bool
        ensures { result ≡ is_judged_by self }
    {
        match self {
            Verdict::Judged => true,
            Verdict::Unjudged | Verdict::BeginsAnew(_) => false,
        }
    }
}

/// Of one switched stream, what is kept of the packets that were left unjudged.
#[derive(Clone, Copy, Debug, Drop)]
struct StreamMarks {
    /// The unit that has begun last was left unjudged: its packets are, up to the next unit with a time.
    is_damaged: bool,
    /// A unit lay too far from the greatest time, and none with a time was judged since.
    has_jumped: bool,
    /// The last payload packet began such a unit.
    is_jump: bool,
    /// That packet.
    jump: Packet,
}

impl StreamMarks {
    /// Nothing is kept.
    fn new() -> StreamMarks
        ensures damaged { result.is_damaged ≡ false }
        ensures jumped { result.has_jumped ≡ false }
        ensures jump { result.is_jump ≡ false }
    {
        StreamMarks {
            is_damaged: false,
            has_jumped: false,
            is_jump: false,
            jump: Packet::null(),
        }
    }

    /// Something is kept.
    fn is_any(&self) -> bool
        ensures { result ≡ keeps_any self.now }
    {
        self.is_damaged || self.has_jumped || self.is_jump
    }

    /// What becomes of a packet of the stream, which begins this unit, if one, and has no fault.
    fn take_sound(&mut self, start: Option<UnitStart>) -> Verdict
        ensures verdict { result ≡ (if self.old.is_damaged && not (has_time start) then Verdict.Unjudged else Verdict.Judged) }
        ensures damaged { self.new.is_damaged ≡ (self.old.is_damaged && not (has_time start)) }
        ensures jumped { self.new.has_jumped ≡ (if has_time start then false else self.old.has_jumped) }
        ensures jump { (self.new.is_jump ≡ self.old.is_jump) × (self.new.jump ≡ self.old.jump) }
    {
        let is_timed = match start {
            None => false,
            Some(start) => start.pts.is_some(),
        };
        if is_timed {
            self.is_damaged = false;
            self.has_jumped = false;
            return Verdict::Judged;
        }
        if self.is_damaged {
            Verdict::Unjudged
        } else {
            Verdict::Judged
        }
    }

    /// What becomes of a packet that begins a unit too far from the greatest time. One damaged stamp costs its unit; a new time base is seen
    /// at the second unit of a stream.
    fn take_jump(&mut self, packet: &Packet, is_repeat: bool) -> Verdict
        ensures anew { (self.old.has_jumped && not is_repeat) ≡ true → (result ≡ Verdict.BeginsAnew TimeJump) × (self.new ≡ self.old) }
        ensures unjudged { (self.old.has_jumped && not is_repeat) ≡ false → (result ≡ Verdict.Unjudged)
            × (self.new.is_damaged ≡ true) × (self.new.has_jumped ≡ true)
            × ((p : List ℕ) → (self.new.is_jump && alike self.new.jump p)
            ≡ (if is_some (payload packet.now) then alike packet.now p else self.old.is_jump && alike self.old.jump p)) }
    {
        if self.has_jumped && !is_repeat {
            return Verdict::BeginsAnew(NetworkFault::TimeJump);
        }
        self.is_damaged = true;
        self.has_jumped = true;
        if packet.has_payload() {
            self.is_jump = true;
            self.jump = *packet;
        }
        Verdict::Unjudged
    }

    /// What becomes of a packet of the stream, which begins this unit, if one, and of which this is wrong.
    fn take(
        &mut self,
        packet: &Packet,
        start: Option<UnitStart>,
        fault: Option<NetworkFault>,
    ) -> Verdict
        ensures { (c : Purpose) (n : ℕ) (past : List Entry) → KeepsOf self.old c n past
            → stream_at c packet.now past ≡ Some n → start ≡ start_at c packet.now past
            → BecomesOf result (verdict_of c n fault packet.now past) (λ j. KeepsOf self.new c n (record { packet = packet.now; judgement = j } ∷ past)) }
    {
        let is_repeat = self.is_jump && self.jump.is_like(packet);
        if packet.has_payload() {
            self.is_jump = false;
        }
        match fault {
            None => self.take_sound(start),
            Some(NetworkFault::Scrambled | NetworkFault::HeaderSplit) => {
                if start.is_some() {
                    self.is_damaged = true;
                }
                Verdict::Unjudged
            }
            Some(NetworkFault::TimeJump) => self.take_jump(packet, is_repeat),
            Some(fault) => Verdict::BeginsAnew(fault),
        }
    }
}

/// What a packet is among those of its program.
#[derive(Clone, Copy, Debug, PartialEq, Eq, Drop)]
pub enum Standing {
    /// It is of the switched stream of this number, below 8, and would begin this unit there, scrambled or not.
    Streamed(usize, Option<UnitStart>),
    /// It is on the PID of the cues that are written: no packet of the network may be there.
    Cued,
    /// It is neither.
    Beside,
}

/// What is kept of the packets of each switched stream that were left unjudged.
#[derive(Clone, Copy, Debug, Drop)]
pub struct Marks {
    streams: [StreamMarks; 8],
    /// Something is kept of some stream.
    has_any: bool,
}

impl Marks {
    /// Nothing is kept.
    pub fn new() -> Marks
        ensures keeps { (c : Purpose) → Keeps result c [] }
        ensures none { result.has_any ≡ false }
    {
        Marks {
            streams: [StreamMarks::new(); 8],
            has_any: false,
        }
    }

    /// Something is kept of some stream. Else a packet of which nothing is wrong is judged, and nothing is kept behind it either.
    #[inline(always)]
    pub fn has_any(&self) -> bool
        ensures value { result ≡ self.now.has_any }
        ensures judged { (c : Purpose) (past : List Entry) (p : List ℕ) → Keeps self.now c past → result ≡ false
            → network_fault c p (as_read past) ≡ None → Becomes Verdict.Judged self.now c p past }
    {
        self.has_any
    }

    /// What becomes of the next packet of the stage.
    #[inline(always)]
    pub(crate) fn judge<S: AirStage>(&mut self, stage: &S, packet: &Packet) -> Verdict
        ensures { (c : Purpose) (past : List Entry) → Keeps self.old c past → S.follows stage.now c (as_read past)
            → Becomes result self.new c packet.now past }
    {
        let fault = stage.look(packet);
        if fault.is_none() && !self.has_any {
            return Verdict::Judged;
        }
        self.judge_closely(stage, packet, fault)
    }

    /// What becomes of a packet of which this is wrong, or behind one that was left unjudged.
    #[cold]
    #[inline(never)]
    fn judge_closely<S: AirStage>(
        &mut self,
        stage: &S,
        packet: &Packet,
        fault: Option<NetworkFault>,
    ) -> Verdict
        ensures { (c : Purpose) (past : List Entry) → Keeps self.old c past → S.follows stage.now c (as_read past)
            → fault ≡ network_fault c packet.now (as_read past) → Becomes result self.new c packet.now past }
    {
        let standing = match stage.stream_of(packet) {
            Some(stream) => Standing::Streamed(stream, stage.start_at(stream, packet)),
            None if stage.is_cue(packet) => Standing::Cued,
            None => Standing::Beside,
        };
        self.judge_standing(packet, standing, fault)
    }

    /// What becomes of the next packet of a program's stretch, which is this among its packets, and of which this is wrong.
    pub fn judge_standing(
        &mut self,
        packet: &Packet,
        standing: Standing,
        fault: Option<NetworkFault>,
    ) -> Verdict
        requires { is_in_place standing ≡ true }
        ensures { (c : Purpose) (past : List Entry) → Keeps self.old c past → StandsSo standing c packet.now past
            → fault ≡ network_fault c packet.now (as_read past) → Becomes result self.new c packet.now past }
    {
        let (stream, start) = match standing {
            Standing::Streamed(stream, start) => (stream, start),
            Standing::Cued if fault == Some(NetworkFault::CuePidUsed) => return Verdict::Unjudged,
            Standing::Cued | Standing::Beside => {
                return match fault {
                    None => Verdict::Judged,
                    Some(fault) => Verdict::BeginsAnew(fault),
                };
            }
        };
        let verdict = self.streams[stream].take(packet, start, fault);
        self.has_any = self.is_any();
        verdict
    }

    /// Something is kept of some stream.
    fn is_any(&self) -> bool
        ensures { result ≡ list_any keeps_any self.now.streams }
    {
        self.streams.iter().any(|stream| stream.is_any())
    }
}
