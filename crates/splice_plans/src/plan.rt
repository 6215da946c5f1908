//! What is known of an event in each stream.

ghost use Rattle.std.specs.Prelude.{◌≡◌, ℕ, ℤ, Option};
ghost use Rattle.pes_time.specs.Line.{place};
ghost use Rattle.event_table.specs.Standing.{Standing, on_ring, IsWithin};
ghost use Rattle.splice_plans.specs.Turning.{IsNearHigh, entered, turned, crosses, part_of, with_part, plan_turned};

use event_table::{Event, is_before};
use pes_time::Time33;

/// How far an event has come in one stream.
#[derive(Clone, Copy, Debug, PartialEq, Eq)]
pub enum Stage {
    /// No unit at or past its start has begun, or it is not played.
    Waiting,
    /// The unit that has begun last lies in it.
    Running,
    /// The unit that has begun last is the first outside it, and the rest of its slice is still to go out before that unit.
    Closing,
    /// All of its slice is out.
    Over,
}

impl Stage {
    ghost use Rattle.splice_plans.specs.Waiting.{stays};

    /// How far the event comes with a unit of this time, where it is played or not.
    fn turned(self, event: &Event, time: Time33, plays: bool) -> Stage
        ensures { (latest : Option ℤ) (e : Standing) → event.now ≡ on_ring e → IsWithin latest e → IsNearHigh latest (place latest time) →
            result ≡ turned e (place latest time) plays self }
    {
        match self {
            Stage::Waiting => {
                if plays && !is_before(time, event.start) {
                    entered(event, time)
                } else {
                    Stage::Waiting
                }
            }
            Stage::Running => entered(event, time),
            Stage::Closing | Stage::Over => Stage::Over,
        }
    }

    /// A unit of this time leaves the event as it is, whether it is played or not: it comes no further and is not crossed.
    fn stays(self, event: &Event, time: Time33) -> bool
        ensures { result ≡ stays event.now time self }
    {
        match self {
            Stage::Waiting => event.cancelled || is_before(time, event.start),
            Stage::Running => event.covers(time),
            Stage::Closing => false,
            Stage::Over => !is_before(time, event.end()),
        }
    }

    /// A unit of this time lies below the start or the end of the event, after one of the stream at or past it.
    fn is_crossed_by(self, event: &Event, time: Time33) -> bool
        ensures { (latest : Option ℤ) (e : Standing) → event.now ≡ on_ring e → IsWithin latest e → IsNearHigh latest (place latest time) →
            result ≡ crosses e (place latest time) self }
    {
        match self {
            Stage::Waiting => false,
            Stage::Running => is_before(time, event.start),
            Stage::Closing | Stage::Over => is_before(time, event.end()),
        }
    }
}

/// How far an event comes with a unit at or past its start, or one behind such a unit.
fn entered(event: &Event, time: Time33) -> Stage
    ensures { (latest : Option ℤ) (e : Standing) → event.now ≡ on_ring e → IsWithin latest e →
        result ≡ entered e (place latest time) }
{
    if event.covers(time) {
        Stage::Running
    } else {
        Stage::Closing
    }
}

/// An event in one stream.
#[derive(Clone, Copy, Debug, PartialEq, Eq)]
pub struct Part {
    pub stage: Stage,
    /// How many units of its slice are out.
    pub sent: usize,
}

/// An event in each of the switched streams, by their numbers, of which there are at most eight.
#[derive(Clone, Copy, Debug, PartialEq, Eq)]
pub struct Plan {
    parts: [Part; 8],
    /// In some stream a unit below its start or its end has begun after one at or past that.
    pub is_crossed: bool,
}

impl Plan {
    ghost use Rattle.std.specs.Prelude.{replicate, false};
    ghost use Rattle.splice_plans.specs.Turning.{waiting};
    ghost use Rattle.splice_plans.specs.Waiting.{waits_in_all, runs_in_any, stays};

    /// The event waits in all streams.
    pub fn new() -> Plan
        ensures parts { result.parts ≡ replicate 8 waiting }
        ensures crossed { result.is_crossed ≡ false }
    {
        Plan {
            parts: [Part {
                stage: Stage::Waiting,
                sent: 0,
            }; 8],
            is_crossed: false,
        }
    }

    /// The event in this stream.
    pub fn part(&self, stream: usize) -> Part
        ensures { result ≡ part_of self.now stream }
    {
        self.parts[stream % 8]
    }

    /// The event waits in all streams.
    pub fn waits(&self) -> bool
        ensures { result ≡ waits_in_all self.now }
    {
        self.parts.iter().all(|part| part.stage == Stage::Waiting)
    }

    /// The event runs in a stream.
    pub fn runs(&self) -> bool
        ensures { result ≡ runs_in_any self.now }
    {
        self.parts.iter().any(|part| part.stage == Stage::Running)
    }

    /// A unit of this time in this stream leaves the plan of the event as it is, whether the event is played or not.
    pub fn stays(&self, stream: usize, event: &Event, time: Time33) -> bool
        ensures { result ≡ stays event.now time (part_of self.now stream).stage }
    {
        self.part(stream).stage.stays(event, time)
    }

    /// The plan with this part in this stream.
    pub fn with_part(self, stream: usize, part: Part) -> Plan
        ensures { result ≡ with_part self stream part }
    {
        let mut plan = self;
        plan.parts[stream % 8] = part;
        plan
    }

    /// The plan of an event with a unit of this time in this stream, where the event is played or not.
    pub fn turned(self, stream: usize, event: &Event, time: Time33, plays: bool) -> Plan
        ensures { (latest : Option ℤ) (e : Standing) → event.now ≡ on_ring e → IsWithin latest e → IsNearHigh latest (place latest time) →
            result ≡ plan_turned e (place latest time) plays stream self }
    {
        let part = self.part(stream);
        let mut plan = self.with_part(
            stream,
            Part {
                stage: part.stage.turned(event, time, plays),
                sent: part.sent,
            },
        );
        plan.is_crossed = plan.is_crossed || part.stage.is_crossed_by(event, time);
        plan
    }
}

impl Default for Plan {
    /// What fills an unused place of a table.
    fn default() -> Plan {
        Plan::new()
    }
}
