//! The ring of 33-bit times.

ghost use Rattle.std.specs.Prelude.{◌≡◌, ℕ, ◌+◌, ◌-◌, ◌%◌, ◌^◌, ◌<◌, ◌≤◌, MatchOption, pos, negsuc, ◌+ℤ◌, ◌≤ℤ◌, ◌<ℤ◌};
ghost use Rattle.pes_time.specs.Line.{signed, ring_of};

use std::marker::Model;

/// One turn of the ring, in ticks.
const TURN: u64 = 1 << 33;

/// A time stamp of ISO/IEC 13818-1, 2.4.3.7: ticks of 90 kHz, modulo 2^33. A contract sees it as the number of its ticks.
///
/// Stamps are not ordered by their numbers, since the ring wraps every 26.5 hours: compare by [`Time33::signed_from`].
#[derive(Clone, Copy, Debug, PartialEq, Eq)]
pub struct Time33 {
    ticks: u64,
}

impl Model for Time33 {
    ghost use Rattle.std.specs.Prelude.{ℕ, ◌<◌, ◌^◌};

    ghost Value = { ℕ };

    ghost view = { λ t. t.ticks };

    ghost invariant = { λ t. t.ticks < 2 ^ 33 };

    ghost inverse = { λ n. record { ticks = n } };
}

impl Time33 {
    /// The time at this number of 90 kHz ticks, or `None` where the number is 2^33 or more.
    pub fn new(ticks: u64) -> Option<Time33>
        ensures { MatchOption result (2 ^ 33 ≤ ticks) (λ time. (time ≡ ticks) × (ticks < 2 ^ 33)) }
    {
        if ticks < TURN {
            Some(Time33 { ticks })
        } else {
            None
        }
    }

    /// The time at this number of ticks, where it is known to be one.
    pub(crate) fn from_ticks(ticks: u64) -> Time33
        requires { ticks < 2 ^ 33 }
        ensures { result ≡ ticks }
    {
        Time33 { ticks }
    }

    /// The number of 90 kHz ticks, below 2^33.
    pub fn ticks(self) -> u64
        ensures value { result ≡ self }
        ensures below { result < 2 ^ 33 }
    {
        self.ticks
    }

    /// The time this many 90 kHz ticks later, modulo 2^33.
    pub fn plus(self, ticks: u64) -> Time33
        ensures { result ≡ (self + ticks) % 2 ^ 33 }
    {
        Time33 {
            ticks: (self.ticks + ticks % TURN) % TURN,
        }
    }

    /// The time this many 90 kHz ticks earlier, modulo 2^33.
    pub fn minus(self, ticks: u64) -> Time33
        ensures { result ≡ (self + (2 ^ 33 - ticks % 2 ^ 33)) % 2 ^ 33 }
    {
        Time33 {
            ticks: (self.ticks + (TURN - ticks % TURN)) % TURN,
        }
    }

    /// The way from `other` to this time on the ring, in 90 kHz ticks: the integer congruent to their difference modulo 2^33
    /// that lies in `[-2^32, 2^32)`. It is negative where this time is the earlier one of two that lie within 2^32 of one another.
    pub fn signed_from(self, other: Time33) -> i64
        ensures way { result ≡ signed self other }
        ensures congruent { ring_of (pos other +ℤ result) ≡ self }
        ensures low { negsuc (2 ^ 32 - 1) ≤ℤ result }
        ensures high { result <ℤ pos (2 ^ 32) }
    {
        let way = (self.ticks + (TURN - other.ticks)) % TURN;
        if way < TURN / 2 {
            way as i64
        } else {
            way as i64 - TURN as i64
        }
    }
}
