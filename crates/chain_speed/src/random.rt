//! Numbers that look random and follow from a seed.

ghost use Rattle.std.specs.Prelude.{◌≡◌, ◌<◌};

/// An odd number whose bits are evenly mixed.
const SPREAD: u64 = 0x9E37_79B9_7F4A_7C15;

/// A stream of numbers that follows from a seed (xorshift).
#[derive(Clone, Copy, Debug)]
pub struct Random {
    state: u64,
}

impl Random {
    /// The numbers of this seed; each purpose has numbers of its own.
    pub fn new(seed: u64, purpose: u64) -> Random {
        let mixed = spread(seed.wrapping_add(spread(purpose.wrapping_add(1))));
        Random { state: mixed | 1 }
    }

    /// The next number.
    pub fn next(&mut self) -> u64 {
        let mut state = self.state;
        state ^= state << 13;
        state ^= state >> 7;
        state ^= state << 17;
        self.state = state;
        state
    }

    /// The next number below this one, or 0 where there is none.
    pub fn below(&mut self, limit: u64) -> u64
        ensures below { 0 < limit → result < limit }
        ensures none { limit ≡ 0 → result ≡ 0 }
    {
        (self.next() >> 16).checked_rem(limit).unwrap_or(0)
    }
}

/// The number with its bits mixed.
pub fn spread(number: u64) -> u64 {
    let mut mixed = number.wrapping_mul(SPREAD);
    mixed ^= mixed >> 29;
    mixed = mixed.wrapping_mul(SPREAD);
    mixed ^ (mixed >> 32)
}
