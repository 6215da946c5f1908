//! The number of an elementary stream or a table.

ghost use Rattle.std.specs.Prelude.{◌≡◌, ℕ, ◌<◌, ◌^◌, ◌+◌, ◌*◌, ◌%◌, Some, None, if◌then◌else◌, nat_lt};

use std::marker::Model;

/// A packet identifier: a number below 0x2000 (ISO/IEC 13818-1, 2.4.3.3, PID).
#[derive(Clone, Copy, Debug, PartialEq, Eq)]
pub struct Pid {
    number: u16,
}

impl Model for Pid {
    ghost use Rattle.std.specs.Prelude.{ℕ, ◌<◌};

    ghost Value = { ℕ };

    ghost view = { λ p. p.number };

    ghost invariant = { λ p. p.number < 8192 };

    ghost inverse = { λ n. record { number = n } };
}

impl Default for Pid {
    /// PID 0, that of the PAT.
    fn default() -> Pid
        ensures { result ≡ 0 }
    {
        Pid { number: 0 }
    }
}

impl Pid {
    /// The PID of this number; `None` exactly for 0x2000 and above.
    pub fn new(number: u16) -> Option<Pid>
        ensures { result ≡ (if nat_lt number 8192 then Some number else None) }
    {
        if number < 0x2000 {
            Some(Pid { number })
        } else {
            None
        }
    }

    /// The PID in the second and the third byte of a packet: the low five bits of one, and the other.
    pub fn of_bits(high: u8, low: u8) -> Pid
        ensures { result ≡ high % 32 * 256 + low }
    {
        Pid {
            number: high as u16 % 32 * 256 + low as u16,
        }
    }

    /// The number, below 0x2000.
    pub fn get(self) -> u16
        ensures value { result ≡ self }
        ensures below { result < 8192 }
    {
        self.number
    }
}
