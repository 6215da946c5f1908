//! How far the greatest time so far is past the begin of the cut.

ghost use Rattle.std.specs.Prelude.{◌≡◌, ℕ, ℤ, ◌^◌, pos, negsuc, ◌≤ℤ◌, ◌+ℤ◌, ◌&&◌, Some};
ghost use Rattle.std.specs.Int.{int_max};
ghost use Rattle.pes_time.specs.Line.{lift};
ghost use Rattle.unit_cut.specs.Cutting.{inside};
ghost use lib.Signed.{le_z, lt_z};

use pes_time::Time33;

/// A distance past every cut, in ticks of 90 kHz.
const FAR: i64 = 1 << 40;

/// How many ticks of 90 kHz the greatest time so far is past the cut's begin. It stops at `FAR`: neither the ring nor a number of 64 bits
/// could hold it for a run of any length.
#[derive(Clone, Copy, Debug, PartialEq, Eq)]
pub struct Distance {
    ticks: i64,
    ghost low: { negsuc (2 ^ 33) ≤ℤ ticks },
    ghost top: { ticks ≤ℤ pos (2 ^ 40) },
}

impl Distance {
    ghost use Rattle.unit_cut.specs.Standing.{IsDistance, OfDistance};

    /// The distance of the first time of a unit, which places the cut's begin on the line.
    pub fn start(first: Time33, from: Time33) -> Distance
        ensures { IsDistance result.ticks (lift (pos first) from) (pos first) }
    {
        Distance {
            ticks: -from.signed_from(first),
        }
    }

    /// How far a time is past the cut's begin that lies so far past the greatest one.
    fn of(&self, way: i64) -> i64
        requires low { negsuc 899999 ≤ℤ way }
        requires top { way ≤ℤ pos 900000 }
        ensures { result ≡ self.now.ticks +ℤ way }
    {
        self.ticks + way
    }

    /// Goes on by a way.
    fn raise(&mut self, way: i64)
        requires low { negsuc 899999 ≤ℤ way }
        requires top { way ≤ℤ pos 900000 }
        ensures { OfDistance self.old.ticks (λ begin high. IsDistance self.new.ticks begin
            (int_max high (high +ℤ way))) }
    {
        if way > 0 {
            self.ticks = self.of(way).min(FAR);
        }
    }

    /// Goes on to a unit whose time lies so far past the greatest before it, or before that one. Whether its time lies inside the cut.
    pub fn advance(&mut self, way: i64, length: u32) -> bool
        requires low { negsuc 899999 ≤ℤ way }
        requires top { way ≤ℤ pos 900000 }
        ensures distance { OfDistance self.old.ticks
            (λ begin high. IsDistance self.new.ticks begin (int_max high (high +ℤ way))) }
        ensures inside { OfDistance self.old.ticks (λ begin high. result ≡ inside begin length (Some (high +ℤ way))) }
    {
        let at = self.of(way);
        self.raise(way);
        is_within(at, length)
    }
}

/// Whether a distance is below a length.
fn is_within(at: i64, length: u32) -> bool
    ensures { result ≡ (le_z (pos 0) at && lt_z at (pos length)) }
{
    at >= 0 && at < i64::from(length)
}
