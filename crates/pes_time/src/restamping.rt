//! The stamps of a unit moved in place.

ghost use Rattle.std.specs.Prelude.{◌≡◌, ◌+◌, ◌<◌, ◌≤◌, ◌^◌, length, Ok};
ghost use Rattle.pes_time.specs.Stamps.{head_of, restamped, with_stamp_at, with_each, later, with_stamps_zeroed};

use crate::head::PesHead;
use crate::time::Time33;

/// Writes the 33 bits of a stamp into its five bytes from `at` on. Prefix and marker bits stay.
#[tactic(auto, unfolding(crate::specs::Stamps::with_stamp_at))]
fn put_stamp(unit: &mut [u8], at: usize, time: Time33)
    requires { at + 5 ≤ length unit.old }
    ensures { unit.new ≡ with_stamp_at unit.old at time }
{
    let ticks = time.ticks();
    unit[at] = unit[at] / 16 * 16 + (ticks / (1 << 30)) as u8 * 2 + unit[at] % 2;
    unit[at + 1] = (ticks / (1 << 22) % 256) as u8;
    unit[at + 2] = (ticks / (1 << 15) % 128) as u8 * 2 + unit[at + 2] % 2;
    unit[at + 3] = (ticks / (1 << 7) % 256) as u8;
    unit[at + 4] = (ticks % 128) as u8 * 2 + unit[at + 4] % 2;
}

/// Writes the stamps of a head, `delta` ticks later, where they stand.
#[tactic(auto, unfolding(crate::specs::Stamps::restamped), using(crate::proofs::StampLemmas::pts_fits, crate::proofs::StampLemmas::dts_fits))]
fn put_stamps(unit: &mut [u8], head: &PesHead, delta: Time33)
    requires { head_of unit.old ≡ Ok head.now }
    ensures { unit.new ≡ restamped unit.old delta }
{
    if let PesHead::Timed {
        pts,
        dts,
        pts_at,
        dts_at,
    } = *head
    {
        put_stamp(unit, pts_at, pts.plus(delta.ticks()));
        if let Some(dts_at) = dts_at {
            if let Some(dts) = dts {
                put_stamp(unit, dts_at, dts.plus(delta.ticks()));
            }
        }
    }
}

/// Moves the stamps of a unit by `delta` ticks of 90 kHz, modulo 2^33, where they stand (ISO/IEC 13818-1, 2.4.3.7).
/// It changes the 33 value bits of PTS and DTS alone: prefix bits, marker bits and all other bytes stay, and an untimed unit stays whole.
/// The head is the one that [`PesHead::read`] reads from these bytes.
#[tactic(auto, using(crate::proofs::ReadLemmas::moved_head, crate::proofs::ReadLemmas::moved_rest))]
pub fn restamp(unit: &mut [u8], head: &PesHead, delta: Time33)
    requires { head_of unit.old ≡ Ok head.now }
    ensures moved { unit.new ≡ restamped unit.old delta }
    // The stamps alone are later, and no other bit is changed.
    ensures head { head_of unit.new ≡ Ok (with_each (later delta) head.now) }
    ensures rest { with_stamps_zeroed unit.new ≡ with_stamps_zeroed unit.old }
{
    put_stamps(unit, head, delta);
}
