//! Bit rates by clock references.

ghost use Rattle.std.specs.Prelude.{◌≡◌};
ghost use Rattle.stream_facts.specs.Rates.{pcr_ticks, rate_of};

/// Ticks of 27 MHz in a second.
const SECOND: u64 = 27_000_000;

/// One turn of the clock: 2^33 ticks of 90 kHz.
const TURN: u64 = 300 << 33;

/// The greatest time between two references that go on from one another, in ticks: ten seconds. One second is allowed (ISO/IEC 13818-1,
/// 2.7.2: 0.1 s).
const GAP: u64 = 10 * SECOND;

/// The ticks of 27 MHz of a clock reference (ISO/IEC 13818-1, 2.4.3.5): 300 times the base of 33 bits, and the extension of 9.
pub(crate) fn ticks_of(pcr: &[u8; 6]) -> u64
    ensures { result ≡ pcr_ticks pcr.now }
{
    let base = u64::from(pcr[0]) * (1 << 25)
        + u64::from(pcr[1]) * (1 << 17)
        + u64::from(pcr[2]) * (1 << 9)
        + u64::from(pcr[3]) * 2
        + u64::from(pcr[4] / 128);
    let extension = u64::from(pcr[4] % 2) * 256 + u64::from(pcr[5]);
    base * 300 + extension
}

/// The clock references of a PID: the last one, and how many packets went by in how many ticks between those that go on from one another.
#[derive(Clone, Copy, Debug)]
pub(crate) struct ClockRun {
    last: Option<(u64, u64)>,
    packets: u64,
    ticks: u64,
}

impl ClockRun {
    /// None yet.
    pub(crate) fn new() -> ClockRun {
        ClockRun {
            last: None,
            packets: 0,
            ticks: 0,
        }
    }

    /// A reference of so many ticks, in the packet before which so many stand.
    pub(crate) fn add(&mut self, ticks: u64, before: u64) {
        if let Some((then, place)) = self.last {
            let way = if ticks >= then {
                ticks - then
            } else {
                ticks.saturating_add(TURN).saturating_sub(then)
            };
            if way <= GAP {
                self.ticks = self.ticks.saturating_add(way);
                self.packets = self.packets.saturating_add(before.saturating_sub(place));
            }
        }
        self.last = Some((ticks, before));
    }

    /// The ticks between references that go on from one another.
    pub(crate) fn ticks(&self) -> u64 {
        self.ticks
    }

    /// Bits a second, by the packets between the references.
    pub(crate) fn bit_rate(&self) -> Option<u64> {
        rate_of(self.packets.saturating_mul(188), self.ticks)
    }
}

/// Bits a second of so many bytes in so many ticks; `None` where no time went by.
pub(crate) fn rate_of(bytes: u64, ticks: u64) -> Option<u64>
    ensures { result ≡ rate_of bytes ticks }
{
    if ticks == 0 {
        return None;
    }
    let bits = u128::from(bytes) * 8 * u128::from(SECOND);
    u64::try_from(bits / u128::from(ticks)).ok()
}
