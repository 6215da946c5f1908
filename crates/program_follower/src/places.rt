//! Which of the switched streams a packet is of, looked up by its PID.

ghost use Rattle.std.specs.Prelude.{◌≡◌, ◌<◌, ◌≤◌, ℕ, List, length, IfSome};
ghost use Rattle.program_follower.specs.Faults.{pids_in};
ghost use Rattle.program_follower.specs.Streaming.{place_in, HasPlaces};

use psi_tables::Stream;
use std::marker::Model;
use ts_packet::Packet;

/// Of each PID (ISO/IEC 13818-1, 2.4.3.3) the number of the first switched stream that is on it: it tells which of up to eight streams a
/// packet is of, without a look at each.
#[derive(Drop)]
pub(crate) struct StreamPlaces {
    /// Under each PID the number and 1; 0 where no switched stream is on the PID.
    numbers: [u8; 8192],
}

impl Model for StreamPlaces {
    ghost use Rattle.std.specs.Prelude.{◌≡◌, ◌<◌, ◌≤◌, ℕ, List, length, slice_index_or};

    ghost Value = { List ℕ };

    ghost view = { λ s. s.numbers };

    ghost invariant = { λ s. (length s.numbers ≡ 8192)
        × ((pid : ℕ) → pid < 8192 → slice_index_or s.numbers pid 0 ≤ 8) };
}

impl StreamPlaces {
    /// The places of these streams. The table is filled from the last stream to the first, so that of streams on one PID the first has it.
    #[inline(never)]
    pub(crate) fn new(streams: &[Stream]) -> StreamPlaces
        requires { length streams.now ≤ 8 }
        ensures { HasPlaces result (pids_in streams.now) }
    {
        let mut numbers = [0; 8192];
        let mut index = streams.len();
        while index > 0 {
            index -= 1;
            numbers[streams[index].pid.get() as usize] = index as u8 + 1;
        }
        StreamPlaces { numbers }
    }

    /// The number of the first stream that the packet is of; `None` where it is of none, as each packet is that is marked in error
    /// (ISO/IEC 13818-1, 2.4.3.3, transport_error_indicator).
    #[inline(always)]
    pub(crate) fn place_of(&self, packet: &Packet) -> Option<usize>
        ensures below { IfSome result (λ place. place < 8) }
        ensures first { (pids : List ℕ) → HasPlaces self.now pids → result ≡ place_in pids packet.now }
    {
        if packet.error() {
            return None;
        }
        let number = self.numbers[packet.pid().get() as usize];
        if number == 0 {
            return None;
        }
        Some(number as usize - 1)
    }
}
