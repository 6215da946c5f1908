//! The first bytes of packets.

ghost use Rattle.std.specs.Prelude.{◌≡◌, slice_index};

/// The first four bytes of a packet with these flags, this PID and this fourth byte (ISO/IEC 13818-1, 2.4.3.2).
pub fn first_bytes(flags_and_pid: u16, control: u8) -> [u8; 4]
    ensures sync { slice_index result 0 ≡ 71 }
    ensures control { slice_index result 3 ≡ control }
{
    let [high, low] = flags_and_pid.to_be_bytes();
    [0x47, high, low, control]
}
