//! Bytes of packets as they stand on a network.

ghost use Rattle.std.specs.Prelude.{◌≡◌, slice_index};

/// The 188 bytes of a packet of PID 0x0100 with this adaptation_field_control, continuity_counter and fifth byte
/// (ISO/IEC 13818-1, 2.4.3.2).
pub fn packet_bytes(control: u8, counter: u8, fifth: u8) -> [u8; 188]
    ensures sync { slice_index result 0 ≡ 71 }
    ensures fifth { slice_index result 4 ≡ fifth }
{
    let mut bytes = [0xA5; 188];
    bytes[0] = 0x47;
    bytes[1] = 0x01;
    bytes[2] = 0x00;
    bytes[3] = control % 4 * 16 + counter % 16;
    bytes[4] = fifth;
    bytes
}
