//! The look for the next packet: in its place, or where sync is found again.

ghost use Rattle.std.specs.Prelude.{◌≡◌, ℕ, ◌+◌, ◌^◌, ◌<◌, ◌≤◌, true, false, List, Option, length, take, IfOk, OnErr};
ghost use Rattle.std.specs.Io.KnownBytes.{Consumes};
ghost use Rattle.packet_recovery.specs.Framing.{begins_with_sync};
ghost use Rattle.packet_recovery.specs.Reading.{rest_of, StartsAt, WasFilled, FilledCounts, Missed, Sighted, SightCounts, most_turns, most_calls_of};

use crate::search::{Regained, search};
use ts_packet::packet::SYNC_BYTE;
use ts_packet::transfer::{FillFault, fill};
use ts_packet::{Packet, Source};

/// Reads the bytes of a packet, of which the sync byte may have been read, and answers how many there are: fewer than 188 only at the end.
fn fill_rest<S: Source>(
    source: &mut S,
    bytes: &mut [u8; 188],
    is_ahead: bool,
) -> Result<usize, FillFault>
    ensures ok { IfOk result (λ n. WasFilled (rest_of false is_ahead (S.remaining source.old)) (S.remaining source.new) bytes.new n) }
    ensures err { (before : ℕ) → before < 2 ^ 64
        → OnErr result (Missed (rest_of false is_ahead (S.remaining source.old)) (S.remaining source.new) before before) }
    ensures counts { FilledCounts result (S.counts source.old) (S.counts source.new) }
    ensures few { (S.counts source.new).calls ≤ (S.counts source.old).calls + 2 ^ 20 }
{
    bytes[0] = SYNC_BYTE;
    if is_ahead {
        match fill(source, &mut bytes[1..]) {
            Ok(n) => return Ok(1 + n),
            Err(fault) => return Err(fault),
        }
    }
    fill(source, bytes)
}

/// A window with this packet at its front.
fn window_of(packet: &Packet) -> [u8; 189]
    ensures front { take 188 result ≡ packet.now }
    ensures first { begins_with_sync result ≡ begins_with_sync packet.now }
    ensures size { length packet.now ≡ 188 }
{
    let mut window = [0; 189];
    window[..188].copy_from_slice(packet.as_bytes());
    window
}

/// Makes this the packet at the front of the window.
fn set_front(packet: &mut Packet, window: &[u8; 189])
    ensures { packet.new ≡ take 188 window.now }
{
    packet.set_bytes(&window[..188]);
}

/// Looks for the next packet behind these 188 bytes, of which the first is no sync byte.
fn look_behind<S: Source>(
    source: &mut S,
    packet: &mut Packet,
    skipped: &mut u64,
) -> Result<Option<Regained>, FillFault>
    requires { begins_with_sync packet.old ≡ false }
    ensures ok { (start : Option (List ℕ)) → Consumes start (S.remaining source.old) packet.old
        → IfOk result (λ o. Sighted o start (S.remaining source.new) packet.new skipped.old skipped.new) }
    ensures err { (start : Option (List ℕ)) → Consumes start (S.remaining source.old) packet.old
        → OnErr result (Missed start (S.remaining source.new) skipped.old skipped.new) }
    ensures counts { SightCounts result (S.counts source.old) (S.counts source.new) }
    ensures few { (S.counts source.new).calls ≤ (S.counts source.old).calls + most_turns skipped.old skipped.new }
{
    let mut window = window_of(packet);
    match search(source, &mut window, skipped) {
        Ok(regained) => {
            set_front(packet, &window);
            Ok(Some(regained))
        }
        Err(fault) => Err(fault),
    }
}

/// Looks for the next packet where fewer than 188 bytes lie ready.
fn look_apart<S: Source>(
    source: &mut S,
    packet: &mut Packet,
    is_ahead: bool,
    skipped: &mut u64,
) -> Result<Option<Regained>, FillFault>
    ensures ok { IfOk result (λ o. Sighted o (rest_of false is_ahead (S.remaining source.old)) (S.remaining source.new)
        packet.new skipped.old skipped.new) }
    ensures err { OnErr result (Missed (rest_of false is_ahead (S.remaining source.old)) (S.remaining source.new) skipped.old skipped.new) }
    ensures counts { SightCounts result (S.counts source.old) (S.counts source.new) }
    ensures few { (S.counts source.new).calls ≤ (S.counts source.old).calls + most_calls_of skipped.old skipped.new }
{
    let before = *skipped;
    let mut bytes = [0; 188];
    match fill_rest(source, &mut bytes, is_ahead) {
        Ok(188) => {
            packet.set_bytes(&bytes);
            if packet.as_bytes()[0] == SYNC_BYTE {
                return Ok(None);
            }
            look_behind(source, packet, skipped)
        }
        Ok(n) => {
            *skipped = before.saturating_add(n as u64);
            Ok(Some(Regained::Nowhere))
        }
        Err(fault) => Err(fault),
    }
}

/// Looks for the next packet, of which the 188 bytes that come next may have been read into the slot.
///
/// # Errors
///
/// `Io` where a read failed; `Turns` where 2^20 reads brought fewer than 188 bytes, or a search took that many for 188 bytes to leave out.
pub(crate) fn look<S: Source>(
    source: &mut S,
    packet: &mut Packet,
    is_filled: bool,
    is_ahead: bool,
    skipped: &mut u64,
) -> Result<Option<Regained>, FillFault>
    requires { is_filled ≡ true → is_ahead ≡ false }
    ensures ok { (start : Option (List ℕ)) → StartsAt is_filled start (rest_of false is_ahead (S.remaining source.old)) packet.old
        → IfOk result (λ o. Sighted o start (S.remaining source.new) packet.new skipped.old skipped.new) }
    ensures err { (start : Option (List ℕ)) → StartsAt is_filled start (rest_of false is_ahead (S.remaining source.old)) packet.old
        → OnErr result (Missed start (S.remaining source.new) skipped.old skipped.new) }
    ensures counts { SightCounts result (S.counts source.old) (S.counts source.new) }
    ensures few { (S.counts source.new).calls ≤ (S.counts source.old).calls + most_calls_of skipped.old skipped.new }
{
    let _before = *skipped;
    if is_filled {
        if packet.as_bytes()[0] == SYNC_BYTE {
            return Ok(None);
        }
        return look_behind(source, packet, skipped);
    }
    look_apart(source, packet, is_ahead, skipped)
}
