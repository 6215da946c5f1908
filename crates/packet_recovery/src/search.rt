//! The search for the next packet where sync is lost.

ghost use Rattle.std.specs.Prelude.{◌≡◌, ◌≢◌, ℕ, List, Option, ◌+◌, ◌-◌, ◌^◌, ◌<◌};
ghost use Rattle.std.specs.Prelude.{◌≤◌, false, length, take, drop, slice_index, IfOk, OnErr};
ghost use Rattle.std.specs.Io.KnownBytes.{Keeps, prepend_known};
ghost use Rattle.ts_packet.specs.Transfers.{IsCounted, CountsFailure, CountsZero, halts};
ghost use Rattle.packet_recovery.specs.Framing.{begins_with_sync};
ghost use Rattle.packet_recovery.specs.Reading.{WasReadBehind, PassedOn, Searching, Stepped, takes_few};
ghost use Rattle.packet_recovery.specs.Reading.{StepCounts, Searched, Missed, SearchCounts, most_turns};

use ts_packet::packet::SYNC_BYTE;
use ts_packet::transfer::{FillFault, MAX_TURNS};
use ts_packet::{DeviceFault, Source};

/// What a search found.
#[derive(Clone, Copy, Debug, PartialEq, Eq, Drop)]
pub(crate) enum Regained {
    /// A packet, and the sync byte of the next one, which is read.
    Followed,
    /// A packet behind which the bytes end.
    Last,
    /// No packet up to the end of the bytes.
    Nowhere,
}

/// Takes the bytes before the first sync byte from this place on out of those held, all where there is none, and answers how many
/// they are.
pub(crate) fn take_out(window: &mut [u8; 189], held: usize, from: usize) -> usize
    requires held { held ≤ 189 }
    requires from { from ≤ held }
    ensures within { result ≤ held }
    ensures least { from ≤ result }
    ensures kept { take (held - result) window.new ≡ drop result (take held window.old) }
    ensures none { (k : ℕ) → from ≤ k → k < result → slice_index window.old k ≢ 71 }
{
    let mut at = from;
    while at < held && window[at] != SYNC_BYTE {
        at += 1;
    }
    window.rotate_left(at);
    at
}

/// Reads behind the bytes that are held, once, and answers how many bytes; 0 only at the end.
fn read_behind<S: Source>(
    source: &mut S,
    window: &mut [u8; 189],
    held: usize,
) -> Result<usize, DeviceFault>
    requires { held < 189 }
    ensures ok { IfOk result (λ n. WasReadBehind (S.remaining source.old) (S.remaining source.new) (take held window.old)
        (take (held + n) window.new) n) }
    ensures fits { IfOk result (λ n. held + n ≤ 189) }
    ensures kept { OnErr result (take held window.new ≡ take held window.old) }
    ensures still { OnErr result (Keeps (S.remaining source.old) (S.remaining source.new)) }
    ensures calls { IsCounted (S.counts source.old).calls (S.counts source.new).calls }
    ensures failures { CountsFailure result (S.counts source.old).failed (S.counts source.new).failed }
    ensures zeros { CountsZero result (S.counts source.old).zeros (S.counts source.new).zeros }
    ensures halted { (S.counts source.new).halted ≡ halts result }
{
    source.read(&mut window[held..])
}

/// Takes the bytes out of those held where sync is not found again, up to the first where it may be, and answers how many they are;
/// `None` where a packet stands first, and the sync byte of the next one behind it.
fn pass_on(window: &mut [u8; 189], held: usize) -> Option<usize>
    requires { held ≤ 189 }
    ensures { PassedOn result held window.old window.new }
{
    if held < 189 {
        return Some(take_out(window, held, 0));
    }
    if window[0] == SYNC_BYTE && window[188] == SYNC_BYTE {
        return None;
    }
    Some(take_out(window, held, 1))
}

/// What a read of a search came to.
#[derive(Clone, Copy, Debug, PartialEq, Eq, Drop)]
enum Step {
    /// It goes on: so many bytes more were left out.
    On(usize),
    /// It is over.
    Over(Regained),
}

/// Reads once more, and leaves out what is in no packet.
///
/// # Errors
///
/// The device's.
fn read_on<S: Source>(
    source: &mut S,
    window: &mut [u8; 189],
    held: &mut usize,
    skipped: &mut u64,
) -> Result<Step, DeviceFault>
    requires { held.old ≤ 188 }
    ensures within { held.new ≤ 188 }
    ensures some { IfOk result (λ s. takes_few s) }
    ensures later { skipped.old ≤ skipped.new }
    ensures fits { skipped.new < 2 ^ 64 }
    ensures ok { (start : Option (List ℕ)) (out : List ℕ) (before : ℕ)
        → Searching start (S.remaining source.old) out (take held.old window.old) before skipped.old
        → IfOk result (λ s. Stepped s start (S.remaining source.new) out window.new held.new before skipped.new) }
    ensures err { (start : Option (List ℕ)) (out : List ℕ) (before : ℕ)
        → Searching start (S.remaining source.old) out (take held.old window.old) before skipped.old
        → OnErr result (Searching start (S.remaining source.new) out (take held.new window.new) before skipped.new) }
    ensures calls { IsCounted (S.counts source.old).calls (S.counts source.new).calls }
    ensures counts { StepCounts result (S.counts source.old) (S.counts source.new) }
{
    let _before = *skipped;
    match read_behind(source, window, *held) {
        Ok(0) => {
            if *held == 188 && window[0] == SYNC_BYTE {
                return Ok(Step::Over(Regained::Last));
            }
            *skipped = skipped.saturating_add(*held as u64);
            Ok(Step::Over(Regained::Nowhere))
        }
        Ok(n) => match pass_on(window, *held + n) {
            None => Ok(Step::Over(Regained::Followed)),
            Some(out) => {
                *held = *held + n - out;
                *skipped = skipped.saturating_add(out as u64);
                Ok(Step::On(out))
            }
        },
        Err(fault) => Err(fault),
    }
}

/// Reads on behind these 188 bytes, of which the first is no sync byte, until a packet is found, which then stands at the front of the
/// window, or the bytes end. What is left out is counted. No more than a packet and the byte behind it is held.
///
/// # Errors
///
/// `Io` where a read failed; `Turns` where 2^20 reads did not bring 188 bytes to be left out, nor a packet. Behind either nothing more is
/// read.
pub(crate) fn search<S: Source>(
    source: &mut S,
    window: &mut [u8; 189],
    skipped: &mut u64,
) -> Result<Regained, FillFault>
    requires { begins_with_sync window.old ≡ false }
    ensures ok { IfOk result (λ r. Searched r (prepend_known (take 188 window.old) (S.remaining source.old))
        (S.remaining source.new) (take 188 window.new) skipped.old skipped.new) }
    ensures err { OnErr result (Missed (prepend_known (take 188 window.old) (S.remaining source.old))
        (S.remaining source.new) skipped.old skipped.new) }
    ensures counts { SearchCounts result (S.counts source.old) (S.counts source.new) }
    ensures few { (S.counts source.new).calls ≤ (S.counts source.old).calls + most_turns skipped.old skipped.new }
{
    let _before = *skipped;
    let mut held = 188;
    let mut loose = 0;
    let mut turns = 0;
    for _call in 0..u64::MAX {
        match read_on(source, window, &mut held, skipped) {
            Ok(Step::On(out)) => loose += out,
            Ok(Step::Over(regained)) => return Ok(regained),
            Err(DeviceFault::Interrupted) => {}
            Err(DeviceFault::Failed) => return Err(FillFault::Io),
        }
        if loose >= 188 {
            loose %= 188;
            turns = 0;
        } else {
            turns += 1;
            if turns == MAX_TURNS {
                return Err(FillFault::Turns);
            }
        }
    }
    Err(FillFault::Turns)
}
