//! A buffer's worth of bytes from or to a device, in as many calls as it takes.

ghost use Rattle.std.specs.Prelude.{◌≡◌, ◌≢◌, ℕ, ◌+◌, ◌-◌, ◌^◌, ◌<◌, ◌≤◌, length, take, IfOk, IfErr, OnOk, OnErr, false};
ghost use Rattle.std.specs.Io.KnownBytes.{Appends};
ghost use Rattle.ts_packet.specs.Transfers.{FillCounts, Filled, FallsShort, WentWell};
ghost use Rattle.ts_packet.specs.Sinks.{Later, Blamed, BlamedIn};

use crate::device::{DeviceFault, Source, Target};
use crate::sink::PutFault;
use thiserror::Error;

/// How many calls of a device one transfer may take: 2^20.
pub const MAX_TURNS: u32 = 0x10_0000;

/// How many it may take behind its first.
const MORE_TURNS: u32 = MAX_TURNS - 1;

/// Why a read gave up.
#[derive(Clone, Copy, Debug, PartialEq, Eq, Drop, Error)]
pub enum FillFault {
    /// The device failed.
    #[error("the device failed")]
    Io,
    /// 2^20 calls did not give enough.
    #[error("too many calls gave too few bytes")]
    Turns,
}

/// Reads until the buffer is full or the source ends, and answers how many bytes there are. An interrupted read is tried again.
/// Behind a failure or the end nothing more is read.
///
/// Bytes that lie ready are taken here: the size of what is copied is known where this is compiled in.
///
/// # Errors
///
/// `Io` where a read failed, `Turns` where 2^20 reads neither filled the buffer nor found the end. Then fewer bytes were read than the
/// buffer takes.
#[inline(always)]
pub fn fill<S: Source>(source: &mut S, buf: &mut [u8]) -> Result<usize, FillFault>
    requires { 0 < length buf.old }
    ensures ok { IfOk result (λ n. Filled (S.remaining source.old) (S.remaining source.new) buf.new n) }
    ensures err { OnErr result (FallsShort (length buf.new) (S.remaining source.old) (S.remaining source.new)) }
    ensures counts { FillCounts (length buf.new) result (S.counts source.old) (S.counts source.new) }
    ensures few { (S.counts source.new).calls ≤ (S.counts source.old).calls + 2 ^ 20 }
    ensures later { Later (S.counts source.old) (S.counts source.new) }
{
    if source.read_ready(buf) {
        return Ok(buf.len());
    }
    fill_in_turns(source, buf)
}

/// Fills the buffer as `fill` does, in as many reads as it takes.
#[cold]
#[inline(never)]
fn fill_in_turns<S: Source>(source: &mut S, buf: &mut [u8]) -> Result<usize, FillFault>
    requires { 0 < length buf.old }
    ensures ok { IfOk result (λ n. Filled (S.remaining source.old) (S.remaining source.new) buf.new n) }
    ensures err { OnErr result (FallsShort (length buf.new) (S.remaining source.old) (S.remaining source.new)) }
    ensures counts { FillCounts (length buf.new) result (S.counts source.old) (S.counts source.new) }
    ensures few { (S.counts source.new).calls ≤ (S.counts source.old).calls + 2 ^ 20 }
    ensures later { Later (S.counts source.old) (S.counts source.new) }
{
    let mut at = 0;
    for _turn in 0..MAX_TURNS {
        match source.read(&mut buf[at..]) {
            Ok(0) => return Ok(at),
            Ok(n) => {
                at += n;
                if at == buf.len() {
                    return Ok(at);
                }
            }
            Err(DeviceFault::Interrupted) => {}
            Err(DeviceFault::Failed) => return Err(FillFault::Io),
        }
    }
    Err(FillFault::Turns)
}

/// Writes all the bytes. An interrupted write is tried again.
///
/// The first write stands apart: mostly it takes all, and the size of what it copies is known where this is compiled in.
///
/// # Errors
///
/// `Io` where a write failed, `Stuck` where one took no byte, `Turns` where 2^20 writes did not take all; never `Failed`. Then a front
/// of the bytes is out, and nothing more is written.
#[inline(always)]
pub fn write_whole<W: Target>(target: &mut W, bytes: &[u8]) -> Result<(), PutFault>
    requires { 0 < length bytes.now }
    ensures ok { OnOk result (Appends (W.contents target.old) (W.contents target.new) bytes.now) }
    ensures err { OnErr result ((n : ℕ) × Appends (W.contents target.old) (W.contents target.new) (take n bytes.now)) }
    ensures well { OnOk result (WentWell (W.counts target.old) (W.counts target.new)) }
    ensures blamed { IfErr result (λ f. Blamed f (W.counts target.old) (W.counts target.new) false) }
    ensures failed { result ≢ Err PutFault.Failed }
    ensures few { (W.counts target.new).calls ≤ (W.counts target.old).calls + 2 ^ 20 }
    ensures later { Later (W.counts target.old) (W.counts target.new) }
{
    match target.write(bytes) {
        Ok(n) => {
            if n == 0 {
                return Err(PutFault::Stuck);
            }
            if n == bytes.len() {
                return Ok(());
            }
            write_rest(target, &bytes[n..])
        }
        Err(DeviceFault::Interrupted) => write_rest(target, bytes),
        Err(DeviceFault::Failed) => Err(PutFault::Io),
    }
}

/// The further writes of `write_whole`.
#[cold]
#[inline(never)]
fn write_rest<W: Target>(target: &mut W, bytes: &[u8]) -> Result<(), PutFault>
    requires { 0 < length bytes.now }
    ensures ok { OnOk result (Appends (W.contents target.old) (W.contents target.new) bytes.now) }
    ensures err { OnErr result ((n : ℕ) × Appends (W.contents target.old) (W.contents target.new) (take n bytes.now)) }
    ensures well { OnOk result (WentWell (W.counts target.old) (W.counts target.new)) }
    ensures blamed { IfErr result (λ f. BlamedIn (2 ^ 20 - 1) f (W.counts target.old) (W.counts target.new) false) }
    ensures failed { result ≢ Err PutFault.Failed }
    ensures few { (W.counts target.new).calls ≤ (W.counts target.old).calls + (2 ^ 20 - 1) }
    ensures later { Later (W.counts target.old) (W.counts target.new) }
{
    let mut at = 0;
    for _turn in 0..MORE_TURNS {
        match target.write(&bytes[at..]) {
            Ok(0) => return Err(PutFault::Stuck),
            Ok(n) => {
                at += n;
                if at == bytes.len() {
                    return Ok(());
                }
            }
            Err(DeviceFault::Interrupted) => {}
            Err(DeviceFault::Failed) => return Err(PutFault::Io),
        }
    }
    Err(PutFault::Turns)
}
