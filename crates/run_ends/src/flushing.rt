//! The end of a run's output: nothing that was put is lost, and a failed flush is told.

ghost use Rattle.std.specs.Prelude.{◌≡◌, ◌≢◌, Err, IfErr, IfOk, OnOk, OnErr};
ghost use Rattle.std.specs.Io.KnownBytes.{Keeps, append_known};
ghost use Rattle.std.specs.Io.Buffered.{writer_contents, writer_inner};
ghost use Rattle.run_ends.specs.Flushes.{WasFlushed, FailedToFlush};

use crate::attended::{Attended, LastFlush};
use std::io::{self, BufWriter, Write};

/// What a run tells whose output was flushed so.
fn told<X: Drop, F: Drop>(outcome: Result<X, F>, flushed: io::Result<()>, lost: F) -> Result<X, F>
    ensures done { OnOk flushed (result ≡ outcome) }
    ensures first { IfErr outcome (λ fault. result ≡ Err fault) }
    ensures lost { OnErr flushed (OnOk outcome (result ≡ Err lost)) }
{
    let value = outcome?;
    match flushed {
        Ok(()) => Ok(value),
        Err(_) => Err(lost),
    }
}

/// Flushes the writer at the end of a run, also after a fault.
///
/// # Errors
///
/// The fault of the run, where it stopped; else `lost` where the flush failed.
pub fn finish<X: Drop, F: Drop, W: Write>(
    outcome: Result<X, F>,
    writer: &mut Attended<W>,
    lost: F,
) -> Result<X, F>
    ensures first { IfErr outcome (λ fault. result ≡ Err fault) }
    ensures flushed { OnOk outcome (IfErr result (λ fault. fault ≡ lost)) }
    ensures done { IfOk outcome (λ x. OnOk result (result ≡ Ok x)) }
    ensures kept { Keeps (W.contents writer.old.inner) (W.contents writer.new.inner) }
    ensures made { writer.new.last_flush ≢ LastFlush.Due }
    ensures well { writer.new.last_flush ≡ LastFlush.Done → result ≡ outcome }
    ensures counted { writer.new.last_flush ≡ LastFlush.Done → WasFlushed writer.old.flushes writer.new.flushes }
    ensures counted_failed { writer.new.last_flush ≡ LastFlush.Failed
        → FailedToFlush writer.old.flushes writer.new.flushes }
    ensures failed { writer.new.last_flush ≡ LastFlush.Failed → OnOk outcome (result ≡ Err lost) }
{
    let flushed = writer.flush();
    told(outcome, flushed, lost)
}

/// Writes what is left at the end of a run and flushes the writer, likewise, and gives that.
///
/// # Errors
///
/// The fault of the run, where it stopped; else `lost` where the bytes that were left were not taken or the flush failed. The writer is given
/// all the same.
pub fn finish_behind<X: Drop, F: Drop, W: Write>(
    outcome: Result<X, F>,
    writer: Attended<W>,
    rest: &[u8],
    lost: F,
) -> (Result<X, F>, Attended<W>)
    ensures first { IfErr outcome (λ fault. result.0 ≡ Err fault) }
    ensures flushed { OnOk outcome (IfErr result.0 (λ fault. fault ≡ lost)) }
    ensures done { IfOk outcome (λ x. OnOk result.0 (result.0 ≡ Ok x)) }
    ensures kept { OnOk result.0
        (Keeps (append_known (W.contents writer.inner) rest.now) (W.contents result.1.inner)) }
    ensures made { result.1.last_flush ≢ LastFlush.Due }
    ensures well { result.1.last_flush ≡ LastFlush.Done → result.0 ≡ outcome }
    ensures counted { result.1.last_flush ≡ LastFlush.Done → WasFlushed writer.flushes result.1.flushes }
    ensures failed { result.1.last_flush ≡ LastFlush.Failed → OnOk outcome (result.0 ≡ Err lost) }
    ensures emptied { result.1.last_flush ≡ LastFlush.Done
        → Keeps (append_known (W.contents writer.inner) rest.now) (W.contents result.1.inner) }
{
    let mut writer = writer;
    let flushed = writer.flush_behind(rest);
    (told(outcome, flushed, lost), writer)
}

/// Empties a buffer at the end of a run and flushes the writer below it, likewise, and gives that.
///
/// # Errors
///
/// The fault of the run, where it stopped; else `lost` where the bytes of the buffer were not taken or the flush failed. The writer is
/// given all the same.
pub fn finish_buffer<X: Drop, F: Drop, W: Write + Drop>(
    outcome: Result<X, F>,
    writer: BufWriter<Attended<W>>,
    lost: F,
) -> (Result<X, F>, Attended<W>)
    ensures first { IfErr outcome (λ fault. result.0 ≡ Err fault) }
    ensures flushed { OnOk outcome (IfErr result.0 (λ fault. fault ≡ lost)) }
    ensures done { IfOk outcome (λ x. OnOk result.0 (result.0 ≡ Ok x)) }
    ensures kept { OnOk result.0
        (Keeps (writer_contents (λ a. W.contents a.inner) writer) (W.contents result.1.inner)) }
    ensures made { result.1.last_flush ≢ LastFlush.Due }
    ensures well { result.1.last_flush ≡ LastFlush.Done → result.0 ≡ outcome }
    ensures counted { result.1.last_flush ≡ LastFlush.Done
        → WasFlushed (writer_inner writer).flushes result.1.flushes }
    ensures failed { result.1.last_flush ≡ LastFlush.Failed → OnOk outcome (result.0 ≡ Err lost) }
    ensures emptied { result.1.last_flush ≡ LastFlush.Done
        → Keeps (writer_contents (λ a. W.contents a.inner) writer) (W.contents result.1.inner) }
{
    let (mut below, rest) = writer.into_parts();
    let flushed = below.flush_behind(&rest);
    (told(outcome, flushed, lost), below)
}
