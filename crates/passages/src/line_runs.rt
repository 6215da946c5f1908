//! Runs to lines of digits.

ghost use Rattle.std.specs.Prelude.{◌≡◌, [], None, true, false, OnOk, IfOk, IfErr};
ghost use Rattle.packet_lines.specs.Texts.{WrittenLines};
ghost use Rattle.run_ends.specs.declared.attended.LastFlush.TheVariants.{Done};
ghost use Rattle.passages.specs.Runs.{PassesAll};
ghost use Rattle.passages.specs.Stops.{StopsInLines};

use crate::fault::ProgramFault;
use crate::gathered::Gathered;
use crate::lent::{Lent, Loan, Place};
use crate::running::{BUFFER_SIZE, Ended, Finished, Passage, Passed, pass_watched, take_back};
use packet_lines::LineWriter;
use run_ends::{Attended, finish_behind};
use std::alloc::{AllocError, Global};
use std::io::Write;
use std::marker::Brand;
use ts_packet::{PausingPackets, Pid};

/// Runs to lines of digits, and gives the writer behind its last flush.
fn run_to_digits<A, S: Passage<A>, P: PausingPackets, W: Write + Drop>(
    passage: S,
    asker: &mut A,
    watched: Option<Pid>,
    network: &mut P,
    buffer: Vec<u8>,
    output: W,
) -> Finished<S::Report, W>
    requires unbroken { P.is_broken network.old ≡ false }
    requires ready { S.is_ready passage }
    requires empty { buffer.items ≡ [] }
    ensures done { IfOk result.outcome (PassesAll (S.passes passage asker.old asker.new) (P.left network.old)
        (WrittenLines (W.contents result.output.inner) (W.contents output))) }
    ensures stopped { IfErr result.outcome (λ fault. result.output.last_flush ≡ Done
        → StopsInLines (S.stops passage asker.old asker.new fault) (P.left network.old) (W.contents output)
        (W.contents result.output.inner)) }
    ensures flushed { OnOk result.outcome (result.output.last_flush ≡ Done) }
    ensures unwatched { watched ≡ None → result.seen ≡ None }
{
    let mut target = Gathered::new(buffer, Attended::new(output));
    let mut writer = LineWriter::new(&mut target);
    let Passed { outcome, seen } = pass_watched(passage, asker, watched, network, &mut writer);
    let (below, rest) = target.into_parts();
    let (outcome, output) = finish_behind(outcome, below, rest.as_slice(), ProgramFault::Unflushed);
    Finished {
        outcome,
        output,
        seen,
    }
}

/// Runs to lines of digits at the writer that `K` names, tells how that has ended, and gives the writer back.
fn run_to_lent<'a, A, S: Passage<A>, P: PausingPackets, W: Write, K: Place>(
    passage: S,
    asker: &mut A,
    watched: Option<Pid>,
    network: &mut P,
    buffer: Vec<u8>,
    ended: &mut Ended<S::Report>,
    output: Loan<'a, W>,
) -> Loan<'a, W>
    requires unbroken { P.is_broken network.old ≡ false }
    requires ready { S.is_ready passage }
    requires empty { buffer.items ≡ [] }
    requires named { output.at.ghost_name ≡ K.name }
    ensures same { result.at.ghost_name ≡ output.entry.at.ghost_name }
    ensures done { IfOk ended.new.outcome (PassesAll (S.passes passage asker.old asker.new) (P.left network.old)
        (WrittenLines (W.contents result.at.now) (W.contents output.entry.at.now))) }
    ensures stopped { IfErr ended.new.outcome (λ fault. ended.new.is_flushed ≡ true
        → StopsInLines (S.stops passage asker.old asker.new fault) (P.left network.old) (W.contents output.entry.at.now)
        (W.contents result.at.now)) }
    ensures flushed { OnOk ended.new.outcome (ended.new.is_flushed ≡ true) }
    ensures unwatched { watched ≡ None → ended.new.seen ≡ None }
{
    let lent: Lent<'a, W, K> = Lent::new(output);
    let finished = run_to_digits(passage, asker, watched, network, buffer, lent);
    let (told, lent) = take_back(finished);
    *ended = told;
    lent.into_loan()
}

/// Runs to lines of digits, many a write. Where the network may pause, the lines of what one read of it brought go out by one write before
/// the next read is made.
///
/// # Errors
///
/// Where the allocator refused memory. The fault of a run that stopped stands in the outcome.
pub fn run_to_lines<A, S: Passage<A>, P: PausingPackets, W: Write>(
    alloc: Global,
    passage: S,
    asker: &mut A,
    watched: Option<Pid>,
    network: &mut P,
    output: &mut W,
) -> Result<Ended<S::Report>, AllocError>
    requires unbroken { P.is_broken network.old ≡ false }
    requires ready { S.is_ready passage }
    ensures done { IfOk result (λ e. IfOk e.outcome (PassesAll (S.passes passage asker.old asker.new) (P.left network.old)
        (WrittenLines (W.contents output.new) (W.contents output.old)))) }
    ensures stopped { IfOk result (λ e. IfErr e.outcome (λ fault. e.is_flushed ≡ true
        → StopsInLines (S.stops passage asker.old asker.new fault) (P.left network.old) (W.contents output.old)
        (W.contents output.new))) }
    ensures flushed { IfOk result (λ e. OnOk e.outcome (e.is_flushed ≡ true)) }
    ensures unwatched { IfOk result (λ e. watched ≡ None → e.seen ≡ None) }
{
    let Ok(buffer) = Vec::with_capacity(alloc, BUFFER_SIZE) else {
        return Err(AllocError);
    };
    let mut ended = Ended::unrun();
    let _ = run_to_lent::<A, S, P, W, Brand>(
        passage,
        asker,
        watched,
        network,
        buffer,
        &mut ended,
        Loan { at: output },
    );
    Ok(ended)
}
