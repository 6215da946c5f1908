//! Runs between a reader and a writer, whatever is done on the way: the output is flushed at the end, and what is known of a run that
//! stopped is kept.

ghost use Rattle.std.specs.Prelude.{◌≡◌, ℕ, ◌⊎◌, List, [], Option, None, true, false, not, IfOk, IfErr, OnOk, Err, IsErrAnd};
ghost use Rattle.ts_packet.specs.Sinks.{Written};
ghost use Rattle.ts_packet.specs.Transfers.{no_tally};
ghost use Rattle.passages.specs.Runs.{PassesAll};
ghost use Rattle.run_ends.specs.Flushes.{is_done};
ghost use Rattle.run_ends.specs.declared.attended.LastFlush.TheVariants.{Done};
ghost use Rattle.passages.specs.Stops.{StopsAtDevice, SaysOfInput, SaysOfRun};
ghost use Rattle.passages.specs.Stopping.{side_of, IsStoppedWith, IsStoppedUnopened};

use crate::fault::ProgramFault;
use crate::gathered::Gathered;
use crate::lent::{Lent, Loan, Place};
use crate::tell::{Side, Stopped};
use crate::watch::{Watch, Watched};
use chain_engine::RunFault;
use packet_lines::LinesFault;
use psi_tables::FeedFault;
use run_ends::{Attended, Unopened, finish_behind};
use std::alloc::{AllocError, Global};
use std::io::{self, BufReader, Read, Write};
use std::marker::Brand;
use ts_packet::{Buffered, GatheringSink, PacketReader, PacketWriter, PausingPackets, Pid};
use unit_cut::CutFault;

/// How many bytes a file or a stream is read or written at a time.
pub const BUFFER_SIZE: usize = 262_144;

/// What is done with a network on its way from a source to a sink, while `A` asks for it.
pub trait Passage<A>: Drop {
    ghost use Rattle.std.specs.Prelude.{◌≡◌, ℕ, List, [], Option, false, IfOk, IfErr};
    ghost use Rattle.ts_packet.specs.declared.sink.PutFault.{PutFault};
    ghost use Rattle.packet_runs.specs.Devices.{OfPackets, OfPut, OfSending};
    ghost use Rattle.passages.specs.declared.fault.ProgramFault.{ProgramFault};
    ghost use Rattle.passages.specs.Runs.{PassesAll};

    /// What is told of a run that went through.
    type Report: Drop;

    /// What a passage needs that is to be made.
    ghost is_ready: { Self → Type 0 } = { λ p. Unit {0} };

    /// Of a network of these bytes these packets go out, and this is the report, where who asked was so before and is so now.
    ghost passes: { Self → A → A → List ℕ → List (List ℕ) → Self.Report → Type 0 };

    /// Likewise it stopped with this fault: what that says of the network's bytes, where they are known, and of the packets that are out.
    ghost stops: { Self → A → A → ProgramFault → Option (List ℕ) → OfPackets → OfPut → OfSending → Type 0 };

    /// What it says is said in any form of what is known of the packets that are out.
    ghost stops_so: { (passage : Self) (before now : A) (fault : ProgramFault) (input : Option (List ℕ)) (is_out is_out' : OfPackets)
        (fails fails' : OfPut) (unsent unsent' : OfSending) → ((ps : List (List ℕ)) → is_out ps → is_out' ps)
        → ((ps : List (List ℕ)) (p : List ℕ) (f : PutFault) → fails ps p f → fails' ps p f)
        → ((ps : List (List ℕ)) (f : PutFault) → unsent ps f → unsent' ps f)
        → stops passage before now fault input is_out fails unsent
        → stops passage before now fault input is_out' fails' unsent' };

    /// Passes the network on.
    fn pass<P: PausingPackets, K: GatheringSink>(
        self,
        asker: &mut A,
        network: &mut P,
        out: &mut K,
    ) -> Result<Self::Report, ProgramFault>
        requires unbroken { P.is_broken network.old ≡ false }
        requires ready { is_ready self }
        ensures done { (start : Option (List ℕ)) → K.holds out.old start []
            → IfOk result (PassesAll (passes self asker.old asker.new) (P.left network.old) (K.holds out.new start)) }
        ensures stopped { (start : Option (List ℕ)) → K.holds out.old start []
            → IfErr result (λ fault. stops self asker.old asker.new fault (P.left network.old) (K.holds out.new start)
            (K.fails out.new start) (K.fails_to_send out.new start)) }
        ensures reads { P.leads network.old network.new }
        ensures leads { K.leads out.old out.new };
}

/// What a passage answered, and what was seen go by where that was asked for.
#[derive(Drop)]
pub struct Passed<T> {
    pub outcome: Result<T, ProgramFault>,
    pub seen: Option<(Watch, Watch)>,
}

/// Passes the network on, and where a PID is to be watched sees what goes by.
#[inline(always)]
pub fn pass_watched<A, S: Passage<A>, P: PausingPackets, K: GatheringSink>(
    passage: S,
    asker: &mut A,
    watched: Option<Pid>,
    network: &mut P,
    out: &mut K,
) -> Passed<S::Report>
    requires unbroken { P.is_broken network.old ≡ false }
    requires ready { S.is_ready passage }
    ensures done { (start : Option (List ℕ)) → K.holds out.old start []
        → IfOk result.outcome (PassesAll (S.passes passage asker.old asker.new) (P.left network.old) (K.holds out.new start)) }
    ensures stopped { (start : Option (List ℕ)) → K.holds out.old start []
        → IfErr result.outcome (λ fault. S.stops passage asker.old asker.new fault (P.left network.old) (K.holds out.new start)
        (K.fails out.new start) (K.fails_to_send out.new start)) }
    ensures unwatched { watched ≡ None → result.seen ≡ None }
    ensures reads { P.leads network.old network.new }
    ensures leads { K.leads out.old out.new }
{
    let Some(pid) = watched else {
        let outcome = passage.pass(asker, network, out);
        return Passed {
            outcome,
            seen: None,
        };
    };
    let mut watched_network = Watched::new(network, pid);
    let mut watched_out = Watched::new(out, pid);
    let outcome = passage.pass(asker, &mut watched_network, &mut watched_out);
    let seen = Some((watched_network.seen(), watched_out.seen()));
    Passed { outcome, seen }
}

/// A run whose output has been flushed.
#[derive(Drop)]
pub struct Finished<T, O> {
    pub outcome: Result<T, ProgramFault>,
    pub output: Attended<O>,
    pub seen: Option<(Watch, Watch)>,
}

/// Runs to a writer, many packets a write: a block is written where the buffer is full, at the end, and before each read of the network that
/// may wait.
#[inline(always)]
fn run_to_blocks<A, S: Passage<A>, P: PausingPackets, O: Write + Drop>(
    passage: S,
    asker: &mut A,
    watched: Option<Pid>,
    network: &mut P,
    buffer: Vec<u8>,
    output: O,
) -> Finished<S::Report, O>
    requires unbroken { P.is_broken network.old ≡ false }
    requires ready { S.is_ready passage }
    requires empty { buffer.items ≡ [] }
    ensures done { IfOk result.outcome (PassesAll (S.passes passage asker.old asker.new) (P.left network.old)
        (Written (O.contents result.output.inner) (O.contents output))) }
    ensures stopped { IfErr result.outcome (λ fault. result.output.last_flush ≡ Done
        → StopsAtDevice (S.stops passage asker.old asker.new fault) (P.left network.old) (O.contents output)
        (O.contents result.output.inner)) }
    ensures says { IfErr result.outcome (λ fault. (fault ≡ ProgramFault.Unflushed)
        ⊎ SaysOfInput (S.stops passage asker.old asker.new fault) (P.left network.old)) }
    ensures flushed { OnOk result.outcome (result.output.last_flush ≡ Done) }
    ensures reads { P.leads network.old network.new }
    ensures unwatched { watched ≡ None → result.seen ≡ None }
{
    let mut target = Gathered::new(buffer, Attended::new(output));
    let mut writer = PacketWriter::new(&mut target);
    let Passed { outcome, seen } = pass_watched(passage, asker, watched, network, &mut writer);
    let (below, rest) = target.into_parts();
    let (outcome, output) = finish_behind(outcome, below, rest.as_slice(), ProgramFault::Unflushed);
    Finished {
        outcome,
        output,
        seen,
    }
}

/// What is left of a run when its output is flushed.
#[derive(Drop)]
pub struct Ended<T> {
    pub outcome: Result<T, ProgramFault>,
    /// The reason of the output's last failure.
    pub reason: Option<io::Error>,
    /// Whether the output was flushed at the end with nothing lost.
    pub is_flushed: bool,
    pub seen: Option<(Watch, Watch)>,
}

/// Takes the writer back from a run, and tells how that has ended.
pub fn take_back<T: Drop, O>(finished: Finished<T, O>) -> (Ended<T>, O)
    ensures outcome { result.0.outcome ≡ finished.outcome }
    ensures reason { result.0.reason ≡ finished.output.reason }
    ensures flushed { result.0.is_flushed ≡ is_done finished.output.last_flush }
    ensures seen { result.0.seen ≡ finished.seen }
    ensures output { result.1 ≡ finished.output.inner }
{
    let Finished {
        outcome,
        output,
        seen,
    } = finished;
    let is_flushed = output.is_flushed();
    let (output, reason) = output.into_parts();
    let ended = Ended {
        outcome,
        reason,
        is_flushed,
        seen,
    };
    (ended, output)
}

/// Runs to the writer that `K` names, tells how that has ended, and gives the writer back.
#[inline(always)]
fn run_to_lent<'a, A, S: Passage<A>, P: PausingPackets, O: Write, K: Place>(
    passage: S,
    asker: &mut A,
    watched: Option<Pid>,
    network: &mut P,
    buffer: Vec<u8>,
    ended: &mut Ended<S::Report>,
    output: Loan<'a, O>,
) -> Loan<'a, O>
    requires unbroken { P.is_broken network.old ≡ false }
    requires ready { S.is_ready passage }
    requires empty { buffer.items ≡ [] }
    requires named { output.at.ghost_name ≡ K.name }
    ensures same { result.at.ghost_name ≡ output.entry.at.ghost_name }
    ensures done { IfOk ended.new.outcome (PassesAll (S.passes passage asker.old asker.new) (P.left network.old)
        (Written (O.contents result.at.now) (O.contents output.entry.at.now))) }
    ensures stopped { IfErr ended.new.outcome (λ fault. ended.new.is_flushed ≡ true
        → StopsAtDevice (S.stops passage asker.old asker.new fault) (P.left network.old) (O.contents output.entry.at.now)
        (O.contents result.at.now)) }
    ensures says { IfErr ended.new.outcome (λ fault. (fault ≡ ProgramFault.Unflushed)
        ⊎ SaysOfInput (S.stops passage asker.old asker.new fault) (P.left network.old)) }
    ensures flushed { OnOk ended.new.outcome (ended.new.is_flushed ≡ true) }
    ensures reads { P.leads network.old network.new }
    ensures unwatched { watched ≡ None → ended.new.seen ≡ None }
{
    let lent: Lent<'a, O, K> = Lent::new(output);
    let finished = run_to_blocks(passage, asker, watched, network, buffer, lent);
    let (told, lent) = take_back(finished);
    *ended = told;
    lent.into_loan()
}

/// Runs to a writer, many packets a write. Where the network may pause, what one read of it brought goes out by one write before the next
/// read is made.
///
/// # Errors
///
/// Where the allocator refused memory. The fault of a run that stopped stands in the outcome.
#[inline(always)]
pub fn run_to<A, S: Passage<A>, P: PausingPackets, O: Write>(
    alloc: Global,
    passage: S,
    asker: &mut A,
    watched: Option<Pid>,
    network: &mut P,
    output: &mut O,
) -> Result<Ended<S::Report>, AllocError>
    requires unbroken { P.is_broken network.old ≡ false }
    requires ready { S.is_ready passage }
    ensures done { IfOk result (λ e. IfOk e.outcome (PassesAll (S.passes passage asker.old asker.new) (P.left network.old)
        (Written (O.contents output.new) (O.contents output.old)))) }
    ensures stopped { IfOk result (λ e. IfErr e.outcome (λ fault. e.is_flushed ≡ true
        → StopsAtDevice (S.stops passage asker.old asker.new fault) (P.left network.old) (O.contents output.old)
        (O.contents output.new))) }
    ensures says { IfOk result (λ e. IfErr e.outcome (λ fault. (fault ≡ ProgramFault.Unflushed)
        ⊎ SaysOfInput (S.stops passage asker.old asker.new fault) (P.left network.old))) }
    ensures flushed { IfOk result (λ e. OnOk e.outcome (e.is_flushed ≡ true)) }
    ensures reads { P.leads network.old network.new }
    ensures unwatched { IfOk result (λ e. watched ≡ None → e.seen ≡ None) }
{
    let Ok(buffer) = Vec::with_capacity(alloc, BUFFER_SIZE) else {
        return Err(AllocError);
    };
    let mut ended = Ended::unrun();
    let _ = run_to_lent::<A, S, P, O, Brand>(
        passage,
        asker,
        watched,
        network,
        buffer,
        &mut ended,
        Loan { at: output },
    );
    Ok(ended)
}

/// A run that went through.
#[derive(Drop)]
pub struct Ran<T> {
    pub report: T,
    pub seen: Option<(Watch, Watch)>,
}

/// What was done when a run stopped with this fault.
fn side_of(fault: ProgramFault) -> Side
    ensures { result ≡ side_of fault }
{
    match fault {
        ProgramFault::Unflushed
        | ProgramFault::Run(RunFault::Feed(FeedFault::Sink(_)))
        | ProgramFault::Lines(LinesFault::Cut(CutFault::Sink(_))) => Side::Writing,
        ProgramFault::Accept => Side::Listening,
        _ => Side::Reading,
    }
}

impl<T: Drop> Ended<T> {
    ghost use Rattle.std.specs.Prelude.{◌≡◌, IfOk, IfErr, IsOkAnd, IsErrAnd, option_map};
    ghost use Rattle.passages.specs.Stopping.{side_of, reason_at, IsStoppedWith};

    /// What is left of a run for which there was no memory.
    pub(crate) fn unrun() -> Ended<T> {
        let is_flushed = false;
        Ended {
            outcome: Err(ProgramFault::OutOfMemory),
            reason: None,
            is_flushed,
            seen: None,
        }
    }

    /// What the run tells, whose network's device gave this reason for its last failure.
    ///
    /// # Errors
    ///
    /// The fault of the run, where it stopped.
    pub fn told(self, reading: Option<io::Error>) -> Result<Ran<T>, Stopped>
        ensures done { IfOk self.outcome (λ report. IsOkAnd result (λ ran. ran.report ≡ report)) }
        ensures seen { IfOk self.outcome (λ _. IsOkAnd result (λ ran. ran.seen ≡ self.seen)) }
        ensures fault { IfErr self.outcome (λ fault. IsErrAnd result (IsStoppedWith fault (side_of fault)
            (reason_at (side_of fault) reading self.reason) (option_map (λ seen. seen.0) self.seen))) }
        ensures flushed { IfErr self.outcome (λ _. IsErrAnd result (λ stopped. stopped.is_flushed ≡ self.is_flushed)) }
    {
        let Ended {
            outcome,
            reason,
            is_flushed,
            seen,
        } = self;
        let fault = match outcome {
            Ok(report) => return Ok(Ran { report, seen }),
            Err(fault) => fault,
        };
        let side = side_of(fault);
        Err(Stopped {
            fault,
            side,
            reason: match side {
                Side::Reading => reading,
                Side::Writing => reason,
                _ => None,
            },
            read: seen.map(|(read, _)| read),
            is_flushed,
            line: None,
            about: None,
        })
    }
}

/// The network that this reader gives: where it is live its reads may wait, as those of a pipe do; else they never do, as those of a file.
pub fn network_of<R: Read>(reader: BufReader<R>, is_live: bool) -> Buffered<R>
    ensures inner { result.device.inner ≡ reader }
    ensures tally { result.device.tally ≡ no_tally }
    ensures steady { result.is_steady ≡ not is_live }
{
    if is_live {
        Buffered::new(reader)
    } else {
        Buffered::steady(reader)
    }
}

/// Runs from a reader to a writer, many packets a write. Where the reader is live the network may pause: then what one read brought goes
/// out by one write before the next read is made.
///
/// # Errors
///
/// `OutOfMemory` where the allocator refused memory for a buffer; else the fault of the passage, where it stopped; else `Unflushed`
/// where the output could not be flushed at the end.
pub fn run_from<A, S: Passage<A>, R: Read + Drop, O: Write>(
    alloc: Global,
    passage: S,
    asker: &mut A,
    watched: Option<Pid>,
    is_live: bool,
    input: R,
    output: &mut O,
) -> Result<Ran<S::Report>, Stopped>
    requires { S.is_ready passage }
    ensures done { IfOk result (λ ran. PassesAll (S.passes passage asker.old asker.new) (R.remaining input)
        (Written (O.contents output.new) (O.contents output.old)) ran.report) }
    ensures stopped { IfErr result (λ stopped. stopped.is_flushed ≡ true
        → StopsAtDevice (S.stops passage asker.old asker.new stopped.fault) (R.remaining input) (O.contents output.old)
        (O.contents output.new)) }
    ensures says { IfErr result (λ stopped. SaysOfRun (S.stops passage asker.old asker.new) stopped.fault (R.remaining input)) }
    ensures unwatched { IfOk result (λ ran. watched ≡ None → ran.seen ≡ None) }
{
    let Ok(reader) = BufReader::with_capacity(alloc, BUFFER_SIZE, Attended::new(input)) else {
        return Err(out_of_memory());
    };
    let mut network = network_of(reader, is_live);
    let mut packets = PacketReader::new(&mut network);
    let Ok(ended) = run_to(alloc, passage, asker, watched, &mut packets, output) else {
        return Err(out_of_memory());
    };
    let reading = network.into_inner().into_inner().into_reason();
    ended.told(reading)
}

/// A run that stopped so, with nothing read of its network.
pub fn stopped(fault: ProgramFault, side: Side, reason: Option<io::Error>) -> Stopped
    ensures with { IsStoppedWith fault side reason None result }
    ensures unflushed { result.is_flushed ≡ false }
{
    Stopped {
        fault,
        side,
        reason,
        read: None,
        is_flushed: false,
        line: None,
        about: None,
    }
}

/// What a run tells whose replies were printed, or not.
///
/// # Errors
///
/// The fault of the run, where it stopped; else `Print` where a reply could not be printed.
pub fn with_replies<T: Drop>(
    ran: Result<Ran<T>, Stopped>,
    has_lost_a_reply: bool,
) -> Result<Ran<T>, Stopped>
    ensures kept { has_lost_a_reply ≡ false → result ≡ ran }
    ensures first { IfErr ran (λ stopped. result ≡ Err stopped) }
    ensures lost { has_lost_a_reply ≡ true → OnOk ran (IsErrAnd result
        (IsStoppedWith ProgramFault.Print Side.Printing None None)) }
{
    let ran = ran?;
    if has_lost_a_reply {
        return Err(stopped(ProgramFault::Print, Side::Printing, None));
    }
    Ok(ran)
}

/// Memory was refused.
pub fn out_of_memory() -> Stopped
    ensures with { IsStoppedWith ProgramFault.OutOfMemory Side.Reading None None result }
    ensures unflushed { result.is_flushed ≡ false }
{
    stopped(ProgramFault::OutOfMemory, Side::Reading, None)
}

/// A file could not be opened.
pub fn unopened(unopened: Unopened) -> Stopped
    ensures { IsStoppedUnopened unopened result }
{
    let (side, reason) = match unopened {
        Unopened::Input(reason) => (Side::Reading, reason),
        Unopened::Output(reason) => (Side::Writing, reason),
    };
    stopped(ProgramFault::File, side, Some(reason))
}
