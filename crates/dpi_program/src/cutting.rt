//! The subcommand `cut`: a cut between the ends that its options name, and what it tells.

ghost use Rattle.std.specs.Prelude.{◌≡◌, None, IsSome, true, false, is_some, option_map, IfOk, IfErr};
ghost use Rattle.packet_lines.specs.Texts.{bytes_told};
ghost use Rattle.passages.specs.Stops.{CutStops};
ghost use Rattle.run_ends.specs.Ends.{path_of};
ghost use Rattle.dpi_program.specs.Runs.{known_from};
ghost use Rattle.dpi_program.specs.Cutting.{StopsAt, told_of_bytes, told_of_lines, IsToldOfLines, CutsAsAsked, CutStopsAsAsked};
ghost use Rattle.dpi_program.specs.Cutting.{CutsOver, CutStopsOver, CutsBetween, CutsToFile, CutStopsBetween};

use crate::ends::{Network, RunFiles, make_output, open_network};
use command_lines::command::CutOptions;
use packet_lines::{LineReader, LinesFault};
use passages::fault::ProgramFault;
use passages::kinds::{Cutting, Unasked};
use passages::line_runs::run_to_lines;
use passages::running::{BUFFER_SIZE, Ended, Ran, network_of, out_of_memory, run_to};
use passages::tell::{Account, Stopped};
use run_ends::{Attended, End};
use std::alloc::{AllocError, Global};
use std::io::{BufReader, Read, Write};
use ts_packet::{PacketReader, PausingPackets};

/// Cuts to an output, in the form that the options name for it.
fn cut_to<P: PausingPackets, O: Write>(
    alloc: Global,
    options: &CutOptions<'_>,
    network: &mut P,
    output: &mut O,
) -> Result<Ended<()>, AllocError>
    requires { P.is_broken network.old ≡ false }
    ensures done { IfOk result (λ ended. IfOk ended.outcome (λ _. CutsAsAsked options.now (P.left network.old)
        (O.contents output.old) (O.contents output.new))) }
    ensures stopped { IfOk result (λ ended. IfErr ended.outcome (λ fault. ended.is_flushed ≡ true → StopsAt options.now.output
        (CutStops options.now.pid options.now.from options.now.length fault) (P.left network.old)
        (O.contents output.old) (O.contents output.new))) }
    ensures unwatched { options.now.is_verbose ≡ false → IfOk result (λ ended. ended.seen ≡ None) }
{
    let passage = Cutting { options };
    let watched = options.is_verbose.then_some(options.pid);
    let asker = &mut Unasked;
    match options.output {
        End::Lines => run_to_lines(alloc, passage, asker, watched, network, output),
        End::Standard | End::File(_) => run_to(alloc, passage, asker, watched, network, output),
    }
}

/// Cuts from bytes. Where the input is live it may pause, and what came in goes out before that.
fn cut_from_bytes<R: Read + Drop, O: Write>(
    alloc: Global,
    options: &CutOptions<'_>,
    input: R,
    is_live: bool,
    output: &mut O,
) -> Result<Ran<()>, Stopped>
    ensures done { IfOk result (λ _. CutsAsAsked options.now (R.remaining input) (O.contents output.old) (O.contents output.new)) }
    ensures stopped { IfErr result (λ stopped. stopped.is_flushed ≡ true → CutStopsAsAsked told_of_bytes options.now (R.remaining input)
        (O.contents output.old) (O.contents output.new) stopped.fault) }
    ensures unwatched { options.now.is_verbose ≡ false → IfOk result (λ ran. ran.seen ≡ None) }
{
    let Ok(reader) = BufReader::with_capacity(alloc, BUFFER_SIZE, Attended::new(input)) else {
        return Err(out_of_memory());
    };
    let mut network = network_of(reader, is_live);
    let mut packets = PacketReader::new(&mut network);
    let Ok(ended) = cut_to(alloc, options, &mut packets, output) else {
        return Err(out_of_memory());
    };
    let reading = network.into_inner().into_inner().into_reason();
    ended.told(reading)
}

/// What is told of a cut over lines that stopped so.
fn over_lines(stopped: Stopped) -> Stopped
    ensures fault { IsToldOfLines stopped.fault result.fault }
    ensures flushed { result.is_flushed ≡ stopped.is_flushed }
{
    if let ProgramFault::Lines(LinesFault::Cut(cause)) = stopped.fault {
        let fault = ProgramFault::Lines(LinesFault::of_cut(cause));
        return Stopped { fault, ..stopped };
    }
    stopped
}

/// Cuts from lines of digits. Where the input is live it may pause, and what the lines that came in give goes out before that.
fn cut_from_lines<R: Read + Drop, O: Write>(
    alloc: Global,
    options: &CutOptions<'_>,
    input: R,
    is_live: bool,
    output: &mut O,
) -> Result<Ran<()>, Stopped>
    ensures done { IfOk result (λ _. CutsAsAsked options.now (option_map bytes_told (R.remaining input))
        (O.contents output.old) (O.contents output.new)) }
    ensures stopped { IfErr result (λ stopped. stopped.is_flushed ≡ true → CutStopsAsAsked told_of_lines options.now
        (option_map bytes_told (R.remaining input)) (O.contents output.old) (O.contents output.new) stopped.fault) }
    ensures unwatched { options.now.is_verbose ≡ false → IfOk result (λ ran. ran.seen ≡ None) }
{
    let Ok(reader) = BufReader::with_capacity(alloc, BUFFER_SIZE, Attended::new(input)) else {
        return Err(out_of_memory());
    };
    let mut network = network_of(reader, is_live);
    let mut packets = LineReader::new(&mut network);
    let Ok(ended) = cut_to(alloc, options, &mut packets, output) else {
        return Err(out_of_memory());
    };
    let reading = network.into_inner().into_inner().into_reason();
    match ended.told(reading) {
        Ok(ran) => Ok(ran),
        Err(stopped) => Err(over_lines(stopped)),
    }
}

/// Cuts from an input, in the form that the options name for it.
fn cut_from<R: Read + Drop, O: Write>(
    alloc: Global,
    options: &CutOptions<'_>,
    input: R,
    is_live: bool,
    output: &mut O,
) -> Result<Ran<()>, Stopped>
    ensures done { IfOk result (λ _. CutsOver options.now (R.remaining input) (O.contents output.old) (O.contents output.new)) }
    ensures stopped { IfErr result (λ stopped. stopped.is_flushed ≡ true → CutStopsOver options.now (R.remaining input)
        (O.contents output.old) (O.contents output.new) stopped.fault) }
    ensures unwatched { options.now.is_verbose ≡ false → IfOk result (λ ran. ran.seen ≡ None) }
{
    match options.input {
        End::Lines => cut_from_lines(alloc, options, input, is_live, output),
        End::Standard | End::File(_) => cut_from_bytes(alloc, options, input, is_live, output),
    }
}

/// Cuts from an input that was opened: from its file, else from standard input.
fn cut_ends<F, I, O>(
    alloc: Global,
    options: &CutOptions<'_>,
    network: Network<F>,
    input: &mut I,
    output: &mut O,
) -> Result<Ran<()>, Stopped>
where
    F: Read + Drop,
    I: Read,
    O: Write,
    ensures done { IfOk result (λ _. CutsOver options.now (known_from F.remaining network.file (I.remaining input.old))
        (O.contents output.old) (O.contents output.new)) }
    ensures stopped { IfErr result (λ stopped. stopped.is_flushed ≡ true → CutStopsOver options.now
        (known_from F.remaining network.file (I.remaining input.old)) (O.contents output.old) (O.contents output.new) stopped.fault) }
    ensures unwatched { options.now.is_verbose ≡ false → IfOk result (λ ran. ran.seen ≡ None) }
    ensures unread { is_some network.file ≡ true → input.new ≡ input.old }
{
    let is_live = network.is_live();
    match network.file {
        Some(file) => cut_from(alloc, options, file, is_live, output),
        None => cut_from(alloc, options, input, is_live, output),
    }
}

/// Opens the input, then makes the file that the options name, and cuts to that.
fn cut_to_file<R, I>(rt: &R, options: &CutOptions<'_>, input: &mut I) -> Result<Ran<()>, Stopped>
where
    R: RunFiles + AllocGlobal,
    I: Read,
    ensures done { IfOk result (λ _. CutsToFile R.reads_at R.makes_at R.File.Read.remaining R.File.Write.contents options.now
        (I.remaining input.old)) }
    ensures unwatched { options.now.is_verbose ≡ false → IfOk result (λ ran. ran.seen ≡ None) }
    ensures unread { IsSome (path_of options.now.input) → input.new ≡ input.old }
{
    let network = open_network(rt, options.input)?;
    let mut file = make_output(rt, options.output, &[network.about.as_ref()])?;
    cut_ends(rt.alloc(), options, network, input, &mut file)
}

/// Opens the input, and cuts to standard output.
fn cut_to_standard<R, I, O>(
    rt: &R,
    options: &CutOptions<'_>,
    input: &mut I,
    output: &mut O,
) -> Result<Ran<()>, Stopped>
where
    R: RunFiles + AllocGlobal,
    I: Read,
    O: Write,
    ensures done { IfOk result (λ _. CutsBetween R.reads_at R.File.Read.remaining options.now (I.remaining input.old)
        (O.contents output.old) (O.contents output.new)) }
    ensures stopped { IfErr result (λ stopped. stopped.is_flushed ≡ true → CutStopsBetween R.reads_at R.File.Read.remaining options.now
        (I.remaining input.old) (O.contents output.old) (O.contents output.new) stopped.fault) }
    ensures unwatched { options.now.is_verbose ≡ false → IfOk result (λ ran. ran.seen ≡ None) }
    ensures unread { IsSome (path_of options.now.input) → input.new ≡ input.old }
{
    let network = open_network(rt, options.input)?;
    cut_ends(rt.alloc(), options, network, input, output)
}

/// Cuts between the ends that the options name.
fn cut_between<R, I, O>(
    rt: &R,
    options: &CutOptions<'_>,
    input: &mut I,
    output: &mut O,
) -> Result<Ran<()>, Stopped>
where
    R: RunFiles + AllocGlobal,
    I: Read,
    O: Write,
    ensures to_standard { path_of options.now.output ≡ None → IfOk result (λ _. CutsBetween R.reads_at R.File.Read.remaining options.now
        (I.remaining input.old) (O.contents output.old) (O.contents output.new)) }
    ensures to_file { IsSome (path_of options.now.output) → IfOk result (λ _. CutsToFile R.reads_at R.makes_at R.File.Read.remaining
        R.File.Write.contents options.now (I.remaining input.old)) }
    ensures stopped { path_of options.now.output ≡ None → IfErr result (λ stopped. stopped.is_flushed ≡ true → CutStopsBetween
        R.reads_at R.File.Read.remaining options.now (I.remaining input.old) (O.contents output.old) (O.contents output.new)
        stopped.fault) }
    ensures unwatched { options.now.is_verbose ≡ false → IfOk result (λ ran. ran.seen ≡ None) }
    ensures unread { IsSome (path_of options.now.input) → input.new ≡ input.old }
    ensures unprinted { IsSome (path_of options.now.output) → output.new ≡ output.old }
{
    match options.output {
        End::File(_) => cut_to_file(rt, options, input),
        End::Lines | End::Standard => cut_to_standard(rt, options, input, output),
    }
}

/// Runs the subcommand `cut`: the input file is opened first, then the output file, then memory is taken. Answers what was done,
/// where the options ask for it.
///
/// # Errors
///
/// `File` where a file could not be opened or made, `OutOfMemory` where the allocator refused memory, `Lines` where the cut stopped or a
/// line is no packet's, `Unflushed` where the output could not be flushed at the end. What went out before stands.
pub fn run_cut<R, I, O>(
    rt: &R,
    options: &CutOptions<'_>,
    input: &mut I,
    output: &mut O,
) -> Result<Option<Account>, Stopped>
where
    R: RunFiles + AllocGlobal,
    I: Read,
    O: Write,
    ensures to_standard { path_of options.now.output ≡ None → IfOk result (λ _. CutsBetween R.reads_at R.File.Read.remaining options.now
        (I.remaining input.old) (O.contents output.old) (O.contents output.new)) }
    ensures to_file { IsSome (path_of options.now.output) → IfOk result (λ _. CutsToFile R.reads_at R.makes_at R.File.Read.remaining
        R.File.Write.contents options.now (I.remaining input.old)) }
    ensures stopped { path_of options.now.output ≡ None → IfErr result (λ stopped. stopped.is_flushed ≡ true → CutStopsBetween
        R.reads_at R.File.Read.remaining options.now (I.remaining input.old) (O.contents output.old) (O.contents output.new)
        stopped.fault) }
    ensures unwatched { options.now.is_verbose ≡ false → IfOk result (λ account. account ≡ None) }
    ensures unread { IsSome (path_of options.now.input) → input.new ≡ input.old }
    ensures unprinted { IsSome (path_of options.now.output) → output.new ≡ output.old }
{
    let Ran { report: (), seen } = cut_between(rt, options, input, output)?;
    let pid = options.pid;
    Ok(seen.map(|(read, written)| Account { pid, read, written }))
}
