//! The run over all lines.

ghost use Rattle.std.specs.Prelude.{◌≡◌, ◌≢◌, ◌<◌, ◌≤◌, IfErr, IfOk, IfSome, IsErrOf, OnOk, length};
ghost use Rattle.std.specs.Io.BufRead.{strip_last};
ghost use Rattle.conformance.specs.Run.{TakesLine, Answered, HasLines};

use crate::answer::write_answer;
use crate::fault::{Fault, status_of, write_fault};
use std::alloc::{AllocError, Global};
use std::env::{self, Env};
use std::io::{self, BufRead, BufReader, BufWriter, ErrorKind, Read, Write};

/// Why a run stopped before all lines were answered.
#[derive(Debug, Drop)]
pub enum Stop {
    /// The input has as many lines as can be counted, 2^64 - 1.
    TooManyLines,
    /// A device failed, or memory was refused.
    Io(io::Error),
}

impl From<io::Error> for Stop {
    ghost use Rattle.std.specs.Prelude.{◌≡◌};
    ghost use Rattle.conformance.specs.declared.program.Stop.TheVariants.{Io};

    ghost from_gives = { λ error stop. stop ≡ Io error };

    fn from(error: io::Error) -> Stop {
        Stop::Io(error)
    }
}

/// Takes off the line feed at the end, where there is one.
fn take_off_feed(line: &mut Vec<u8>)
    ensures { line.new.items ≡ strip_last 10 line.old.items }
{
    if line.last() == Some(&b'\n') {
        line.pop();
    }
}

/// Takes the next line of the input, which ends by a line feed or where the input does, and answers whether there is one.
fn take_line<I: BufRead>(input: &mut I, line: &mut Vec<u8>) -> io::Result<bool>
    ensures { IfOk result (λ is_there. TakesLine (I.remaining input.old) (I.remaining input.new)
        is_there line.new.items) }
{
    line.clear();
    if input.read_until(b'\n', line)? == 0 {
        return Ok(false);
    }
    take_off_feed(line);
    Ok(true)
}

/// Answers each line of the input, in order.
///
/// # Errors
///
/// `TooManyLines` only where that many lines stand there.
pub fn write_answers<I: BufRead, O: Write>(
    alloc: Global,
    input: &mut I,
    output: &mut O,
) -> Result<(), Stop>
    ensures answered { OnOk result (Answered (I.remaining input.old) (O.contents output.old) (O.contents output.new)) }
    ensures counted { IfErr result (λ stop. stop ≡ Stop.TooManyLines → HasLines u64.MAX (I.remaining input.old)) }
{
    let mut line = Vec::new(alloc);
    for _turn in 0..u64::MAX {
        if !take_line(input, &mut line)? {
            return Ok(());
        }
        write_answer(alloc, output, line.as_slice())?;
    }
    Err(Stop::TooManyLines)
}

/// Answers each line of the input on the output, both behind buffers, and gives the output back once all of it is out.
fn answer_all<I: Read + Drop, O: Write + Drop>(
    alloc: Global,
    input: I,
    output: O,
) -> Result<O, Stop>
    ensures answered { IfOk result (λ after. Answered (I.remaining input) (O.contents output) (O.contents after)) }
    ensures counted { IfErr result (λ stop. stop ≡ Stop.TooManyLines → HasLines u64.MAX (I.remaining input)) }
{
    let mut input = BufReader::new(alloc, input)?;
    let mut output = BufWriter::new(alloc, output)?;
    write_answers(alloc, &mut input, &mut output)?;
    output.flush()?;
    let (output, _) = output.into_parts();
    Ok(output)
}

/// Answers the input, where no word stands behind the program's name, and gives the output back.
fn answer_unasked<I: Read + Drop, O: Write + Drop>(
    alloc: Global,
    words: &[String],
    input: I,
    output: O,
) -> Result<O, Fault>
    ensures words { 0 < length words.now → IsErrOf result Fault.Words }
    ensures answered { IfOk result (λ after. Answered (I.remaining input) (O.contents output) (O.contents after)) }
    ensures counted { IfErr result (λ fault. fault ≡ Fault.Stopped Stop.TooManyLines → HasLines u64.MAX (I.remaining input)) }
    ensures stopped { length words.now ≡ 0 → IfErr result (λ fault. (fault ≢ Fault.Words) × (fault ≢ Fault.NotText)) }
{
    if !words.is_empty() {
        return Err(Fault::Words);
    }
    Ok(answer_all(alloc, input, output)?)
}

/// The words behind the program's name.
fn words_of<R: Env + AllocGlobal>(rt: &R) -> Result<Vec<String>, Fault> {
    let words = match env::args(rt) {
        Ok(words) => words,
        Err(error) if error.kind() == ErrorKind::InvalidData => return Err(Fault::NotText),
        Err(error) => return Err(Fault::Stopped(Stop::Io(error))),
    };
    match words.skip(1).collect(rt.alloc()) {
        Ok(words) => Ok(words),
        Err(AllocError) => Err(Fault::Stopped(Stop::Io(io::Error::from(AllocError)))),
    }
}

/// Answers the input, where the machine has no words for the program.
fn answer<R, I, O>(rt: &R, input: I, output: O) -> Result<(), Fault>
where
    R: Env + AllocGlobal,
    I: Read + Drop,
    O: Write + Drop,
{
    let words = words_of(rt)?;
    answer_unasked(rt.alloc(), words.as_slice(), input, output)?;
    Ok(())
}

/// Answers each line of the input on the output, and tells a fault on `faults`; answers the exit status.
pub fn program<R, I, O, E>(rt: &R, input: I, output: O, faults: &mut E) -> u8
where
    R: Env + AllocGlobal,
    I: Read + Drop,
    O: Write + Drop,
    E: Write,
{
    let outcome = answer(rt, input, output);
    if let Err(fault) = &outcome {
        let _ = write_fault(faults, fault);
    }
    status_of(&outcome)
}
