//! Prints the cues that `scte35_codec` writes, a line of upper case hexadecimal digits each: a start with two avails, its cancel and an
//! early end. `tools/show_cues_to_tshark` shows them to a reader that is not ours.
#![tactic(auto)]

ghost use Rattle.std.specs.Prelude.{◌++◌, [], ◌∷◌, OnOk};
ghost use Rattle.std.specs.Io.KnownBytes.{Appends};
ghost use Rattle.hex_digits.specs.Digits.{digits_of};
ghost use Rattle.scte35_codec.specs.Spelling.{cue_bytes};

use arrayvec::ArrayVec;
use hex_digits::Digits;
use pes_time::Time33;
use scte35_codec::{CueOut, write};
use std::io::{self, Write};
use std::process::ExitCode;

/// The number of the event that the cues are about.
const EVENT: u32 = 1;

/// Writes a cue, and prints its digits and a line feed.
fn print_cue<O: Write>(output: &mut O, cue: &CueOut) -> io::Result<()>
    ensures { OnOk result (Appends (O.contents output.old) (O.contents output.new)
        (digits_of (cue_bytes cue.now) ++ 10 ∷ [])) }
{
    let mut bytes = ArrayVec::new();
    write(cue, &mut bytes);
    writeln!(output, "{}", Digits(bytes.as_slice()))
}

/// A break of 30 seconds from 14 seconds on, with two avails; `None` never comes.
fn start() -> Option<CueOut> {
    let mut avails = ArrayVec::new();
    avails.push(0x0000_0135);
    avails.push(0xFEDC_BA98);
    Some(CueOut::Start {
        event: EVENT,
        time: Time33::new(1_260_000)?,
        length: Time33::new(2_700_000)?,
        program: 7,
        avail: 1,
        expected: 2,
        avails,
    })
}

/// An end after some 27 seconds.
fn end() -> Option<CueOut> {
    Some(CueOut::End {
        event: EVENT,
        time: Time33::new(2_400_000)?,
    })
}

/// Prints the three cues.
fn print_cues<O: Write>(output: &mut O) -> io::Result<()> {
    if let Some(start) = start() {
        print_cue(output, &start)?;
    }
    print_cue(output, &CueOut::Cancel { event: EVENT })?;
    if let Some(end) = end() {
        print_cue(output, &end)?;
    }
    Ok(())
}

fn main(rt: HostRuntime) -> ExitCode {
    match print_cues(&mut rt.stdout()) {
        Ok(()) => ExitCode::from(0),
        Err(_) => ExitCode::from(1),
    }
}
