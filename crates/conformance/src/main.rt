//! Shows what the codecs read: each line of standard input names bytes, and one line answers what they mean.
//! It stands on the codecs, on `codec_text`, whose words it prints, and on `hex_digits`, which reads the bytes.
//! It uses one contract of them above all: the bytes that a line spells, and no others, are read.
#![tactic(auto)]

mod answer;
mod fault;
mod line;
mod program;
mod sections;
mod table;
#[cfg(test)]
mod tests;
#[cfg(test)]
mod text_tests;
mod usage;

use std::io;
use std::process::ExitCode;

fn main(rt: HostRuntime) -> ExitCode {
    let status = program::program(&rt, rt.reader(), io::writer(&rt), &mut rt.stderr());
    ExitCode::from(status)
}
