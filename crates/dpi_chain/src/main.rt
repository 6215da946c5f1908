//! The program `dpi_chain`: `program` of `dpi_program`, over the process's words, streams and files.
#![tactic(auto)]

ghost use Rattle.std.specs.Prelude.{◌≤◌, IfOk};

use command_lines::words::unread;
use dpi_program::program::program;
use std::alloc::AllocError;
use std::process::ExitCode;
use std::{env, io};

/// Runs the program with the words after its name, and answers its exit status.
fn status(rt: &HostRuntime) -> io::Result<u8>
    ensures { IfOk result (λ number. number ≤ 2) }
{
    let owned: Vec<String> = env::args(rt)?.skip(1).collect(rt.alloc())?;
    let words: Result<Vec<&str>, AllocError> = owned
        .iter()
        .map(|word| word.as_str())
        .collect(rt.alloc());
    Ok(program(
        rt,
        words?.as_slice(),
        &mut rt.stdin(),
        &mut rt.stdout(),
        &mut rt.stderr(),
    ))
}

fn main(rt: HostRuntime) -> ExitCode {
    match status(&rt) {
        Ok(number) => ExitCode::from(number),
        Err(error) => ExitCode::from(unread(&mut rt.stderr(), error.kind())),
    }
}
