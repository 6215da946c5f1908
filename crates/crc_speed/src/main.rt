//! Prints the CRC_32 of standard input, as eight upper case hexadecimal digits: the program by which `bench/crc` times `crc`.
//! It stands on `psi_section`, whose `crc` is the remainder of the polynomial division of ISO/IEC 13818-1, Annex A, and on the
//! digits of `hex_digits`.
#![tactic(auto)]

ghost use Rattle.std.specs.Prelude.{◌++◌, [], ◌∷◌, IfSome, OnOk};
ghost use Rattle.std.specs.Int.{w32, to_be_bytes};
ghost use Rattle.std.specs.Io.KnownBytes.{Appends};
ghost use Rattle.hex_digits.specs.Digits.{digits_of};
ghost use Rattle.psi_section.specs.Crc.{crc};

use hex_digits::Digits;
use psi_section::crc;
use std::alloc::Global;
use std::io::{self, Read, Write};
use std::process::ExitCode;

/// Reads the input to its end, and writes the CRC_32 of its bytes, most significant digit first, and a line feed.
fn print_crc<I: Read, O: Write>(alloc: Global, input: &mut I, output: &mut O) -> io::Result<()>
    ensures { OnOk result (IfSome (I.remaining input.old) (λ bytes.
        Appends (O.contents output.old) (O.contents output.new) (digits_of (to_be_bytes w32 (crc bytes)) ++ 10 ∷ []))) }
{
    let mut bytes = Vec::new(alloc);
    input.read_to_end(&mut bytes)?;
    writeln!(output, "{}", Digits(&crc(bytes.as_slice()).to_be_bytes()))
}

fn main(rt: HostRuntime) -> ExitCode {
    match print_crc(rt.alloc(), &mut rt.stdin(), &mut rt.stdout()) {
        Ok(()) => ExitCode::from(0),
        Err(_) => ExitCode::from(1),
    }
}
