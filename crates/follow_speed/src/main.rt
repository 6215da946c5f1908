//! Follows the first program of the network on standard input to the network's end, and writes it nowhere: the program by which
//! `bench/follow` times the follower. It prints the first thing that is wrong with the network, or that nothing is.
#![tactic(auto)]

ghost use Rattle.std.specs.Prelude.{OnOk, IfErr};
ghost use Rattle.follow_speed.specs.Runs.{HasNoFault, Stops};

use program_follower::{FollowFault, ProgramFollower, Purpose};
use std::alloc::Global;
use std::io::{self, BufReader, Read, Write};
use std::process::ExitCode;
use ts_packet::{Buffered, Packet, PacketReader, ReadFault, Source};

/// Why a network was not followed to its end.
#[derive(Clone, Copy, Debug, PartialEq, Eq, Drop)]
pub enum RunFault {
    /// It could not be read on.
    Read(ReadFault),
    /// It is not one that can be worked on.
    Follow(FollowFault),
}

/// How many bytes are read at a time.
const BUFFER_SIZE: usize = 256 * 1024;

/// Follows the first program of a network to the network's end.
///
/// # Errors
///
/// The first thing that is wrong with the network's bytes, or what its device answered.
fn follow<S: Source>(network: &mut S) -> Result<(), RunFault>
    ensures ok { OnOk result (HasNoFault (S.remaining network.old)) }
    ensures err { IfErr result (λ fault. Stops fault (S.remaining network.old)) }
{
    let mut reader = PacketReader::new(network);
    let mut follower = ProgramFollower::new(Purpose::advertisement());
    let mut packet = Packet::null();
    loop {
        match reader.read_into(&mut packet) {
            Ok(true) => match follower.feed(&packet) {
                Ok(_) => {}
                Err(fault) => return Err(RunFault::Follow(fault)),
            },
            Ok(false) => return Ok(()),
            Err(fault) => return Err(RunFault::Read(fault)),
        }
    }
}

/// Follows the network, and writes a line that says what is wrong with it, if anything.
fn run<I: Read + Drop, O: Write>(alloc: Global, input: I, output: &mut O) -> io::Result<()> {
    let Ok(reader) = BufReader::with_capacity(alloc, BUFFER_SIZE, input) else {
        return writeln!(output, "out of memory");
    };
    match follow(&mut Buffered::new(reader)) {
        Ok(()) => writeln!(output, "no fault"),
        Err(RunFault::Read(fault)) => writeln!(output, "{fault}"),
        Err(RunFault::Follow(fault)) => writeln!(output, "{fault}"),
    }
}

fn main(rt: HostRuntime) -> ExitCode {
    match run(rt.alloc(), rt.stdin(), &mut rt.stdout()) {
        Ok(()) => ExitCode::from(0),
        Err(_) => ExitCode::from(1),
    }
}
