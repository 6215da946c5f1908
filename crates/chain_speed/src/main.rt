//! Runs of the chain over networks that it makes itself: the program by which `bench/run` compares two builds. A workload enters where
//! `dpi_chain` does, between a reader that makes the packets and a writer that digests what comes; nothing is read from files, and no time is
//! printed. It stands on `passages` and what `dpi_program` puts together with it.
//!
//! `chain_speed WORKLOAD SEED SIZE` runs a workload on SIZE groups of packets, `chain_speed all SEED SIZE` all of them one after the other.
//! `chain_speed network WORKLOAD SEED SIZE`, `chain_speed advert WORKLOAD NUMBER SEED SIZE` and `chain_speed script WORKLOAD SEED SIZE`
//! write what such a run reads to standard output.
#![tactic(auto)]

mod digest;
mod fields;
mod group;
mod making;
mod network;
mod plan;
mod printing;
mod random;
mod requests;
mod runs;
mod scripts;
mod tables;
mod words;
mod workload;

ghost use Rattle.std.specs.Prelude.{◌≡◌, is_some, cond};

use crate::printing::{print_outcome, write_all_of};
use crate::runs::{Fault, run};
use crate::scripts::script;
use crate::words::{Task, wanted};
use crate::workload::{Job, WORKLOADS};
use std::alloc::{AllocError, Global};
use std::env;
use std::io::{self, Write};
use std::process::ExitCode;

/// Runs a workload, and prints what it came to.
fn run_and_print<O: Write>(alloc: Global, job: Job, output: &mut O) -> io::Result<Option<Fault>> {
    match run(alloc, job) {
        Ok(outcome) => {
            print_outcome(job, &outcome, output)?;
            Ok(None)
        }
        Err(fault) => Ok(Some(fault)),
    }
}

/// Does what the words ask for, and answers the fault of a run that stopped.
fn perform<O: Write>(alloc: Global, task: Task, output: &mut O) -> io::Result<Option<Fault>> {
    match task {
        Task::All { seed, size } => {
            for workload in WORKLOADS {
                let job = Job {
                    workload,
                    seed,
                    size,
                };
                if let Some(fault) = run_and_print(alloc, job, output)? {
                    return Ok(Some(fault));
                }
            }
            Ok(None)
        }
        Task::Run(job) => run_and_print(alloc, job, output),
        Task::Network(job) => {
            write_all_of(alloc, job.network(alloc)?, output)?;
            Ok(None)
        }
        Task::Advert(job, number) => {
            write_all_of(alloc, job.advert(alloc, number)?, output)?;
            Ok(None)
        }
        Task::Script(job) => {
            output.write_all(script(alloc, job)?.as_slice())?;
            Ok(None)
        }
    }
}

/// The exit status of a run that stopped with this fault, or that went through.
fn status_of(stopped: &Option<Fault>) -> u8
    ensures { result ≡ cond (is_some stopped.now) 1 0 }
{
    match stopped {
        Some(_) => 1,
        None => 0,
    }
}

/// Runs the program, and answers its exit status.
fn status(rt: &HostRuntime) -> io::Result<u8> {
    let owned: Vec<String> = env::args(rt)?.skip(1).collect(rt.alloc())?;
    let words: Result<Vec<&str>, AllocError> = owned
        .iter()
        .map(|word| word.as_str())
        .collect(rt.alloc());
    let Some(task) = wanted(words?.as_slice()) else {
        writeln!(
            &mut rt.stderr(),
            "usage: chain_speed <all|breaks|spots|rest|cut|awkward|asking> <SEED> <SIZE>"
        )?;
        return Ok(2);
    };
    let stopped = perform(rt.alloc(), task, &mut rt.stdout())?;
    if let Some(fault) = stopped {
        writeln!(&mut rt.stderr(), "fault: {}", fault.name())?;
    }
    Ok(status_of(&stopped))
}

fn main(rt: HostRuntime) -> ExitCode {
    match status(&rt) {
        Ok(number) => ExitCode::from(number),
        Err(_) => ExitCode::from(1),
    }
}
