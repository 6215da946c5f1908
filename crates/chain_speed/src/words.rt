//! The words of the command line.

use crate::workload::{Job, Workload};

/// The first number that is no seed.
const SEEDS: u64 = 1 << 32;

/// What the program is to do.
#[derive(Clone, Copy, Debug)]
pub enum Task {
    /// All workloads, one after the other.
    All { seed: u64, size: u64 },
    /// A workload.
    Run(Job),
    /// Write a workload's network.
    Network(Job),
    /// Write a workload's advertisement of this number.
    Advert(Job, u16),
    /// Write a workload's script.
    Script(Job),
}

/// A seed and a size.
fn numbers(seed: &str, size: &str) -> Option<(u64, u64)> {
    let seed = seed.parse::<u64>().ok()?;
    let size = size.parse::<u64>().ok()?;
    if seed < SEEDS && size < SEEDS {
        Some((seed, size))
    } else {
        None
    }
}

/// The workload of these words.
fn job(name: &str, seed: &str, size: &str) -> Option<Job> {
    let workload = Workload::named(name)?;
    let (seed, size) = numbers(seed, size)?;
    Some(Job {
        workload,
        seed,
        size,
    })
}

/// What the words ask for.
pub fn wanted(words: &[&str]) -> Option<Task> {
    match words {
        [first, seed, size] => {
            if *first == "all" {
                let (seed, size) = numbers(seed, size)?;
                return Some(Task::All { seed, size });
            }
            Some(Task::Run(job(first, seed, size)?))
        }
        [first, name, seed, size] => {
            let job = job(name, seed, size)?;
            if *first == "network" {
                Some(Task::Network(job))
            } else if *first == "script" {
                Some(Task::Script(job))
            } else {
                None
            }
        }
        [first, name, number, seed, size] => {
            let job = job(name, seed, size)?;
            let number = number.parse::<u16>().ok()?;
            if *first == "advert" {
                Some(Task::Advert(job, number))
            } else {
                None
            }
        }
        _ => None,
    }
}
