//! The workloads: what network each has, which breaks are asked for, and what advertisements there are.

use crate::fields::CLOCK;
use crate::group::Group;
use crate::making::make;
use crate::network::Network;
use crate::plan::Plan;
use crate::random::Random;
use std::alloc::{AllocError, Global};

/// How many ticks a millisecond has.
pub const MILLISECOND: u64 = 90;

/// A workload.
#[derive(Clone, Copy, Debug, PartialEq, Eq)]
pub enum Workload {
    /// Long breaks close together.
    Breaks,
    /// Short breaks of which many stand.
    Spots,
    /// Four programs, and no message.
    Rest,
    /// A cut.
    Cut,
    /// Small units, stuffing, duplicates and early ends, packet by packet.
    Awkward,
    /// A message before nearly each packet.
    Asking,
}

/// All workloads, in the order in which `all` runs them.
pub const WORKLOADS: [Workload; 6] = [
    Workload::Breaks,
    Workload::Spots,
    Workload::Rest,
    Workload::Cut,
    Workload::Awkward,
    Workload::Asking,
];

/// The breaks that are asked for in a workload.
#[derive(Clone, Copy, Debug)]
pub struct Breaks {
    /// Ticks from one break to the next.
    pub period: u64,
    /// How many milliseconds ahead a break is asked for.
    pub lead: u64,
    /// How many tenths of a second it lasts.
    pub tenths: u16,
    /// How many advertisements there are.
    pub adverts: u16,
    /// Whether three of four are cancelled or ended early.
    pub ends_early: bool,
}

impl Workload {
    /// The workload of this name.
    pub fn named(name: &str) -> Option<Workload> {
        WORKLOADS
            .into_iter()
            .find(|workload| workload.name() == name)
    }

    /// Its name.
    pub fn name(self) -> &'static str {
        match self {
            Workload::Breaks => "breaks",
            Workload::Spots => "spots",
            Workload::Rest => "rest",
            Workload::Cut => "cut",
            Workload::Awkward => "awkward",
            Workload::Asking => "asking",
        }
    }

    /// What its network looks like.
    pub fn plan(self, alloc: Global) -> Result<Plan, AllocError> {
        match self {
            Workload::Breaks | Workload::Spots | Workload::Cut => Plan::full(alloc),
            Workload::Rest => Plan::multiplex(alloc),
            Workload::Awkward => Plan::awkward(alloc),
            Workload::Asking => Plan::sparse(alloc),
        }
    }

    /// The breaks that are asked for in a network of so many milliseconds: in a short one they are short and asked for late.
    pub fn breaks(self, milliseconds: u64) -> Breaks {
        let quarter = milliseconds / 4;
        let tenths = u16::try_from((quarter / 100).clamp(1, 300)).unwrap_or(1);
        let (period, lead, tenths, adverts) = match self {
            Workload::Breaks => (u64::from(tenths) * 100 + 1_000, 4_000, tenths, 4),
            Workload::Spots => (1_875, 48_000, 5, 8),
            Workload::Awkward => (2_500, 48_000, 20, 4),
            Workload::Rest | Workload::Cut | Workload::Asking => (1_000, 1_000, 10, 1),
        };
        Breaks {
            period: period * MILLISECOND,
            lead: quarter.clamp(200, lead),
            tenths,
            adverts,
            ends_early: self == Workload::Awkward,
        }
    }
}

/// A workload with its seed and how many groups of packets its network has.
#[derive(Clone, Copy, Debug)]
pub struct Job {
    pub workload: Workload,
    pub seed: u64,
    pub size: u64,
}

impl Job {
    /// Its group of packets.
    pub fn group(self, alloc: Global) -> Result<Group, AllocError> {
        make(alloc, &self.workload.plan(alloc)?, self.seed)
    }

    /// How many ticks a network with this group lasts.
    pub fn ticks(self, group: &Group) -> u64 {
        self.size.wrapping_mul(group.ticks)
    }

    /// The time at which the network starts: with an odd seed the clock of 33 bits wraps inside it.
    pub fn start(self, group: &Group) -> u64 {
        let mut random = Random::new(self.seed, 3);
        let ticks = self.ticks(group);
        let part = random
            .below((ticks / 2).saturating_add(1))
            .saturating_add(ticks / 4);
        if self.seed % 2 == 1 {
            CLOCK.wrapping_sub(part) & CLOCK
        } else {
            random.below(CLOCK.saturating_sub(ticks).max(1))
        }
    }

    /// Its network, given in pieces of at most so many bytes.
    pub fn network(self, alloc: Global) -> Result<Network, AllocError> {
        let group = self.group(alloc)?;
        let start = self.start(&group);
        let most = if self.workload == Workload::Awkward {
            1_316
        } else {
            usize::MAX
        };
        Ok(Network::new(group, start, self.size, most))
    }

    /// The breaks that are asked for.
    pub fn breaks(self, group: &Group) -> Breaks {
        self.workload.breaks(self.ticks(group) / MILLISECOND)
    }

    /// Its advertisement of this number: as long as a break and a little more.
    pub fn advert(self, alloc: Global, number: u16) -> Result<Network, AllocError> {
        let breaks = self.breaks(&self.group(alloc)?);
        let mut random = Random::new(self.seed, u64::from(number).saturating_add(100));
        let group = make(alloc, &self.workload.plan(alloc)?, random.next())?;
        let ticks = u64::from(breaks.tenths) * 9_000;
        let size = ticks
            .checked_div(group.ticks)
            .unwrap_or(0)
            .saturating_add(2);
        Ok(Network::new(group, random.below(CLOCK), size, usize::MAX))
    }
}
