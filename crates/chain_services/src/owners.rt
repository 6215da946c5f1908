//! Which services take the packets of each PID, looked up at once.

ghost use Rattle.std.specs.Prelude.{◌≡◌, ◌<◌, ◌≤◌, ◌==◌, ◌∷◌, ◌%◌, ◌/◌, ◌&&◌, not, ℕ, List, Some, slice_index_or, slice_set, length, true, false};
ghost use Rattle.std.specs.List.{list_any};
ghost use Rattle.std.specs.Option.{is_some};
ghost use Rattle.ts_packet.specs.Fields.{pid_of, is_among};
ghost use Rattle.program_follower.specs.Program.{listed};
ghost use Rattle.injector.specs.Steps.{Step, packets_in};
ghost use Rattle.service_laws.specs.Services.{ServiceTerms};
ghost use Rattle.chain_services.specs.Serving.{ServesAs, AllServe};
ghost use Rattle.chain_services.specs.Owners.{LeavesOut, HasOwners, AllTake, IsTold, ToldAnew, IsShifted, has_pid};

use chain_engine::Service;
use program_follower::StreamPart;
use std::marker::Model;
use ts_packet::{Packet, Pid};

/// All services take a packet.
const ALL: u8 = 255;

/// Of each PID (ISO/IEC 13818-1, 2.4.3.3) which services take its packets.
#[derive(Drop)]
pub struct Owners {
    /// Under each PID a number whose bit n is set where the service of number n takes them, counted from 0, or `ALL`.
    takers: [u8; 8192],
}

impl Model for Owners {
    ghost use Rattle.std.specs.Prelude.{◌≡◌, ℕ, List, length};

    ghost Value = { List ℕ };

    ghost view = { λ k. k.takers };

    ghost invariant = { λ k. length k.takers ≡ 8192 };
}

impl Owners {
    /// All services take all packets.
    pub fn new() -> Owners
        ensures { AllTake result }
    {
        Owners::of_all(ALL)
    }

    /// These services take the packets of all PIDs.
    fn of_all(takers: u8) -> Owners
        ensures { (pid : ℕ) → pid < 8192 → slice_index_or result pid 0 ≡ takers }
    {
        Owners {
            takers: [takers; 8192],
        }
    }

    /// All services take all packets from now on.
    #[cold]
    #[inline(never)]
    pub fn forget(&mut self)
        ensures { AllTake self.new }
    {
        self.takers = [ALL; 8192];
    }

    /// Which services take the packet.
    #[inline(always)]
    pub fn takers(&self, packet: &Packet) -> u8
        ensures value { result ≡ slice_index_or self.now (pid_of packet.now) 0 }
        ensures pid { pid_of packet.now < 8192 }
    {
        self.takers[packet.pid().get() as usize]
    }

    /// These services take the packets of the PID.
    pub fn set(&mut self, pid: Pid, takers: u8)
        ensures new { self.new ≡ slice_set self.old pid takers }
        ensures size { length self.old ≡ 8192 }
        ensures pid { pid < 8192 }
    {
        self.takers[pid.get() as usize] = takers;
    }
}

/// All services take a packet where they are all asked, as where a message was judged since the last one, or where the table says so.
#[inline(always)]
pub fn takes_all(asks_all: bool, takers: u8) -> bool
    ensures asked { result ≡ false → asks_all ≡ false }
    ensures told { result ≡ false → takers < 255 }
    ensures by_bits { asks_all ≡ false → takers < 255 → result ≡ false }
{
    asks_all || takers == ALL
}

/// The first of the services of these bits takes no packet.
#[inline(always)]
pub fn leaves_out(all: bool, takers: u8) -> bool
    ensures value { result ≡ (not all && (takers % 2 == 0)) }
    ensures all { result ≡ true → all ≡ false }
    ensures bit { result ≡ true → takers % 2 ≡ 0 }
{
    !all && takers % 2 == 0
}

/// None of them does.
#[inline(always)]
pub fn leaves_out_all(all: bool, takers: u8) -> bool
    ensures all { result ≡ true → all ≡ false }
    ensures none { result ≡ true → takers ≡ 0 }
{
    !all && takers == 0
}

/// Which service alone takes a packet, where the packet goes on alone for it.
#[derive(Clone, Copy, Debug, PartialEq, Eq)]
pub struct Alone {
    /// So many services stand before that one.
    pub count: usize,
    /// What the packet is to the switched stream of that one.
    pub of: StreamPart,
}

/// Where the first service stands that takes a packet.
#[derive(Clone, Copy, Debug, PartialEq, Eq)]
pub struct Shift {
    /// So many services before it take none.
    pub count: usize,
    /// Its bit, and those of the services behind it.
    pub takers: u8,
}

/// Where the first of the services of these bits stands that takes a packet, or the one behind so many.
#[inline(always)]
pub fn shift_of(takers: u8, most: usize) -> Shift
    ensures shifted { IsShifted result.count result.takers takers }
    ensures few { result.count ≤ most }
{
    if takers == 0 {
        return Shift { count: 0, takers };
    }
    let count = most.min(takers.trailing_zeros() as usize);
    Shift {
        count,
        takers: takers >> count,
    }
}

/// The bits of a service before those of others.
pub fn with_taker(is_left_out: bool, others: u8) -> u8
    ensures below { result < 255 → others < 255 }
    ensures others { result < 255 → result / 2 ≡ others }
    ensures bit { result < 255 → result % 2 ≡ 0 → is_left_out ≡ true }
{
    if others > 126 {
        return ALL;
    }
    if is_left_out {
        others * 2
    } else {
        others * 2 + 1
    }
}

/// Which of these services take the packets of the PID: those of which something may be on it.
fn takers_of(services: &[Service], pid: Pid) -> u8
    ensures { (ts : List ServiceTerms) (steps : List Step) → AllServe services.now ts steps
        → result < 255 → LeavesOut result ts pid (packets_in steps) }
{
    match services.split_first() {
        None => 0,
        Some((service, others)) => {
            let behind = takers_of(others, pid);
            with_taker(service.overlooks_pid(pid), behind)
        }
    }
}

/// The PAT has come that lists its program, since a PID of that is known.
fn is_listed(service: &Service) -> bool
    ensures { (t : ServiceTerms) (steps : List Step) → ServesAs service.now t steps → result ≡ true
        → is_some (listed (Some t.config.program) (packets_in steps)) ≡ true }
{
    service.pid_count() != 0
}

/// Which of these services take the packets of the PIDs that are none of theirs, nor that of the PAT: those that wait for their PAT.
fn waiting_in(services: &[Service]) -> u8
    ensures { (ts : List ServiceTerms) (steps : List Step) (pid : ℕ) → AllServe services.now ts steps → (0 == pid) ≡ false
        → list_any (has_pid pid (packets_in steps)) ts ≡ false → IsTold result ts pid (packets_in steps) }
{
    match services.split_first() {
        None => 0,
        Some((service, others)) => {
            let behind = waiting_in(others);
            with_taker(is_listed(service), behind)
        }
    }
}

/// Tells which of the services take the packets of this PID.
fn tell(owners: &mut Owners, services: &[Service], pid: Pid)
    ensures { (ts : List ServiceTerms) (steps : List Step) → AllServe services.now ts steps
        → ToldAnew owners.old owners.new ts (λ k. pid == k) (packets_in steps) }
{
    owners.set(pid, takers_of(services, pid));
}

/// Tells it of each of these PIDs.
fn tell_each(owners: &mut Owners, services: &[Service], pids: &[Pid])
    ensures { (ts : List ServiceTerms) (steps : List Step) → AllServe services.now ts steps
        → ToldAnew owners.old owners.new ts (λ k. is_among k pids.now) (packets_in steps) }
{
    match pids.split_first() {
        None => {}
        Some((pid, behind)) => {
            tell(owners, services, *pid);
            tell_each(owners, services, behind);
        }
    }
}

/// Tells it of each PID of this service: that for its cues, and those that are known of its program.
fn tell_own(owners: &mut Owners, services: &[Service], service: &Service)
    ensures { (ts : List ServiceTerms) (u : ServiceTerms) (steps : List Step) → AllServe services.now ts steps
        → ServesAs service.now u steps
        → ToldAnew owners.old owners.new ts (λ k. has_pid k (packets_in steps) u) (packets_in steps) }
{
    tell(owners, services, service.config().cue_pid);
    let pids = service.pids();
    tell_each(owners, services, pids.as_slice());
}

/// Tells it of each PID of each of these of the services.
fn tell_all(owners: &mut Owners, services: &[Service], some: &[Service])
    ensures { (ts us : List ServiceTerms) (steps : List Step) → AllServe services.now ts steps
        → AllServe some.now us steps
        → ToldAnew owners.old owners.new ts (λ k. list_any (has_pid k (packets_in steps)) us) (packets_in steps) }
{
    match some.split_first() {
        None => {}
        Some((service, behind)) => {
            tell_own(owners, services, service);
            tell_all(owners, services, behind);
        }
    }
}

/// Which of these services take the packets of each PID. It is made anew where more PIDs are known of a service: the PIDs of the services and
/// that of the PAT are looked at, and of each other one the same is known at once.
pub(crate) fn owners_of(services: &[Service]) -> Owners
    ensures { (ts : List ServiceTerms) (steps : List Step) → AllServe services.now ts steps
        → HasOwners result ts (packets_in steps) }
{
    let mut owners = Owners::of_all(waiting_in(services));
    tell(&mut owners, services, Pid::of_bits(0, 0));
    tell_all(&mut owners, services, services);
    owners
}
