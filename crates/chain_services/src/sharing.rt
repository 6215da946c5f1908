//! PIDs of two services.

ghost use Rattle.std.specs.Prelude.{◌≡◌, ◌||◌, ◌∷◌, List};
ghost use Rattle.ts_packet.specs.Fields.{is_among};
ghost use Rattle.std.specs.List.{list_any};
ghost use Rattle.injector.specs.Steps.{Step, packets_in};
ghost use Rattle.service_laws.specs.Services.{ServiceTerms, configs_of};
ghost use Rattle.service_laws.specs.Faults.{meets, share_a_pid};
ghost use Rattle.chain_services.specs.Serving.{ServesAs, AllServe, services_in};

use crate::desk::Desk;
use chain_engine::Service;
use std::alloc::Allocator;
use ts_packet::Pid;

/// The PID is one of these.
fn is_among(pid: Pid, pids: &[Pid]) -> bool
    ensures { result ≡ is_among pid pids.now }
{
    match pids.split_first() {
        None => false,
        Some((one, others)) => *one == pid || is_among(pid, others),
    }
}

/// One of these PIDs is the PID of the cues, or one of those.
pub fn one_is_among(ours: &[Pid], cue_pid: Pid, theirs: &[Pid]) -> bool
    ensures { result ≡ list_any (λ pid. is_among pid (cue_pid ∷ theirs.now)) ours.now }
{
    match ours.split_first() {
        None => false,
        Some((one, others)) => {
            cue_pid == *one || is_among(*one, theirs) || one_is_among(others, cue_pid, theirs)
        }
    }
}

/// A PID that is known of the one is known of the other, or the PID of its cues.
fn meets(one: &Service, other: &Service) -> bool
    ensures { (t u : ServiceTerms) (steps : List Step) → ServesAs one.now t steps → ServesAs other.now u steps
        → result ≡ meets t.config u.config (packets_in steps) }
{
    let (ours, theirs) = (one.pids(), other.pids());
    one_is_among(ours.as_slice(), other.config().cue_pid, theirs.as_slice())
}

/// These two share a PID.
fn share_one(one: &Service, other: &Service) -> bool
    ensures { (t u : ServiceTerms) (steps : List Step) → ServesAs one.now t steps → ServesAs other.now u steps
        → result ≡ (meets t.config u.config (packets_in steps) || meets u.config t.config (packets_in steps)) }
{
    if meets(one, other) {
        return true;
    }
    meets(other, one)
}

/// The one and some other of these share a PID.
fn one_shares(one: &Service, others: &[Service]) -> bool
    ensures { (t : ServiceTerms) (ts : List ServiceTerms) (steps : List Step) → ServesAs one.now t steps
        → AllServe others.now ts steps
        → result ≡ list_any (λ d. meets t.config d (packets_in steps) || meets d t.config (packets_in steps)) (configs_of ts) }
{
    match others.split_first() {
        None => false,
        Some((other, others)) => {
            if share_one(one, other) {
                return true;
            }
            one_shares(one, others)
        }
    }
}

/// Two of these share a PID.
fn share_a_pid(services: &[Service]) -> bool
    ensures { (ts : List ServiceTerms) (steps : List Step) → AllServe services.now ts steps
        → result ≡ share_a_pid (configs_of ts) (packets_in steps) }
{
    match services.split_first() {
        None => false,
        Some((one, others)) => {
            if one_shares(one, others) {
                return true;
            }
            share_a_pid(others)
        }
    }
}

impl<M: Allocator> Desk<M> {
    /// Two services share a PID.
    pub(crate) fn share_a_pid(&self) -> bool
        ensures { (ts : List ServiceTerms) (steps : List Step) → AllServe (services_in self.now) ts steps
            → result ≡ share_a_pid (configs_of ts) (packets_in steps) }
    {
        share_a_pid(self.services.as_slice())
    }
}
