//! Services that were given nothing yet.

ghost use Rattle.std.specs.Prelude.{◌≡◌, ◌==◌, ◌++◌, [], List, None, OnOk, IfOk, IfErr};
ghost use Rattle.std.specs.List.{list_any};
ghost use Rattle.psi_tables.specs.declared.config.Config.{Config};
ghost use Rattle.service_laws.specs.Messages.{share_an_index};
ghost use Rattle.service_laws.specs.Services.{ServiceTerms, configs_of};
ghost use Rattle.chain_services.specs.Serving.{AllServe};
ghost use Rattle.chain_services.specs.Runs.{ServicesStandFor};
ghost use Rattle.chain_services.specs.Refused.{services_refused, share_a_program, share_a_cue_pid, IsRefused};

use crate::desk::Desk;
use crate::fault::ServiceFault;
use crate::owners::Owners;
use chain_engine::{Automation, OutOfMemory, Service, SessionEnd, Talk};
use injector::{MessageCounts, Requests};
use psi_tables::Config;
use std::alloc::{Allocator, Global};
use ts_packet::Pid;

/// How many services there are at most.
const MOST: usize = 8;

/// What turns a network of several programmes and an automation's requests for each of them into the spliced stream. It takes all its memory
/// when it is made: two times 65,535 bytes for the automation's messages, 8,192 for the PIDs, and some 90,000 bytes for each service.
#[derive(Drop)]
pub struct Services<M: Allocator = Global> {
    pub(crate) talk: Talk<M>,
    pub(crate) desk: Desk<M>,
}

/// One of these has the index.
fn has_index(configs: &[Config], index: u16) -> bool
    ensures { result ≡ list_any (λ (d : Config). index == d.index) configs.now }
{
    match configs.split_first() {
        None => false,
        Some((one, others)) => index == one.index || has_index(others, index),
    }
}

/// Two of these have one index.
fn share_an_index(configs: &[Config]) -> bool
    ensures { result ≡ share_an_index configs.now }
{
    match configs.split_first() {
        None => false,
        Some((one, others)) => has_index(others, one.index) || share_an_index(others),
    }
}

/// One of these is of the program.
fn has_program(configs: &[Config], program: u16) -> bool
    ensures { result ≡ list_any (λ (d : Config). program == d.program) configs.now }
{
    match configs.split_first() {
        None => false,
        Some((one, others)) => program == one.program || has_program(others, program),
    }
}

/// Two of these are of one program.
fn share_a_program(configs: &[Config]) -> bool
    ensures { result ≡ share_a_program configs.now }
{
    match configs.split_first() {
        None => false,
        Some((one, others)) => has_program(others, one.program) || share_a_program(others),
    }
}

/// One of these has the PID for its cues.
fn has_cue_pid(configs: &[Config], cue_pid: Pid) -> bool
    ensures { result ≡ list_any (λ (d : Config). cue_pid == d.cue_pid) configs.now }
{
    match configs.split_first() {
        None => false,
        Some((one, others)) => cue_pid == one.cue_pid || has_cue_pid(others, cue_pid),
    }
}

/// Two of these have one PID for their cues.
fn share_a_cue_pid(configs: &[Config]) -> bool
    ensures { result ≡ share_a_cue_pid configs.now }
{
    match configs.split_first() {
        None => false,
        Some((one, others)) => has_cue_pid(others, one.cue_pid) || share_a_cue_pid(others),
    }
}

/// Adds services of these, which were given nothing.
fn add_services<M: Allocator>(
    services: &mut Vec<Service, M>,
    configs: &[Config],
) -> Result<(), OutOfMemory>
    ensures { (us : List ServiceTerms) → AllServe services.old.items us []
        → OnOk result ((ts : List ServiceTerms) → configs_of ts ≡ configs.now → AllServe services.new.items (us ++ ts) []) }
{
    let Some((config, others)) = configs.split_first() else {
        return Ok(());
    };
    match services.push(Service::new(*config)) {
        Ok(()) => add_services(services, others),
        Err(_) => Err(OutOfMemory),
    }
}

/// Services of these, which were given nothing.
fn services_of<M: Allocator + Copy>(
    alloc: M,
    configs: &[Config],
) -> Result<Vec<Service, M>, OutOfMemory>
    ensures { IfOk result (λ services. (ts : List ServiceTerms) → configs_of ts ≡ configs.now → AllServe services.items ts []) }
{
    let Ok(mut services) = Vec::with_capacity(alloc, configs.len()) else {
        return Err(OutOfMemory);
    };
    match add_services(&mut services, configs) {
        Ok(()) => Ok(services),
        Err(error) => Err(error),
    }
}

impl Services {
    /// Services of these configurations, in this order, that were given nothing.
    ///
    /// # Errors
    ///
    /// `NoService` where there is none, `Many` where there are more than eight; `SharedIndex`, `SharedProgram` and `SharedCue` where two of
    /// them have one; `OutOfMemory` where the allocator refused memory. The first of these that applies.
    pub fn new(alloc: Global, configs: &[Config]) -> Result<Services, ServiceFault>
        ensures ok { IfOk result (λ services. ServicesStandFor services configs.now) }
        ensures sound { OnOk result (services_refused configs.now ≡ None) }
        ensures err { IfErr result (IsRefused configs.now) }
    {
        Services::new_in(alloc, configs)
    }
}

impl<M: Allocator + Copy> Services<M> {
    /// The same, whose memory is this allocator's.
    ///
    /// # Errors
    ///
    /// As for [`Services::new`].
    pub fn new_in(alloc: M, configs: &[Config]) -> Result<Services<M>, ServiceFault>
        ensures ok { IfOk result (λ services. ServicesStandFor services configs.now) }
        ensures sound { OnOk result (services_refused configs.now ≡ None) }
        ensures err { IfErr result (IsRefused configs.now) }
    {
        let Some(first) = configs.first() else {
            return Err(ServiceFault::NoService);
        };
        if configs.len() > MOST {
            return Err(ServiceFault::Many);
        }
        if share_an_index(configs) {
            return Err(ServiceFault::SharedIndex);
        }
        if share_a_program(configs) {
            return Err(ServiceFault::SharedProgram);
        }
        if share_a_cue_pid(configs) {
            return Err(ServiceFault::SharedCue);
        }
        let Ok(talk) = Talk::new_in(alloc) else {
            return Err(ServiceFault::OutOfMemory);
        };
        let Ok(services) = services_of(alloc, configs) else {
            return Err(ServiceFault::OutOfMemory);
        };
        let desk = Desk {
            services,
            none: Requests::new(first.index),
            counts: MessageCounts {
                messages: 0,
                accepted: 0,
                refused: 0,
            },
            owners: Owners::new(),
            has_heard: false,
            turns: 0,
        };
        Ok(Services { talk, desk })
    }
}

impl<M: Allocator> Services<M> {
    ghost use Rattle.std.specs.Prelude.{ℕ, suc, ◌+◌, length, slice_get, option_map, true};
    ghost use Rattle.std.specs.Option.{is_some};
    ghost use Rattle.scte104_codec.specs.declared.reply.Reply.{Reply};
    ghost use Rattle.chain_engine.specs.Automation.{Take, takes_and_answers};
    ghost use Rattle.chain_engine.specs.Hearing.{Replied};
    ghost use Rattle.chain_engine.specs.Talks.{TalkStandsFor, judged_before, loses, CountsEnd};
    ghost use Rattle.chain_services.specs.Serving.{DeskJudges, services_in};

    /// How many services there are: a run is given as many libraries.
    pub fn count(&self) -> usize
        ensures { result ≡ length (services_in self.now.desk) }
    {
        self.desk.services.len()
    }

    /// The service at this place in their order; `None` behind the last one.
    pub fn get(&self, place: usize) -> Option<&Service>
        ensures { option_map (λ service. service.now) result ≡ slice_get (services_in self.now.desk) place }
    {
        self.desk.services.get(place)
    }

    /// With how many packets something has turned in the switch of a service, modulo 2⁶⁴: each is looked at behind these alone.
    #[inline(always)]
    pub fn turns(&self) -> u64
        ensures { result ≡ self.now.desk.turns }
    {
        self.desk.turns
    }

    /// Why the automation is not listened to any more; `None` while its session is open.
    pub fn session_end(&self) -> Option<SessionEnd>
        ensures { result ≡ self.now.talk.end }
    {
        self.talk.end()
    }

    /// Hears the automation before the next packet, as [`Talk::listen`] does; the desk judges.
    #[inline(always)]
    pub(crate) fn hear<U: Automation>(&mut self, automation: &mut U)
        ensures talk { (ts : List Take) (n k : ℕ) → TalkStandsFor self.old.talk ts n k →
            (more : List Take) × (rs : List Reply)
            × TalkStandsFor self.new.talk (ts ++ more) (n + length rs) (suc k)
            × Replied DeskJudges self.old.desk self.new.desk (judged_before (n + length rs) (ts ++ more) k) rs
            (loses self.old.talk.end self.new.talk.end) (λ xs. U.exchanges automation.old (takes_and_answers more xs) automation.new) }
        ensures closed { is_some self.old.talk.end ≡ true → (self.new.talk ≡ self.old.talk)
            × (self.new.desk ≡ self.old.desk) × (automation.new ≡ automation.old) }
        ensures failures { CountsEnd self.old.talk.end self.new.talk.end (U.failures automation.old) (U.failures automation.new) }
    {
        self.talk.listen(&mut self.desk, automation);
    }
}
