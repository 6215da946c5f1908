//! The chain: what turns a network and an automation's requests into the spliced stream.

ghost use Rattle.std.specs.Prelude.{IfOk};
ghost use Rattle.chain_engine.specs.Chains.{ChainStandsFor};

use crate::automation::Automation;
use crate::service::Service;
use crate::talk::Talk;
use psi_tables::Config;
use std::alloc::{Allocator, Global};
use thiserror::Error;

/// Memory was refused.
#[derive(Clone, Copy, Debug, PartialEq, Eq, Drop, Error)]
#[error("memory was refused")]
pub struct OutOfMemory;

/// What turns a network and an automation's requests into a network with cues. It takes all its memory when it is made, two times
/// 65,535 bytes for the automation's messages.
#[derive(Drop)]
pub struct Chain<M: Allocator = Global> {
    pub(crate) talk: Talk<M>,
    pub(crate) service: Service,
    /// It answered a fault.
    pub(crate) is_spent: bool,
}

impl Chain {
    /// A chain that was given nothing.
    ///
    /// # Errors
    ///
    /// Where the allocator refused memory.
    pub fn new(alloc: Global, config: Config) -> Result<Chain, OutOfMemory>
        ensures { IfOk result (λ chain. ChainStandsFor chain config) }
    {
        Chain::new_in(alloc, config)
    }
}

impl<M: Allocator + Copy> Chain<M> {
    /// A chain that was given nothing, whose memory is this allocator's.
    ///
    /// # Errors
    ///
    /// As for [`Chain::new`].
    pub fn new_in(alloc: M, config: Config) -> Result<Chain<M>, OutOfMemory>
        ensures { IfOk result (λ chain. ChainStandsFor chain config) }
    {
        let Ok(talk) = Talk::new_in(alloc) else {
            return Err(OutOfMemory);
        };
        Ok(Chain {
            talk,
            service: Service::new(config),
            is_spent: false,
        })
    }
}

impl<M: Allocator> Chain<M> {
    ghost use Rattle.std.specs.Prelude.{◌≡◌, ℕ, suc, ◌+◌, List, ◌++◌, length, true};
    ghost use Rattle.std.specs.Option.{is_some};
    ghost use Rattle.scte104_codec.specs.declared.reply.Reply.{Reply};
    ghost use Rattle.chain_engine.specs.Automation.{Take, takes_and_answers};
    ghost use Rattle.chain_engine.specs.Hearing.{Replied};
    ghost use Rattle.chain_engine.specs.Judging.{ServiceJudges};
    ghost use Rattle.chain_engine.specs.Talks.{TalkStandsFor, judged_before, loses, CountsEnd};

    /// Hears the automation before the next packet, as [`Talk::listen`] does; the service judges.
    #[inline(always)]
    pub(crate) fn hear<U: Automation>(&mut self, automation: &mut U)
        ensures talk { (ts : List Take) (n k : ℕ) → TalkStandsFor self.old.talk ts n k →
            (more : List Take) × (rs : List Reply)
            × TalkStandsFor self.new.talk (ts ++ more) (n + length rs) (suc k)
            × Replied ServiceJudges self.old.service self.new.service (judged_before (n + length rs) (ts ++ more) k) rs
            (loses self.old.talk.end self.new.talk.end) (λ xs. U.exchanges automation.old (takes_and_answers more xs) automation.new) }
        ensures closed { is_some self.old.talk.end ≡ true → (self.new.talk ≡ self.old.talk)
            × (self.new.service ≡ self.old.service) × (automation.new ≡ automation.old) }
        ensures failures { CountsEnd self.old.talk.end self.new.talk.end (U.failures automation.old) (U.failures automation.new) }
        ensures spent { self.new.is_spent ≡ self.old.is_spent }
    {
        self.talk.listen(&mut self.service, automation);
    }
}
