//! Whose a message is.

ghost use Rattle.std.specs.Prelude.{◌≡◌, ◌==◌, ℕ, ◌∷◌, List, Option, false, filter, length};
ghost use Rattle.psi_section.specs.Assembling.{capped};
ghost use Rattle.scte104_codec.specs.Views.{reading_of};
ghost use Rattle.scte104_codec.specs.declared.reply.Reply.{Reply};
ghost use Rattle.injector.specs.Steps.{Step};
ghost use Rattle.service_laws.specs.Messages.{is_for, share_an_index, accepts, refuses};
ghost use Rattle.service_laws.specs.Services.{ServiceTerms, configs_of};
ghost use Rattle.chain_services.specs.Serving.{AllServe, AskedOwn, CountsReplies, is_index};

use crate::owners::{Owners, owners_of};
use chain_engine::{Judge, Service};
use injector::{MessageCounts, Requests};
use scte104_codec::operation_ids::INJECT_RESPONSE;
use scte104_codec::{BadMessage, Message, Reply};
use std::alloc::Allocator;

/// `result` of a reply: success.
const SUCCESS: u16 = 100;

/// The `DPI_PID_index` of a multiple operation, also of one that breaks the syntax behind it; `None` of a single operation.
pub fn index_of(message: &Result<Message<'_>, BadMessage>) -> Option<u16>
    ensures { (index : ℕ) → is_for index (reading_of message.now) ≡ is_index index result }
{
    match message {
        Ok(Message::Multi(multi)) => Some(multi.head.index),
        Ok(_) => None,
        Err(bad) => bad.multi.then_some(bad.head.index),
    }
}

/// Has the service with this index judge the message, where there is one.
fn ask_own(
    services: &mut [Service],
    index: u16,
    message: Result<Message<'_>, BadMessage>,
) -> Option<Reply>
    ensures { (ts : List ServiceTerms) (steps : List Step) → share_an_index (configs_of ts) ≡ false
        → AllServe services.old ts steps → ((i : ℕ) → is_for i (reading_of message.entry) ≡ (index == i))
        → AskedOwn result services.new ts (reading_of message.entry) steps }
{
    match services.split_first_mut() {
        None => None,
        Some((service, others)) => {
            if index == service.config().index {
                return Some(service.ask(message));
            }
            ask_own(others, index, message)
        }
    }
}

/// The counts with one message more, which was answered so.
pub fn counted(before: MessageCounts, reply: &Reply) -> MessageCounts
    ensures { (rs : List Reply) → CountsReplies before.messages before.accepted before.refused rs
        → CountsReplies result.messages result.accepted result.refused (reply.now ∷ rs) }
{
    let mut counts = before;
    counts.messages = counts.messages.saturating_add(1);
    if reply.op == INJECT_RESPONSE {
        if reply.result == SUCCESS {
            counts.accepted = counts.accepted.saturating_add(1);
        } else {
            counts.refused = counts.refused.saturating_add(1);
        }
    }
    counts
}

/// The services, in their order.
#[derive(Drop)]
pub(crate) struct Desk<M: Allocator> {
    pub(crate) services: Vec<Service, M>,
    /// What answers the messages that are for no service.
    pub(crate) none: Requests,
    /// How many messages were judged.
    pub(crate) counts: MessageCounts,
    /// Which services take the packets of each PID.
    pub(crate) owners: Owners,
    /// A message was judged since the last packet: all services take the next one, since cues may go out before it.
    pub(crate) has_heard: bool,
    /// With how many packets something has turned in the switch of a service, modulo 2⁶⁴.
    pub(crate) turns: u64,
}

impl<M: Allocator> Desk<M> {
    ghost use Rattle.chain_services.specs.Serving.{ServesBehind};

    /// Has the service that the message is for judge it.
    fn judge(&mut self, message: Result<Message<'_>, BadMessage>) -> Reply
        ensures judged { (ts : List ServiceTerms) (steps : List Step) → share_an_index (configs_of ts) ≡ false
            → ServesBehind self.old self.new ts (reading_of message.entry) steps result }
        ensures counts { self.new.counts ≡ self.old.counts }
        ensures owners { self.new.owners ≡ self.old.owners }
    {
        match index_of(&message) {
            None => self.none.ask(message),
            Some(index) => match ask_own(self.services.as_mut_slice(), index, message) {
                Some(reply) => reply,
                None => self.none.ask(message),
            },
        }
    }
}

impl<M: Allocator> Desk<M> {
    ghost use Rattle.injector.specs.Steps.{packets_in};
    ghost use Rattle.chain_services.specs.Serving.{services_in};
    ghost use Rattle.chain_services.specs.Owners.{HasOwners};

    /// Learns anew which services take the packets of each PID.
    #[cold]
    #[inline(never)]
    pub(crate) fn learn(&mut self)
        ensures owners { (ts : List ServiceTerms) (steps : List Step) → AllServe (services_in self.old) ts steps
            → HasOwners self.new.owners ts (packets_in steps) }
        ensures services { services_in self.new ≡ services_in self.old }
        ensures none { self.new.none ≡ self.old.none }
        ensures counts { self.new.counts ≡ self.old.counts }
    {
        self.owners = owners_of(self.services.as_slice());
    }
}

/// A message goes to the service whose index it has.
impl<M: Allocator> Judge for Desk<M> {
    ghost use Rattle.chain_services.specs.Serving.{DeskJudges};

    ghost judges = { λ old m reply new. DeskJudges old m reply new };

    fn ask(&mut self, message: Result<Message<'_>, BadMessage>) -> Reply {
        let reply = self.judge(message);
        self.counts = counted(self.counts, &reply);
        self.has_heard = true;
        reply
    }
}
