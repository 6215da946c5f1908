//! Whose a message is.

ghost use Rattle.std.specs.Prelude.{◌≡◌, ◌==◌, ℕ, List, true, false};
ghost use Rattle.scte104_codec.specs.Views.{reading_of};
ghost use Rattle.service_laws.specs.Messages.{is_for};
ghost use Rattle.service_laws.specs.Services.{ServiceTerms};
ghost use Rattle.chain_services.specs.Owners.{AllTake};
ghost use Rattle.services_on_air.specs.Airing.{Airing};
ghost use Rattle.services_on_air.specs.Standing.{AllStand, AllSettled};
ghost use Rattle.services_on_air.specs.Owners.{HasOwnersOnAir};
ghost use Rattle.services_on_air.specs.Histories.{Gone};
ghost use Rattle.services_on_air.specs.Serving.{AllGone, AskedOnAir, DeskGone, gones_asked, reply_by_gone};

use crate::owners::tell;
use crate::service::AirService;
use chain_engine::Judge;
use chain_services::{Owners, counted, index_of, takes_all};
use injector::{MessageCounts, Requests};
use scte104_codec::{BadMessage, Message, Reply};
use std::alloc::Allocator;
use ts_packet::Packet;

/// Has the service with this index judge the message, where there is one.
fn ask_own(
    services: &mut [AirService],
    index: u16,
    message: Result<Message<'_>, BadMessage>,
) -> Option<Reply>
    ensures stands { (p : List ℕ) (xs : List Airing) → AllSettled services.old p xs → AllSettled services.new p xs }
    ensures gone { (ts : List ServiceTerms) (gs : List Gone) → ((i : ℕ) → is_for i (reading_of message.entry) ≡ (index == i))
        → AllGone services.old ts gs → AskedOnAir result services.new ts gs (reading_of message.entry) }
{
    match services.split_first_mut() {
        None => None,
        Some((service, others)) => {
            if index == service.config().index {
                return Some(service.ask(message));
            }
            ask_own(others, index, message)
        }
    }
}

/// The services, in their order.
#[derive(Drop)]
pub(crate) struct AirDesk<M: Allocator> {
    pub(crate) services: Vec<AirService, M>,
    /// What answers the messages that are for no service.
    pub(crate) none: Requests,
    /// How many messages were judged.
    pub(crate) counts: MessageCounts,
    /// Which services take the packets of each PID.
    pub(crate) owners: Owners,
    /// All services take the packet that is settled, or that comes next: before it a message was judged, so that cues may go out before it, or a
    /// stretch begins with it; or one of the services left the last packet unjudged; or more PIDs are known since that.
    pub(crate) asks_all: bool,
    /// With how many packets something has turned in the switch of a service, modulo 2⁶⁴.
    pub(crate) turns: u64,
}

impl<M: Allocator> AirDesk<M> {
    /// Has the service that the message is for judge it.
    fn judge(&mut self, message: Result<Message<'_>, BadMessage>) -> Reply
        ensures stands { (p : List ℕ) (xs : List Airing) → AllSettled self.old.services.items p xs
            → AllSettled self.new.services.items p xs }
        ensures gone { (ts : List ServiceTerms) (gs : List Gone) → DeskGone self.old ts gs
            → (result ≡ reply_by_gone ts gs (reading_of message.entry))
            × DeskGone self.new ts (gones_asked ts (reading_of message.entry) gs) }
        ensures counts { self.new.counts ≡ self.old.counts }
        ensures owners { self.new.owners ≡ self.old.owners }
    {
        match index_of(&message) {
            None => self.none.ask(message),
            Some(index) => match ask_own(self.services.as_mut_slice(), index, message) {
                Some(reply) => reply,
                None => self.none.ask(message),
            },
        }
    }
}

impl<M: Allocator> AirDesk<M> {
    /// Where a stretch begins anew with the packet that is settled, all services take that, and those behind it until it is told anew of their PIDs.
    #[inline(always)]
    pub(crate) fn settled(&mut self, is_anew: bool)
        ensures anew { is_anew ≡ true → AllTake self.new.owners × (self.new.asks_all ≡ true) }
        ensures same { is_anew ≡ false → self.new ≡ self.old }
        ensures others { (self.new.services ≡ self.old.services) × (self.new.none ≡ self.old.none) × (self.new.counts ≡ self.old.counts) }
    {
        if is_anew {
            self.forget();
        }
    }

    /// Learns that more PIDs are known: all services take each packet until it is told anew of its PID, and all take the next one.
    pub(crate) fn forget(&mut self)
        ensures table { AllTake self.new.owners }
        ensures all { self.new.asks_all ≡ true }
        ensures others { (self.new.services ≡ self.old.services) × (self.new.none ≡ self.old.none) × (self.new.counts ≡ self.old.counts) }
    {
        self.owners.forget();
        self.asks_all = true;
    }

    /// Looks up which services take the packets of the PID of this one, where it was told of it that all do, or of no PID.
    #[inline(always)]
    pub(crate) fn look_up(&mut self, takers: u8, packet: &Packet)
        ensures owners { (xs : List Airing) → AllStand self.old.services.items xs → HasOwnersOnAir self.old.owners xs
            → HasOwnersOnAir self.new.owners xs }
        ensures all { self.new.asks_all ≡ self.old.asks_all }
        ensures others { (self.new.services ≡ self.old.services) × (self.new.none ≡ self.old.none) × (self.new.counts ≡ self.old.counts) }
    {
        if takes_all(false, takers) {
            tell(&mut self.owners, self.services.as_slice(), packet.pid());
        }
    }
}

/// A message goes to the service whose index it has, in the stretch that this is in.
impl<M: Allocator> Judge for AirDesk<M> {
    ghost use Rattle.services_on_air.specs.Standing.{AirDeskJudges};

    ghost judges = { λ old m reply new. AirDeskJudges old m reply new };

    fn ask(&mut self, message: Result<Message<'_>, BadMessage>) -> Reply {
        let reply = self.judge(message);
        self.counts = counted(self.counts, &reply);
        self.asks_all = true;
        reply
    }
}
