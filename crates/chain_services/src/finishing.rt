//! The end of a run of several services.

ghost use Rattle.std.specs.Prelude.{◌≡◌, ◌++◌, [], ℕ, List, Option, OnOk, IfOk, IfErr};
ghost use Rattle.ts_packet.specs.Transfers.{WentWell};
ghost use Rattle.injector.specs.Steps.{Step};
ghost use Rattle.ad_library.specs.Library.{held};
ghost use Rattle.chain_engine.specs.Runs.{OutputBlamed};
ghost use Rattle.service_laws.specs.Services.{ServiceTerms, services_rest};
ghost use Rattle.chain_services.specs.Serving.{ServesAs, AllServe, FiledAs, services_in};
ghost use Rattle.chain_services.specs.Parts.{rest_of, AddsOne, OneRestFails, AddsEvents, AreEvents, RestFails};

use crate::desk::Desk;
use crate::report::ServiceEvents;
use ad_library::AdLibrary;
use arrayvec::ArrayVec;
use chain_engine::{RunFault, Service};
use psi_tables::FeedFault;
use std::alloc::Allocator;
use ts_packet::PacketSink;

/// Puts what is left of the advertisements of a service, and adds what became of its events.
///
/// # Errors
///
/// `Sink` where the sink failed: it has a front of what was left. `Failed` where there is no room for more events.
fn finish_one<K: PacketSink>(
    service: &mut Service,
    library: &AdLibrary,
    events: &mut ArrayVec<ServiceEvents, 8>,
    out: &mut K,
) -> Result<(), FeedFault>
    ensures leads { K.leads out.old out.new }
    ensures ok { (t : ServiceTerms) (steps : List Step) (start : Option (List ℕ)) (ps : List (List ℕ))
        → held library.now ≡ t.filed → ServesAs service.old t steps → K.holds out.old start ps
        → OnOk result (AddsOne events.old.items events.new.items t steps × K.holds out.new start (ps ++ rest_of t steps)) }
    ensures err { (t : ServiceTerms) (steps : List Step) (start : Option (List ℕ)) (ps : List (List ℕ))
        → held library.now ≡ t.filed → ServesAs service.old t steps → K.holds out.old start ps
        → IfErr result (λ f. OneRestFails f events.old.items t steps (λ put q x. K.fails out.new start (ps ++ put) q x)) }
    ensures well { OnOk result (WentWell (K.counts out.old) (K.counts out.new)) }
    ensures blamed { IfErr result (λ f. OutputBlamed (RunFault.Feed f)
        (K.counts out.old) (K.counts out.new) (K.is_full out.new)) }
{
    let config = service.config();
    let switch = match service.finish(library, out) {
        Ok(switch) => switch,
        Err(fault) => return Err(fault),
    };
    let one = ServiceEvents {
        index: config.index,
        program: config.program,
        switch,
    };
    match events.try_push(one) {
        Ok(()) => Ok(()),
        Err(_) => Err(FeedFault::Failed),
    }
}

/// Puts what is left of the advertisements of these services, each with its library, and adds what became of their events.
///
/// # Errors
///
/// As for [`finish_one`].
fn finish_each<K: PacketSink>(
    services: &mut [Service],
    libraries: &[AdLibrary],
    events: &mut ArrayVec<ServiceEvents, 8>,
    out: &mut K,
) -> Result<(), FeedFault>
    ensures leads { K.leads out.old out.new }
    ensures ok { (ts : List ServiceTerms) (steps : List Step) (start : Option (List ℕ)) (ps : List (List ℕ))
        → FiledAs libraries.now ts → AllServe services.old ts steps → K.holds out.old start ps
        → OnOk result (AddsEvents events.old.items events.new.items ts steps
        × K.holds out.new start (ps ++ services_rest ts steps)) }
    ensures err { (ts : List ServiceTerms) (steps : List Step) (start : Option (List ℕ)) (ps : List (List ℕ))
        → FiledAs libraries.now ts → AllServe services.old ts steps → K.holds out.old start ps
        → IfErr result (λ f. RestFails f events.old.items ts steps (λ put q x. K.fails out.new start (ps ++ put) q x)) }
    ensures well { OnOk result (WentWell (K.counts out.old) (K.counts out.new)) }
    ensures blamed { IfErr result (λ f. OutputBlamed (RunFault.Feed f)
        (K.counts out.old) (K.counts out.new) (K.is_full out.new)) }
{
    let Some((service, others)) = services.split_first_mut() else {
        return Ok(());
    };
    let Some((library, libraries)) = libraries.split_first() else {
        return Ok(());
    };
    match finish_one(service, library, events, out) {
        Ok(()) => finish_each(others, libraries, events, out),
        Err(fault) => Err(fault),
    }
}

impl<M: Allocator> Desk<M> {
    /// Puts what is left of all advertisements, service by service, and tells what became of their events.
    ///
    /// # Errors
    ///
    /// `Sink` where the sink failed: it has a front of what was left. `Failed` where there are more than eight services.
    pub(crate) fn finish<K: PacketSink>(
        &mut self,
        libraries: &[AdLibrary],
        out: &mut K,
    ) -> Result<ArrayVec<ServiceEvents, 8>, FeedFault>
        ensures leads { K.leads out.old out.new }
        ensures ok { (ts : List ServiceTerms) (steps : List Step) (start : Option (List ℕ)) (ps : List (List ℕ))
            → FiledAs libraries.now ts → AllServe (services_in self.old) ts steps → K.holds out.old start ps
            → IfOk result (λ events. AreEvents events.items ts steps
            × K.holds out.new start (ps ++ services_rest ts steps)) }
        ensures err { (ts : List ServiceTerms) (steps : List Step) (start : Option (List ℕ)) (ps : List (List ℕ))
            → FiledAs libraries.now ts → AllServe (services_in self.old) ts steps → K.holds out.old start ps
            → IfErr result (λ f. RestFails f [] ts steps (λ put q x. K.fails out.new start (ps ++ put) q x)) }
        ensures well { OnOk result (WentWell (K.counts out.old) (K.counts out.new)) }
        ensures blamed { IfErr result (λ f. OutputBlamed (RunFault.Feed f)
            (K.counts out.old) (K.counts out.new) (K.is_full out.new)) }
    {
        let mut events = ArrayVec::new();
        match finish_each(self.services.as_mut_slice(), libraries, &mut events, out) {
            Ok(()) => Ok(events),
            Err(fault) => Err(fault),
        }
    }
}
