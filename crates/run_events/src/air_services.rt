//! Whole runs of several services on air that are looked at between their packets.

ghost use Rattle.std.specs.Prelude.{◌≡◌, ℕ, List, [], ◌++◌, length, reverse, Option, Some, false, OnOk, IfOk, IfErr};
ghost use Rattle.ts_packet.specs.Packets.{packets_of};
ghost use Rattle.cued_laws.specs.Laws.{ArePacketsOfBytes};
ghost use Rattle.psi_tables.specs.declared.config.Config.{Config};
ghost use Rattle.on_air.specs.Plain.{IsOfDevices};
ghost use Rattle.service_laws.specs.Services.{ServiceTerms, configs_of};
ghost use Rattle.chain_engine.specs.Runs.{Exchanged};
ghost use Rattle.chain_services.specs.Serving.{FiledAs};
ghost use Rattle.services_on_air.specs.Standing.{AirServicesStandFor, TellsServices};
ghost use Rattle.services_on_air.specs.Serving.{AirServicesBegin};
ghost use Rattle.services_on_air.specs.Outputs.{ServicesOnAir};

use crate::occurrence::What;
use crate::tracker::{Taken, Tracker};
use crate::watch::{Site, Watch};
use ad_library::AdLibrary;
use arrayvec::ArrayVec;
use chain_engine::{Automation, RunFault, Service};
use chain_services::ServiceReport;
use on_air::AirReport;
use services_on_air::{AirServices, ServiceBegun, ServicesWatch, Shown, run_services_on_air};
use splice_switch::SwitchReport;
use std::alloc::Allocator;
use ts_packet::{GatheringSink, Packet, PausingPackets};

/// The most services.
const MOST: usize = 8;

/// The breaks of one service on air.
#[derive(Drop)]
struct ServiceSight {
    program: u16,
    /// Its map was found by the PAT in some stretch.
    is_found: bool,
    tracker: Tracker,
}

impl Default for ServiceSight {
    /// What fills an unused place of a list.
    fn default() -> ServiceSight {
        ServiceSight {
            program: 0,
            is_found: false,
            tracker: Tracker::default(),
        }
    }
}

/// One who is told of services on air, and what is known of their breaks besides.
#[derive(Drop)]
pub struct SeenServices<'a, A, W> {
    inner: &'a mut A,
    watch: W,
    /// Something is to be told.
    is_on: bool,
    /// Each cue is, at its packet.
    is_detailed: bool,
    /// How many packets have passed, modulo 2⁶⁴.
    passed: u64,
    /// The number of the packet behind which the services are shown.
    packet: u64,
    /// Cues may have come before it.
    has_news: bool,
    services: ArrayVec<ServiceSight, MOST>,
    /// With how many packets something had turned in a service when they were shown last.
    turns: u64,
    /// The place of the service that is shown next, where all are in turn.
    next: usize,
}

impl<'a, A, W: Watch> SeenServices<'a, A, W> {
    /// No packet has passed.
    pub fn new(inner: &'a mut A, watch: W) -> SeenServices<'a, A, W> {
        let (is_on, is_detailed) = (watch.is_on(), watch.is_detailed());
        SeenServices {
            inner,
            watch,
            is_on,
            is_detailed,
            passed: 0,
            packet: 0,
            has_news: false,
            services: ArrayVec::new(),
            turns: 0,
            next: 0,
        }
    }

    /// Where the service of this program stands among those that are known, which it joins.
    fn place_of(&mut self, program: u16) -> usize {
        let place = self.next;
        let place = match self.services.get(place) {
            Some(sight) if sight.program == program => place,
            _ => self.find(program),
        };
        self.turn_behind(place);
        place
    }

    /// The service behind that of this place is in turn, or the first one behind the last.
    #[inline(always)]
    fn turn_behind(&mut self, place: usize) {
        let next = place.saturating_add(1);
        self.next = if next < self.services.len() { next } else { 0 };
    }

    /// Looks it up among all, and adds it where it is not there.
    fn find(&mut self, program: u16) -> usize {
        for place in 0..self.services.len() {
            if self.services[place].program == program {
                return place;
            }
        }
        let mut sight = ServiceSight::default();
        sight.program = program;
        sight.tracker = Tracker::new(self.is_detailed);
        let _ = self.services.try_push(sight);
        self.services.len().saturating_sub(1)
    }

    /// Something has turned in a service since they were shown last. They are shown then.
    #[inline(always)]
    fn has_turned(&mut self, turns: u64) -> bool {
        let has_turned = self.turns != turns;
        self.turns = turns;
        has_turned
    }

    /// Nothing has turned in the service whose turn it is, and of which nothing is to be found any more.
    #[inline(always)]
    fn is_up_to_date(&self, service: &Service) -> bool {
        match self.services.get(self.next) {
            Some(sight) => {
                sight.is_found
                    && sight.program == service.config().program
                    && sight.tracker.is_up_to_date(service.switch())
            }
            None => false,
        }
    }

    /// Looks at a service that is shown.
    #[inline(never)]
    fn look(&mut self, service: &Service, library: &AdLibrary, shown: Shown<'_>) {
        if !self.is_on {
            return;
        }
        let program = service.config().program;
        let place = self.place_of(program);
        let site = Site {
            service: Some(program),
            packet: match shown {
                Shown::Last => self.passed,
                _ => self.packet,
            },
        };
        let (packet, has_news) = match shown {
            Shown::Judged(packet) => (Some(packet), self.has_news),
            Shown::Unjudged => (None, self.has_news),
            Shown::Last => (None, true),
        };
        let taken = Taken { packet, has_news };
        if let Some(sight) = self.services.get_mut(place) {
            sight.is_found = sight.is_found || service.pid_count() > 0;
            sight
                .tracker
                .look(service.switch(), library, taken, site, &mut self.watch);
        }
    }

    /// Tells of the programs that were not found in the whole network.
    fn tell_amiss(&mut self) {
        if !self.is_on {
            return;
        }
        for sight in self.services.iter() {
            if !sight.is_found {
                let site = Site {
                    service: Some(sight.program),
                    packet: self.passed,
                };
                site.tell(&mut self.watch, What::NotFound(sight.program));
            }
        }
        let site = Site {
            service: None,
            packet: self.passed,
        };
        site.tell(&mut self.watch, What::End);
    }
}

impl<A: ServicesWatch, W: Watch> ServicesWatch for SeenServices<'_, A, W> {
    fn begun(&mut self, begun: &ServiceBegun) {
        self.inner.begun(begun);
    }

    fn unjudged(&mut self, packet: u64) {
        self.inner.unjudged(packet);
    }

    #[inline(always)]
    fn looks(&mut self, packet: &Packet, turns: u64) -> bool {
        self.packet = self.passed;
        self.passed = self.passed.wrapping_add(1);
        self.has_news = self.is_detailed && self.watch.takes_news();
        self.has_news || packet.unit_start() && (self.is_detailed || self.has_turned(turns))
    }

    #[inline(always)]
    fn shown(&mut self, service: &Service, library: &AdLibrary, shown: Shown<'_>) {
        if !self.has_news && self.is_up_to_date(service) {
            if let Shown::Judged(_) = shown {
                self.turn_behind(self.next);
                return;
            }
        }
        self.look(service, library, shown);
    }

    fn ended(&mut self, program: u16, report: &SwitchReport, lost: u64) {
        if !self.is_on {
            return;
        }
        let place = self.place_of(program);
        let site = Site {
            service: Some(program),
            packet: self.passed,
        };
        if let Some(sight) = self.services.get_mut(place) {
            sight.tracker.finish(*report, site, &mut self.watch);
        }
        if lost > 0 {
            site.tell(&mut self.watch, What::Lost(lost));
        }
    }
}

/// Runs several services on air as [`services_on_air::run_services_on_air`] does, and tells of it.
///
/// # Errors
///
/// The fault of a device alone.
pub fn services_told_on_air<M, P, U, K, A, W>(
    services: AirServices<M>,
    network: &mut P,
    automation: &mut U,
    libraries: &[AdLibrary],
    out: &mut K,
    watch: &mut A,
    listener: W,
) -> Result<AirReport<ServiceReport>, RunFault>
where
    M: Allocator,
    P: PausingPackets,
    U: Automation,
    K: GatheringSink,
    A: ServicesWatch,
    W: Watch + Drop,
    requires { P.is_broken network.old ≡ false }
    ensures stretches { (cs : List Config) (bs : List ℕ) → AirServicesStandFor services cs [] → length libraries.now ≡ length cs
        → P.left network.old ≡ Some bs → IfOk result (λ told. TellsServices told cs bs) }
    ensures out { (ts : List ServiceTerms) (start : Option (List ℕ)) (before : List (List ℕ)) (bs : List ℕ)
        → AirServicesStandFor services (configs_of ts) [] → AirServicesBegin services (configs_of ts) → FiledAs libraries.now ts
        → K.holds out.old start before → P.left network.old ≡ Some bs
        → IfOk result (λ told. ServicesOnAir ts bs (λ ps. K.holds out.new start (before ++ ps))
        (Exchanged U.exchanges U.failures automation.old automation.new) told) }
    ensures bytes { (bs : List ℕ) → P.left network.old ≡ Some bs → OnOk result (ArePacketsOfBytes (reverse (packets_of bs))) }
    ensures reads { P.leads network.old network.new }
    ensures leads { K.leads out.old out.new }
    ensures devices { IfErr result IsOfDevices }
{
    let mut seen = SeenServices::new(watch, listener);
    match run_services_on_air(services, network, automation, libraries, out, &mut seen) {
        Ok(report) => {
            seen.tell_amiss();
            Ok(report)
        }
        Err(fault) => Err(fault),
    }
}
