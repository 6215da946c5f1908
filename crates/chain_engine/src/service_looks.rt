//! What a run on air asks of a service before it passes a packet on: what is wrong with the packet, what it is there, and what stands.

ghost use Rattle.std.specs.Prelude.{◌≡◌, ◌<◌, ℕ, List, Option, Some, IfSome};
ghost use Rattle.psi_tables.specs.declared.config.Config.{Config};
ghost use Rattle.program_follower.specs.Faults.{network_fault};
ghost use Rattle.program_follower.specs.Purposes.{writing_cues};
ghost use Rattle.program_follower.specs.Program.{program_of, pids_of, behind_head};
ghost use Rattle.program_follower.specs.Streaming.{place_in, start_in};
ghost use Rattle.event_table.specs.Events.{open_count_of};
ghost use Rattle.event_table.specs.Tables.{high_time_of, events_of};
ghost use Rattle.ad_library.specs.Advertisements.{Advertisement};
ghost use Rattle.ad_library.specs.Library.{held};
ghost use Rattle.injector.specs.Steps.{Step, cued, packets_in};
ghost use Rattle.splice_plans.specs.Adverts.{setting_of};
ghost use Rattle.splice_plans.specs.Reporting.{ReportIs, report_of};
ghost use Rattle.splice_plans.specs.Stepping.{Journey};
ghost use Rattle.splice_switch.specs.Standing.{SwitchStandsAt};
ghost use Rattle.chain_engine.specs.Stages.{InjectsFor};
ghost use Rattle.chain_engine.specs.Passing.{ServiceStandsFor};

use crate::service::Service;
use ad_library::AdLibrary;
use program_follower::UnitStart;
use psi_tables::NetworkFault;
use splice_switch::SwitchReport;
use ts_packet::Packet;

impl Service {
    /// What is wrong with the next packet of the network, behind those before it. It is not taken, and nothing changes.
    #[inline(always)]
    pub fn look(&self, packet: &Packet) -> Option<NetworkFault>
        ensures { (c : Config) (steps : List Step) → InjectsFor c self.now steps
            → result ≡ network_fault (writing_cues c) packet.now (packets_in steps) }
    {
        self.injector.look(packet)
    }

    /// The number of the switched stream that the packet is of, behind the head, counted from 0 in the order of the map; `None` where it is of
    /// none.
    pub fn stream_of(&self, packet: &Packet) -> Option<usize>
        ensures below { IfSome result (λ stream. stream < 8) }
        ensures place { (c : Config) (steps : List Step) → InjectsFor c self.now steps
            → result ≡ place_in (pids_of (program_of (Some c.program) (packets_in steps))) packet.now }
    {
        self.injector.stream_of(packet)
    }

    /// The unit that the next packet of the network, which is of the switched stream of this number, would begin there, scrambled or not;
    /// `None` where it begins none. It is not taken.
    pub fn start_at(&self, stream: usize, packet: &Packet) -> Option<UnitStart>
        requires { stream < 8 }
        ensures { (c : Config) (steps : List Step) → InjectsFor c self.now steps
            → Some stream ≡ place_in (pids_of (program_of (Some c.program) (packets_in steps))) packet.now
            → result ≡ start_in (pids_of (program_of (Some c.program) (packets_in steps))) packet.now
            (behind_head (Some c.program) (packets_in steps)) }
    {
        self.injector.start_at(stream, packet)
    }

    /// How many of the starts that were accepted are not cancelled, and have an end that lies past the greatest time.
    pub fn open_count(&self) -> usize
        ensures { result ≡ open_count_of (high_time_of self.now.injector.requests.table) (events_of self.now.injector.requests.table) }
    {
        self.injector.open_count()
    }

    /// What has become of the events so far, and of those that stand, as it will stand in the report.
    pub fn report(&self, library: &AdLibrary) -> SwitchReport
        ensures stands { (c : Config) (steps : List Step) → ServiceStandsFor self.now c (held library.now) steps
            → ReportIs result (report_of (setting_of c (held library.now)) (cued c steps)) }
        ensures counts { (c : Config) (x : Journey) → SwitchStandsAt self.now.switch c (held library.now) x
            → ReportIs result (report_of (setting_of c (held library.now)) x.read) }
    {
        self.switch.report(library)
    }
}
