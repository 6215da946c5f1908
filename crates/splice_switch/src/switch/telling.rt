//! What is told of a switch: of its program, of the events and of the next packet.

ghost use Rattle.std.specs.Prelude.{◌≡◌, ◌<◌, ◌≤◌, ℕ, List, length, Option, Some, IfSome, true};
ghost use Rattle.std.specs.Option.{is_some};
ghost use Rattle.program_follower.specs.Following.{streams_of_program};
ghost use Rattle.program_follower.specs.Program.{known_pids, program_of, pids_of, behind_head};
ghost use Rattle.program_follower.specs.Streaming.{place_in, start_in};
ghost use Rattle.program_follower.specs.Faults.{network_fault};
ghost use Rattle.program_follower.specs.Purposes.{reading_cues};
ghost use Rattle.program_follower.specs.declared.purpose.Purpose.{Purpose as FollowedFor};
ghost use Rattle.event_table.specs.Events.{open_count_of};
ghost use Rattle.event_table.specs.Tables.{high_time_of, events_of};
ghost use Rattle.ad_library.specs.Advertisements.{Advertisement};
ghost use Rattle.ad_library.specs.Library.{held};
ghost use Rattle.splice_plans.specs.Adverts.{setting_of};
ghost use Rattle.splice_plans.specs.Reporting.{ReportIs, report_of};
ghost use Rattle.splice_plans.specs.Stepping.{Journey};
ghost use Rattle.splice_playing.specs.Going.{plans_in};
ghost use Rattle.splice_playing.specs.Relations.{settled_of};
ghost use Rattle.splice_playing.specs.Resting.{all_wait};
ghost use Rattle.splice_switch.specs.Standing.{SwitchStandsAt, SwitchStandsFor, SwitchFollows};

use super::Switch;
use ad_library::AdLibrary;
use arrayvec::ArrayVec;
use event_table::Entry;
use program_follower::UnitStart;
use psi_tables::{Config, NetworkFault, Stream};
use splice_plans::{Plan, SwitchReport};
use ts_packet::{Packet, Pid};

impl Switch {
    /// What is wrong with the next packet of the network, behind those before it. It is not taken, and nothing changes.
    #[inline(always)]
    pub fn look(&self, packet: &Packet) -> Option<NetworkFault>
        ensures stands { (c : Config) (filed : ℕ → Option Advertisement) (past : List (List ℕ)) → SwitchStandsFor self.now c filed past →
            result ≡ network_fault (reading_cues c) packet.now past }
        ensures follows { (c : FollowedFor) (past : List (List ℕ)) → SwitchFollows self.now c past →
            result ≡ network_fault c packet.now past }
    {
        self.follower.look(packet)
    }

    /// The PIDs that are known of its program: that of the map once the PAT gave it, and behind it those of the switched streams in the order
    /// of the map, once that came.
    pub fn pids(&self) -> ArrayVec<Pid, 9>
        ensures stands { (c : Config) (filed : ℕ → Option Advertisement) (past : List (List ℕ)) → SwitchStandsFor self.now c filed past →
            result.items ≡ known_pids (Some c.program) past }
        ensures follows { (c : FollowedFor) (past : List (List ℕ)) → SwitchFollows self.now c past →
            result.items ≡ known_pids c.program past }
    {
        self.follower.pids()
    }

    /// The number of the switched stream that the packet is of, behind the head, counted from 0 in the order of the map; `None` where it is of
    /// none.
    pub fn stream_of(&self, packet: &Packet) -> Option<usize>
        ensures below { IfSome result (λ place. place < 8) }
        ensures place { (c : Config) (filed : ℕ → Option Advertisement) (past : List (List ℕ)) → SwitchStandsFor self.now c filed past →
            result ≡ place_in (pids_of (program_of (Some c.program) past)) packet.now }
        ensures follows { (c : FollowedFor) (past : List (List ℕ)) → SwitchFollows self.now c past →
            result ≡ place_in (pids_of (program_of c.program past)) packet.now }
    {
        self.follower.stream_of(packet)
    }

    /// The unit that the next packet of the network, which is of the switched stream of this number, would begin there, scrambled or not;
    /// `None` where it begins none. It is not taken.
    pub fn start_at(&self, stream: usize, packet: &Packet) -> Option<UnitStart>
        requires { stream < 8 }
        ensures stands { (c : Config) (filed : ℕ → Option Advertisement) (past : List (List ℕ)) → SwitchStandsFor self.now c filed past →
            Some stream ≡ place_in (pids_of (program_of (Some c.program) past)) packet.now →
            result ≡ start_in (pids_of (program_of (Some c.program) past)) packet.now (behind_head (Some c.program) past) }
        ensures follows { (c : FollowedFor) (past : List (List ℕ)) → SwitchFollows self.now c past →
            Some stream ≡ place_in (pids_of (program_of c.program past)) packet.now →
            result ≡ start_in (pids_of (program_of c.program past)) packet.now (behind_head c.program past) }
    {
        self.follower.start_at(stream, packet)
    }

    /// How many events are not cancelled, and have an end that lies past the greatest time. There is none before the first time.
    pub fn open_count(&self) -> usize
        ensures { result ≡ open_count_of (high_time_of self.now.playing.events.obeyed.table)
            (events_of self.now.playing.events.obeyed.table) }
    {
        self.playing.open_count()
    }

    /// The events that stand, in order of arming, each with its plan.
    pub fn standing(&self) -> &[Entry<Plan>]
        ensures entries { result.now ≡ self.now.playing.events.obeyed.table.entries.items }
        ensures most { length result.now ≤ 32 }
    {
        self.playing.standing()
    }

    /// What became of the events that are forgotten, and how many cues were ignored.
    pub fn settled(&self) -> SwitchReport
        ensures { (c : Config) (filed : ℕ → Option Advertisement) (past : List (List ℕ)) → SwitchStandsFor self.now c filed past →
            ReportIs result (settled_of (setting_of c filed) past) }
    {
        self.playing.settled()
    }

    /// How often a cue came, an event came further in a stream or was crossed, or events were forgotten: where it is as it was, and below the
    /// greatest u64, at which it stops, so are the events that stand, how far each has come, and what became of those that are forgotten.
    #[inline(always)]
    pub fn turns(&self) -> u64
        ensures { result ≡ self.now.playing.turns }
    {
        self.playing.turns()
    }

    /// It is known that all events that stand wait in all streams, or that none stands.
    #[inline(always)]
    pub fn rests(&self) -> bool
        ensures value { result ≡ is_some self.now.playing.rest }
        ensures waits { result ≡ true → all_wait (plans_in self.now.playing) ≡ true }
    {
        self.playing.rests()
    }

    /// The switched streams, in the order of the map; none before the head is whole.
    pub fn streams(&self) -> &[Stream]
        ensures { (c : FollowedFor) (past : List (List ℕ)) → SwitchFollows self.now c past →
            result.now ≡ streams_of_program (program_of c.program past) }
    {
        self.follower.streams()
    }

    /// What has become of the events so far, and of those that stand, as it will stand in the report.
    pub fn report(&self, library: &AdLibrary) -> SwitchReport
        ensures stands { (c : Config) (past : List (List ℕ)) → SwitchStandsFor self.now c (held library.now) past →
            ReportIs result (report_of (setting_of c (held library.now)) past) }
        ensures counts { (c : Config) (x : Journey) → SwitchStandsAt self.now c (held library.now) x →
            ReportIs result (report_of (setting_of c (held library.now)) x.read) }
    {
        self.playing.report(self.follower.streams(), library)
    }
}
