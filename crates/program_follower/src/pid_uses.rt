//! What the packets of each PID are to a follower, looked up at once.

ghost use Rattle.std.specs.Prelude.{◌≡◌, ◌≢◌, ◌<◌, ◌≤◌, ◌+◌, ℕ, [], List, length, nat_lt, if◌then◌else◌, slice_index_or, slice_set, true};
ghost use Rattle.ts_packet.specs.Fields.{pid_of};
ghost use Rattle.program_follower.specs.Faults.{pids_in};
ghost use Rattle.program_follower.specs.PidUses.{IsTablePid, IsUse, HasPlacesElsewhere};

use psi_tables::Stream;
use std::marker::Model;
use ts_packet::{Packet, Pid};

/// The number of the PIDs of tables and cues, above those of the places of eight streams.
const TABLE_PID: u8 = 9;

/// What the packets of a PID are to a follower of one program.
#[derive(Clone, Copy, Debug, PartialEq, Eq)]
pub(crate) enum PidUse {
    /// They may be of the PAT, of the map or of the cues.
    Table,
    /// They are of the switched stream of this number, and of no table and no cue.
    Stream(usize),
    /// They are of none of these.
    Other,
}

/// Of each PID (ISO/IEC 13818-1, 2.4.3.3) what it is: most packets are passed by one look-up.
#[derive(Drop)]
pub(crate) struct PidUses {
    /// Under each PID `TABLE_PID`, or else the number of the first switched stream on it and 1, or 0 where there is none.
    numbers: [u8; 8192],
}

impl Model for PidUses {
    ghost use Rattle.std.specs.Prelude.{◌≡◌, ℕ, List, length};

    ghost Value = { List ℕ };

    ghost view = { λ k. k.numbers };

    ghost invariant = { λ k. length k.numbers ≡ 8192 };
}

impl PidUses {
    /// The PIDs of the PAT, which is 0, and of the cues are of tables, and no other one is of interest. Where there are no cues, 0 stands for
    /// their PID.
    pub(crate) fn new(cue_pid: Pid) -> PidUses
        ensures pat { IsTablePid (slice_index_or result 0 0) }
        ensures cue { IsTablePid (slice_index_or result cue_pid 0) }
        ensures rest { (pid : ℕ) → pid < 8192 → pid ≢ 0 → pid ≢ cue_pid → slice_index_or result pid 0 ≤ 8 }
        ensures places { HasPlacesElsewhere result [] }
    {
        let mut uses = PidUses { numbers: [0; 8192] };
        uses.add_table(Pid::of_bits(0, 0));
        uses.add_table(cue_pid);
        uses
    }

    /// Begins anew, as [`PidUses::new`] does, in the same place.
    pub(crate) fn begin_anew(&mut self, cue_pid: Pid)
        ensures pat { IsTablePid (slice_index_or self.new 0 0) }
        ensures cue { IsTablePid (slice_index_or self.new cue_pid 0) }
        ensures rest { (pid : ℕ) → pid < 8192 → pid ≢ 0 → pid ≢ cue_pid → slice_index_or self.new pid 0 ≤ 8 }
        ensures places { HasPlacesElsewhere self.new [] }
    {
        self.numbers = [0; 8192];
        self.add_table(Pid::of_bits(0, 0));
        self.add_table(cue_pid);
    }

    /// Each PID is of tables from now on: each packet goes the way of those.
    pub(crate) fn watch_all(&mut self)
        ensures { (pid : ℕ) → pid < 8192 → IsTablePid (slice_index_or self.new pid 0) }
    {
        self.numbers = [TABLE_PID; 8192];
    }

    /// The PID is of tables from now on.
    pub(crate) fn add_table(&mut self, pid: Pid)
        ensures here { IsTablePid (slice_index_or self.new pid 0) }
        ensures kept { (other : ℕ) → IsTablePid (slice_index_or self.old other 0)
            → IsTablePid (slice_index_or self.new other 0) }
        ensures others { (other : ℕ) → other ≢ pid → slice_index_or self.new other 0 ≡ slice_index_or self.old other 0 }
        ensures places { (pids : List ℕ) → HasPlacesElsewhere self.old pids → HasPlacesElsewhere self.new pids }
    {
        self.numbers[pid.get() as usize] = TABLE_PID;
    }

    /// The PIDs of these streams are theirs from now on, but for those of tables. No stream has been added before. The table is filled from
    /// the last stream to the first, so that of streams on one PID the first has it.
    pub(crate) fn add_streams(&mut self, streams: &[Stream])
        requires { length streams.now ≤ 8 }
        ensures kept { (other : ℕ) → IsTablePid (slice_index_or self.old other 0)
            → IsTablePid (slice_index_or self.new other 0) }
        ensures rest { (other : ℕ) → slice_index_or self.old other 0 ≤ 8 → slice_index_or self.new other 0 ≤ 8 }
        ensures places { HasPlacesElsewhere self.old [] → HasPlacesElsewhere self.new (pids_in streams.now) }
    {
        let mut index = streams.len();
        while index > 0 {
            index -= 1;
            self.add_stream(streams[index].pid, index as u8);
        }
    }

    /// The PID is of the stream of this number from now on, if it is of no table.
    fn add_stream(&mut self, pid: Pid, place: u8)
        requires { place < 8 }
        ensures new { self.new ≡ if nat_lt 8 (slice_index_or self.old pid 0) then self.old
            else slice_set self.old pid (place + 1) }
        ensures size { length self.old ≡ 8192 }
        ensures pid { pid < 8192 }
    {
        let number = &mut self.numbers[pid.get() as usize];
        if *number < TABLE_PID {
            *number = place + 1;
        }
    }

    /// The PID is of no table, no cue and no stream.
    #[inline(always)]
    pub(crate) fn is_of_none(&self, pid: Pid) -> bool
        ensures none { result ≡ true → slice_index_or self.now pid 0 ≡ 0 }
        ensures pid { pid < 8192 }
    {
        self.numbers[pid.get() as usize] == 0
    }

    /// What the packet's PID is.
    #[inline(always)]
    pub(crate) fn use_of(&self, packet: &Packet) -> PidUse
        ensures is { IsUse result (slice_index_or self.now (pid_of packet.now) 0) }
        ensures pid { pid_of packet.now < 8192 }
    {
        let number = self.numbers[packet.pid().get() as usize];
        if number == 0 {
            return PidUse::Other;
        }
        if number < TABLE_PID {
            return PidUse::Stream(number as usize - 1);
        }
        PidUse::Table
    }
}
