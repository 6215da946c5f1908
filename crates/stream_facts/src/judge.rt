//! Whether the chain takes a stream.

ghost use Rattle.std.specs.Prelude.{◌≡◌, ◌∷◌, [], Option, Some, None, length};
ghost use Rattle.stream_facts.specs.Judging.{Judged, OfJudged, Meets, MeetsWrong, fed_of, wish_of, not_plain, profile_at_end, profile_of};

use crate::facts::{Damage, Profile, StreamFault, Wrong};
use crate::packet_size::PacketSize;
use program_follower::{FollowFault, ProgramFollower, Purpose};
use ts_packet::Packet;

/// Follows a program up to the first thing that is wrong.
#[derive(Drop)]
pub(crate) struct Judge {
    follower: ProgramFollower,
    damage: Damage,
    verdict: Option<StreamFault>,
}

impl Judge {
    /// A judge of the program of this number, or of the first one.
    pub(crate) fn new(program: Option<u16>) -> Judge
        ensures { Judged result (wish_of program) [] }
    {
        let purpose = Purpose {
            program,
            cue_pid: None,
            writes_cues: false,
        };
        Judge {
            follower: ProgramFollower::new(purpose),
            damage: Damage::none(),
            verdict: None,
        }
    }

    /// Takes the next packet, before which so many packets and so much that is none stand.
    pub(crate) fn feed(&mut self, packet: &Packet, before: u64, damage: Damage)
        ensures { OfJudged self.old (λ c past. before ≡ length past → Judged self.new c (fed_of packet.now damage ∷ past)) }
    {
        if self.verdict.is_some() {
            return;
        }
        self.verdict = self.fault_of(packet, before, damage);
        self.damage = damage;
    }

    /// What is wrong with the next packet, where nothing was before.
    fn fault_of(&mut self, packet: &Packet, before: u64, damage: Damage) -> Option<StreamFault>
        ensures { OfJudged self.old (λ c past. self.old.verdict ≡ None → before ≡ length past
            → Meets result self.new.follower c (fed_of packet.now damage) past) }
    {
        let wrong = self.wrong_with(packet, damage)?;
        Some(StreamFault {
            wrong,
            packet: before,
        })
    }

    /// Likewise, without its place.
    fn wrong_with(&mut self, packet: &Packet, damage: Damage) -> Option<Wrong>
        ensures { OfJudged self.old (λ c past. self.old.verdict ≡ None
            → MeetsWrong result self.new.follower c (fed_of packet.now damage) past) }
    {
        if damage.skipped != self.damage.skipped {
            return Some(Wrong::SyncLost);
        }
        if damage.mended != self.damage.mended {
            return Some(Wrong::BadAdaptation);
        }
        match self.follower.feed(packet) {
            Ok(_) => None,
            Err(FollowFault::Failed) => None,
            Err(FollowFault::Network(fault)) => Some(Wrong::Network(fault)),
        }
    }

    /// What it comes to, where so many packets stand in all, so much that is none before them and behind the last, and they have this size.
    pub(crate) fn verdict(&self, packets: u64, damage: Damage, size: PacketSize) -> Profile
        ensures { OfJudged self.now (λ c past. packets ≡ length past → result ≡ profile_of c size damage past) }
    {
        match size {
            PacketSize::Timed => not_plain(0),
            PacketSize::Coded => not_plain(1),
            PacketSize::Plain => match self.verdict {
                Some(fault) => Profile::Faulty(fault),
                None => self.at_end(packets, damage),
            },
        }
    }

    /// Likewise, where nothing was wrong up to the last packet.
    fn at_end(&self, packets: u64, damage: Damage) -> Profile
        ensures { OfJudged self.now (λ c past. self.now.verdict ≡ None → packets ≡ length past → result ≡ profile_at_end c damage past) }
    {
        let behind = damage.skipped.saturating_sub(self.damage.skipped);
        if behind >= 188 {
            Profile::Faulty(StreamFault {
                wrong: Wrong::SyncLost,
                packet: packets,
            })
        } else if behind > 0 {
            Profile::Faulty(StreamFault {
                wrong: Wrong::Truncated,
                packet: packets,
            })
        } else if self.follower.is_behind_head() {
            Profile::Taken
        } else {
            Profile::NoProgram
        }
    }
}

/// Packets that do not follow one another by 188 bytes, of which so many are where they are to be.
fn not_plain(packet: u64) -> Profile
    ensures { result ≡ not_plain packet }
{
    Profile::Faulty(StreamFault {
        wrong: Wrong::NotPlain,
        packet,
    })
}
