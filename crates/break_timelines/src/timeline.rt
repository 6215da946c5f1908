//! The timeline of a program.

ghost use Rattle.std.specs.Prelude.{◌≡◌, ℕ, List, [], Some, is_some};
ghost use Rattle.program_follower.specs.Program.{program_of};
ghost use Rattle.program_follower.specs.Following.{streams_of_program};
ghost use Rattle.break_timelines.specs.Video.{video_from};
ghost use Rattle.break_timelines.specs.Standing.{IsTimelineOf};

use crate::video::video_of;
use break_choices::{Mark, Picture};
use program_follower::StartFollower;
use psi_tables::Stream;

/// What is known of a program: its pictures, and where its greatest time rises. Times are ticks of 90 kHz on one line, on which a whole
/// number of turns of the 33-bit clock lies between 0 and the time 0 of the clock.
#[derive(Drop)]
pub struct Timeline {
    pub(crate) follower: StartFollower,
    pub(crate) first: Option<u64>,
    pub(crate) pictures: Vec<Picture>,
    pub(crate) marks: Vec<Mark>,
}

impl Timeline {
    /// The first time of the program, the earliest of the first times of its switched streams; `None` where no unit has one.
    pub fn first(&self) -> Option<u64>
        ensures { result ≡ self.now.first }
    {
        self.first
    }

    /// Whether its map lists a video whose pictures are known.
    pub fn has_video(&self) -> bool
        ensures { (program : ℕ) (past : List (List ℕ)) → IsTimelineOf self.now program past
            → result ≡ is_some (video_from 0 (streams_of_program (program_of (Some program) past))) }
    {
        video_of(self.follower.streams()).is_some()
    }

    /// The pictures of its video, in the order of the stream.
    pub fn pictures(&self) -> &[Picture]
        ensures { result.now ≡ self.now.pictures.items }
    {
        self.pictures.as_slice()
    }

    /// Where its greatest time rises.
    pub fn marks(&self) -> &[Mark]
        ensures { result.now ≡ self.now.marks.items }
    {
        self.marks.as_slice()
    }

    /// The switched streams, in the order of the map.
    pub fn streams(&self) -> &[Stream]
        ensures { (program : ℕ) (past : List (List ℕ)) → IsTimelineOf self.now program past
            → result.now ≡ streams_of_program (program_of (Some program) past) }
    {
        self.follower.streams()
    }
}
