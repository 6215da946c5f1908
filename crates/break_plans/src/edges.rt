//! How the edges of breaks lie.

ghost use Rattle.std.specs.Prelude.{◌≡◌, MatchOption};
ghost use Rattle.break_choices.specs.Pictures.{NoPictureFrom, NoPictureBefore};
ghost use Rattle.break_plans.specs.Edges.{IsWayBefore, IsWayBehind, is_clean_one, IsEdge};

use crate::planned::Edge;
use break_choices::{Picture, Wanted, first_from, last_before};

/// How many ticks the last picture at which a cut is clean lies before a time.
fn way_before(pictures: &[Picture], time: u64) -> Option<u64>
    ensures { MatchOption result (NoPictureBefore Wanted.Clean time pictures.now) (IsWayBefore pictures.now time) }
{
    match last_before(pictures, Wanted::Clean, time) {
        Some(picture) => Some(time - picture.time),
        None => None,
    }
}

/// How many ticks the first one that is not before a time lies behind it.
fn way_behind(pictures: &[Picture], time: u64) -> Option<u64>
    ensures { MatchOption result (NoPictureFrom Wanted.Clean time pictures.now) (IsWayBehind pictures.now time) }
{
    match first_from(pictures, Wanted::Clean, time) {
        Some(picture) => Some(picture.time - time),
        None => None,
    }
}

/// There is a picture, and a cut at it is clean.
fn is_clean_one(picture: Option<Picture>) -> bool
    ensures { result ≡ is_clean_one picture }
{
    match picture {
        Some(picture) => picture.is_clean,
        None => false,
    }
}

/// How a cut at a time lies that is made for this picture.
pub(crate) fn edge_at(pictures: &[Picture], time: u64, picture: Option<Picture>) -> Edge
    ensures { IsEdge pictures.now time picture result }
{
    if is_clean_one(picture) {
        return Edge::Clean;
    }
    Edge::Rough {
        before: way_before(pictures, time),
        behind: way_behind(pictures, time),
    }
}
