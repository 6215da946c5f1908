//! The pictures of a video, and the nearest of them to a time.

ghost use Rattle.std.specs.Prelude.{◌≡◌, ◌<◌, ◌≤◌, ◌&&◌, [], Option, None, Some, nat_le, nat_lt, MatchOption};
ghost use Rattle.break_choices.specs.Pictures.{takes, earlier_picture, later_picture, first_picture, last_picture};
ghost use Rattle.break_choices.specs.Pictures.{IsFirstFrom, IsLastBefore, NoPictureFrom, NoPictureBefore};

/// A picture of a video, by the begin of its unit.
#[derive(Clone, Copy, Debug, PartialEq, Eq)]
pub struct Picture {
    /// When it is shown.
    pub time: u64,
    /// How many packets stand before its first one.
    pub packet: u64,
    /// It is an entry picture: a decoder can begin at it without the pictures before it.
    pub is_entry: bool,
    /// It is one, and in the order of the stream all pictures before it are shown before it, and all behind it are not.
    pub is_clean: bool,
}

/// Which pictures are looked for.
#[derive(Clone, Copy, Debug, PartialEq, Eq)]
pub enum Wanted {
    /// All.
    Any,
    /// Entry pictures.
    Entry,
    /// Those at which a cut is clean.
    Clean,
}

impl Wanted {
    /// Whether the picture is one of these.
    pub fn takes(self, picture: &Picture) -> bool
        ensures { result ≡ takes self picture.now }
    {
        match self {
            Wanted::Any => true,
            Wanted::Entry => picture.is_entry,
            Wanted::Clean => picture.is_clean,
        }
    }
}

/// The earlier of a picture and one that was found, where the picture is looked for and not before a time.
fn earlier_picture(
    best: Option<Picture>,
    wanted: Wanted,
    at: u64,
    picture: &Picture,
) -> Option<Picture>
    ensures { result ≡ earlier_picture wanted at best picture.now }
{
    if !wanted.takes(picture) || picture.time < at {
        return best;
    }
    match best {
        Some(best) if best.time <= picture.time => Some(best),
        _ => Some(*picture),
    }
}

/// The later of a picture and one that was found, where the picture is looked for and before a time.
fn later_picture(
    best: Option<Picture>,
    wanted: Wanted,
    at: u64,
    picture: &Picture,
) -> Option<Picture>
    ensures { result ≡ later_picture wanted at best picture.now }
{
    if !wanted.takes(picture) || at <= picture.time {
        return best;
    }
    match best {
        Some(best) if picture.time <= best.time => Some(best),
        _ => Some(*picture),
    }
}

/// The first in time of these pictures that is not before a time.
pub fn first_from(pictures: &[Picture], wanted: Wanted, at: u64) -> Option<Picture>
    ensures { MatchOption result (NoPictureFrom wanted at pictures.now) (IsFirstFrom wanted at pictures.now) }
{
    first_picture(pictures, wanted, at)
}

/// The same, as it is found picture by picture.
#[tactic(auto, unfolding(crate::specs::Pictures::first_picture))]
fn first_picture(pictures: &[Picture], wanted: Wanted, at: u64) -> Option<Picture>
    ensures { result ≡ first_picture wanted at None pictures.now }
{
    let mut best = None;
    let mut rest = pictures;
    while let Some((picture, behind)) = rest.split_first() {
        best = earlier_picture(best, wanted, at, picture);
        rest = behind;
    }
    best
}

/// The last in time of these pictures that is before a time.
pub fn last_before(pictures: &[Picture], wanted: Wanted, at: u64) -> Option<Picture>
    ensures { MatchOption result (NoPictureBefore wanted at pictures.now) (IsLastBefore wanted at pictures.now) }
{
    last_picture(pictures, wanted, at)
}

/// The same, as it is found picture by picture.
#[tactic(auto, unfolding(crate::specs::Pictures::last_picture))]
fn last_picture(pictures: &[Picture], wanted: Wanted, at: u64) -> Option<Picture>
    ensures { result ≡ last_picture wanted at None pictures.now }
{
    let mut best = None;
    let mut rest = pictures;
    while let Some((picture, behind)) = rest.split_first() {
        best = later_picture(best, wanted, at, picture);
        rest = behind;
    }
    best
}
