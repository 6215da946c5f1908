//! At which pictures a cut is clean.

ghost use Rattle.std.specs.Prelude.{◌≡◌, [], None};
ghost use Rattle.break_timelines.specs.Cleaning.{cleaned_behind, lesser_of, is_up_to, clear_of, from_behind};
ghost use Rattle.break_timelines.specs.Cleaning.{is_past, greater_of, still_clear_of, from_before};

use break_choices::Picture;

/// Tells of each picture whether a cut at it is clean.
pub(crate) fn clean(pictures: &mut [Picture])
    ensures { pictures.new ≡ cleaned_behind [] pictures.old }
{
    clear_behind(pictures);
    clear_before(pictures);
}

/// The lesser of them.
pub(crate) fn lesser_of(least: Option<u64>, time: u64) -> u64
    ensures { result ≡ lesser_of least time }
{
    match least {
        None => time,
        Some(least) => least.min(time),
    }
}

/// A time is not past the least one behind it.
fn is_up_to(least: Option<u64>, time: u64) -> bool
    ensures { result ≡ is_up_to least time }
{
    match least {
        None => true,
        Some(least) => time <= least,
    }
}

/// The picture, clean where it is an entry picture and none behind it is shown before it.
fn clear_of(picture: Picture, least: Option<u64>) -> Picture
    ensures { result ≡ clear_of picture least }
{
    Picture {
        is_clean: picture.is_entry && is_up_to(least, picture.time),
        ..picture
    }
}

/// Entry pictures behind which none is shown before them are clean.
fn clear_behind(pictures: &mut [Picture])
    ensures { pictures.new ≡ from_behind pictures.old }
{
    let mut least = None;
    let mut place = pictures.len();
    while place > 0 {
        place -= 1;
        let picture = pictures[place];
        pictures[place] = clear_of(picture, least);
        least = Some(lesser_of(least, picture.time));
    }
}

/// A time is past the greatest one so far.
fn is_past(most: Option<u64>, time: u64) -> bool
    ensures { result ≡ is_past most time }
{
    match most {
        None => true,
        Some(most) => most < time,
    }
}

/// The greater of them.
fn greater_of(most: Option<u64>, time: u64) -> u64
    ensures { result ≡ greater_of most time }
{
    match most {
        None => time,
        Some(most) => most.max(time),
    }
}

/// The picture, still clean where all before it are shown before it.
fn still_clear_of(most: Option<u64>, picture: Picture) -> Picture
    ensures { result ≡ still_clear_of most picture }
{
    Picture {
        is_clean: picture.is_clean && is_past(most, picture.time),
        ..picture
    }
}

/// Those before which one is shown that is not before them are not.
fn clear_before(pictures: &mut [Picture])
    ensures { pictures.new ≡ from_before None pictures.old }
{
    let mut most = None;
    let mut place = 0;
    while place < pictures.len() {
        let picture = pictures[place];
        pictures[place] = still_clear_of(most, picture);
        most = Some(greater_of(most, picture.time));
        place += 1;
    }
}
