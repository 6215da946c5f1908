//! Whether an advertisement fits a break, and if not why.

ghost use Rattle.std.specs.Prelude.{◌≡◌, ◌≤◌, ◌++◌, ◌∷◌, [], List, true, false, is_some};
ghost use Rattle.ad_library.specs.Advertisements.{count_of_kind};
ghost use Rattle.ad_library.specs.Library.{held, slice_held};
ghost use Rattle.break_plans.specs.Fits.{IsFit, why_not};

use ad_library::{AdLibrary, count_of_kind};
use psi_tables::Stream;

/// Whether an advertisement fits.
#[derive(Clone, Copy, Debug, PartialEq, Eq)]
pub enum Fit {
    /// It does.
    Fits,
    /// No advertisement is listed under its number.
    Missing,
    /// It has no stream that could take the place of this one.
    NoStream(Stream),
    /// It ends more than half a second before the break does, in the stream that takes the place of this one.
    Short(Stream),
}

/// Why it does not fit a stream, behind these ones.
fn why_not(library: &AdLibrary, advert: u16, before: &[Stream], stream: Stream, length: u64) -> Fit
    ensures { result ≡ why_not (held library.now advert) before.now stream length }
{
    let k = count_of_kind(stream.kind, before);
    match library.slice(advert, stream.kind, k, length) {
        Some(_) => Fit::Short(stream),
        None => Fit::NoStream(stream),
    }
}

/// Whether the advertisement of this number fits streams for so many ticks of 90 kHz; if not, why it does not fit the first of them for
/// which it does not.
pub fn fit_of(library: &AdLibrary, advert: u16, streams: &[Stream], length: u64) -> Fit
    ensures { IsFit (held library.now advert) streams.now length result }
{
    if !library.fits(advert, &[], length) {
        return Fit::Missing;
    }
    let mut passed = 0;
    while passed < streams.len() {
        let (before, rest) = streams.split_at(passed);
        let (with_it, _) = streams.split_at(passed + 1);
        if let Some(stream) = rest.first()
            && !library.fits(advert, with_it, length)
        {
            return why_not(library, advert, before, *stream, length);
        }
        passed += 1;
    }
    Fit::Fits
}
