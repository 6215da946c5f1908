//! Why an advertisement does not fit a break.

ghost use Rattle.std.specs.Prelude.{◌≡◌, is_none};
ghost use Rattle.ad_library.specs.Library.{held, fits_held};

use ad_library::{AdLibrary, count_of_kind};
use psi_tables::Stream;
use ts_packet::Pid;

/// Why an advertisement does not fit: the first reason that applies.
#[derive(Clone, Copy, Debug, PartialEq, Eq)]
pub enum Misfit {
    /// The list has no advertisement of the number.
    NoAdvert,
    /// It has no stream in the place of the one on this PID, of this `stream_type`.
    NoStream(Pid, u8),
    /// The break would have to be so many ticks of 90 kHz shorter.
    Short(u64),
}

/// How many halvings find a length below 2^33.
const HALVINGS: u32 = 34;

/// The first of these streams that has no stream of its type in the advertisement.
fn missing_stream(library: &AdLibrary, id: u16, streams: &[Stream]) -> Option<Stream> {
    for place in 0..streams.len() {
        let stream = streams[place];
        let (before, _) = streams.split_at(place);
        let k = count_of_kind(stream.kind, before);
        if library.slice(id, stream.kind, k, 0).is_none() {
            return Some(stream);
        }
    }
    None
}

/// The greatest length up to this one that the advertisement fits, where it fits a length of 0. What fits a length fits each shorter one.
fn longest_fit(library: &AdLibrary, id: u16, streams: &[Stream], length: u64) -> u64 {
    let mut fits = 0;
    let mut past = length;
    for _ in 0..HALVINGS {
        if past <= fits {
            return fits;
        }
        let middle = fits.saturating_add(past.saturating_sub(fits) / 2);
        if middle == fits {
            return fits;
        }
        if library.fits(id, streams, middle) {
            fits = middle;
        } else {
            past = middle;
        }
    }
    fits
}

/// Why the advertisement of this number does not take the place of these streams for so many ticks of 90 kHz; `None` where it does.
pub fn misfit_of(library: &AdLibrary, id: u16, streams: &[Stream], length: u64) -> Option<Misfit>
    ensures fits { is_none result ≡ fits_held (held library.now id) streams.now length }
{
    if library.fits(id, streams, length) {
        return None;
    }
    if !library.fits(id, &[], 0) {
        return Some(Misfit::NoAdvert);
    }
    match missing_stream(library, id, streams) {
        Some(stream) => Some(Misfit::NoStream(stream.pid, stream.kind)),
        None => Some(Misfit::Short(length.saturating_sub(longest_fit(
            library, id, streams, length,
        )))),
    }
}
