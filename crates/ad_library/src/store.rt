//! The units of one stream while they are read.

ghost use Rattle.std.specs.Prelude.{◌≡◌, ◌^◌, max, ◌∷◌, [], List, OnOk, false};
ghost use Rattle.pes_time.specs.Stamps.{is_split};
ghost use Rattle.ad_library.specs.Storing.{StoredUnit, Stores, places_of, greatest_of, longer_stored, last_time};

use std::alloc::{AllocError, Allocator};

/// Where a unit stands among the bytes of its stream's units. It ends where the next one starts, and the last one where the bytes end.
#[derive(Clone, Copy, Debug, PartialEq, Eq)]
pub struct UnitPlace {
    pub(crate) start: usize,
    pub(crate) random_access: bool,
    /// Its time in ticks of 90 kHz, 2^48 above the line.
    pub(crate) time: u64,
    /// The greatest time of the units up to it.
    pub(crate) top: u64,
}

/// The kept units of one stream, their bytes one after another in one string, which grows by doubling.
#[derive(Drop)]
pub struct UnitStore<A: Allocator> {
    pub(crate) bytes: Vec<u8, A>,
    pub(crate) places: Vec<UnitPlace, A>,
}

impl<A: Allocator + Copy> UnitStore<A> {
    /// A store of no units. It takes no memory.
    pub(crate) fn new(alloc: A) -> UnitStore<A>
        ensures { Stores result [] }
    {
        UnitStore {
            bytes: Vec::new(alloc),
            places: Vec::new(alloc),
        }
    }
}

impl<A: Allocator> UnitStore<A> {
    /// A unit begins, of this time, with these bytes.
    ///
    /// # Errors
    ///
    /// Where the allocator refused memory. What the store holds then is open.
    pub(crate) fn begin(
        &mut self,
        time: u64,
        random_access: bool,
        payload: &[u8],
    ) -> Result<(), AllocError>
        requires { is_split payload.now ≡ false }
        ensures { (us : List StoredUnit) → Stores self.old us
            → OnOk result (Stores self.new (record { time = time; payload = payload.now; random_access = random_access } ∷ us)) }
    {
        let place = UnitPlace {
            start: self.bytes.as_slice().len(),
            random_access,
            time,
            top: top_with(self.places.as_slice(), time),
        };
        self.places.push(place)?;
        match self.bytes.extend_from_slice(payload) {
            Ok(()) => Ok(()),
            Err(refused) => Err(refused),
        }
    }

    /// The time of the unit that has begun last.
    pub(crate) fn last_time(&self) -> Option<u64>
        ensures { (us : List StoredUnit) → Stores self.now us → result ≡ last_time us }
    {
        match self.places.last() {
            None => None,
            Some(place) => Some(place.time),
        }
    }

    /// The unit that has begun last goes on with these bytes. Before the first one they are left out.
    ///
    /// # Errors
    ///
    /// Where the allocator refused memory. What the store holds then is open.
    pub(crate) fn go_on(&mut self, payload: &[u8]) -> Result<(), AllocError>
        ensures { (us : List StoredUnit) → Stores self.old us
            → OnOk result (Stores self.new (longer_stored us payload.now)) }
    {
        if self.places.as_slice().is_empty() {
            return Ok(());
        }
        match self.bytes.extend_from_slice(payload) {
            Ok(()) => Ok(()),
            Err(refused) => Err(refused),
        }
    }
}

/// The greatest time of units at these places and of one more.
fn top_with(places: &[UnitPlace], time: u64) -> u64
    ensures { (us : List StoredUnit) → places.now ≡ places_of us → result ≡ max (greatest_of us) time }
{
    match places.last() {
        None => time,
        Some(place) => later(place.top, time),
    }
}

/// The greater of two times.
fn later(a: u64, b: u64) -> u64
    ensures { result ≡ max a b }
{
    if a < b { b } else { a }
}
