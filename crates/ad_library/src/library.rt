//! The library.

ghost use Rattle.std.specs.Prelude.{◌≡◌, ◌≤◌, ◌↔◌, ◌⊎◌, ◌+◌, ℕ, List, Option, None, Some, Err, false, OnOk, OnErr};
ghost use Rattle.std.specs.Prelude.{IfOk, IfErr, IfSome, IsSome, option_map};
ghost use Rattle.indexmap.specs.IndexMap.{index_map_len};
ghost use Rattle.ts_packet.specs.Packets.{packets_of};
ghost use Rattle.ts_packet.specs.Sources.{SourceCounts};
ghost use Rattle.ts_packet.specs.Sources.{Stalled, Exhausted};
ghost use Rattle.ad_library.specs.Advertisements.{advertisement};
ghost use Rattle.ad_library.specs.Storing.{on_line};
ghost use Rattle.ad_library.specs.Slices.{left};
ghost use Rattle.ad_library.specs.Faults.{advertisement_fault, end_fault, Says, StreamBlamed};
ghost use Rattle.ad_library.specs.Stops.{ReadToEnd, StoppedAt, IfOfStream};
ghost use Rattle.ad_library.specs.Library.{advert_seen, held, filed, fits_held, slice_held, zero_held};

use crate::advert::Advert;
use crate::fault::AdFault;
use crate::reading::read_advert;
use crate::slice::Slice;
use indexmap::IndexMap;
use psi_tables::Stream;
use std::alloc::{Allocator, Global};
use std::hash::{BuildHasherDefault, FoldHasher};
use ts_packet::{PacketSource, ReadFault};

/// How many advertisements a library holds.
const MAX_ADVERTS: usize = 64;

/// At most 64 advertisements of at most 67,108,864 bytes each, by number.
#[derive(Drop)]
pub struct AdLibrary<A: Allocator = Global> {
    alloc: A,
    adverts: IndexMap<u16, Advert<A>, BuildHasherDefault<FoldHasher>, A>,
}

impl AdLibrary {
    /// An empty library.
    pub fn new(alloc: Global) -> AdLibrary
        ensures empty { (id : ℕ) → held result id ≡ None }
        ensures size { index_map_len result.adverts ≡ 0 }
    {
        AdLibrary::new_in(alloc)
    }
}

impl<A: Allocator + Copy> AdLibrary<A> {
    /// An empty library, whose memory is this allocator's.
    pub fn new_in(alloc: A) -> AdLibrary<A>
        ensures empty { (id : ℕ) → held result id ≡ None }
        ensures size { index_map_len result.adverts ≡ 0 }
    {
        AdLibrary {
            alloc,
            adverts: IndexMap::new(alloc),
        }
    }

    /// Reads a stream to its end, and files its first program under this number.
    ///
    /// # Errors
    ///
    /// Those of [`AdFault`], in their order. Then the library is as it was, and nothing was read behind the packet that has
    /// the fault.
    pub fn add<P: PacketSource>(&mut self, id: u16, source: &mut P) -> Result<(), AdFault>
        requires { P.is_broken source.old ≡ false }
        ensures files { OnOk result ((ps : List (List ℕ)) × IfSome (P.left source.old) (λ bs. ps ≡ packets_of bs) × IsSome (advertisement ps)
            × ((other : ℕ) → held self.new other ≡ filed (held self.old) id (advertisement ps) other)) }
        ensures sound { OnOk result (IfSome (P.left source.old) (λ bs. advertisement_fault bs ≡ None)) }
        ensures size { OnOk result (index_map_len self.new.adverts ≡ index_map_len self.old.adverts + 1) }
        ensures says { IfErr result (λ f. IfSome (P.left source.old) (Says f)) }
        ensures exists { result ≡ Err AdFault.Exists ↔ IsSome (held self.old id) }
        ensures many { result ≡ Err AdFault.Many ↔ ((held self.old id ≡ None) × (64 ≤ index_map_len self.old.adverts)) }
        ensures unread { IsSome (held self.old id) ⊎ (64 ≤ index_map_len self.old.adverts) → source.new ≡ source.old }
        ensures unchanged { OnErr result ((other : ℕ) → held self.new other ≡ held self.old other) }
        ensures stays { OnErr result (index_map_len self.new.adverts ≡ index_map_len self.old.adverts) }
        ensures read { OnOk result (SourceCounts false (P.has_ended source.old) (P.has_ended source.new)
            (P.counts source.old) (P.counts source.new)) }
        ensures reading { IfErr result (λ f. StreamBlamed f (P.counts source.old) (P.counts source.new)) }
        ensures turns { result ≡ Err (AdFault.Packets ReadFault.Turns)
            → Stalled P.leads P.counts P.falls_short source.old source.new ⊎ Exhausted P.left P.given source.old }
        ensures reads { P.leads source.old source.new }
        ensures end { OnOk result ((ps : List (List ℕ)) × ReadToEnd P.leads P.left P.given P.counts P.has_ended
            P.is_broken ps source.old source.new × (end_fault ps ≡ None)) }
        ensures at { IfErr result (λ f. IfOfStream f (StoppedAt P.leads P.left P.given P.counts P.has_ended
            P.is_broken P.falls_short f source.old source.new)) }
    {
        if self.adverts.contains_key(&id) {
            return Err(AdFault::Exists);
        }
        if self.adverts.len() >= MAX_ADVERTS {
            return Err(AdFault::Many);
        }
        let advert = match read_advert(self.alloc, source) {
            Ok(advert) => advert,
            Err(fault) => return Err(fault),
        };
        match self.adverts.insert(id, advert) {
            Ok(_) => Ok(()),
            Err(_) => Err(AdFault::OutOfMemory),
        }
    }
}

impl<A: Allocator> AdLibrary<A> {
    /// Whether the advertisement of this number can take the place of these streams for so many ticks of 90 kHz: the k-th of them of each
    /// type has a k-th stream of that type in it, in which a unit begins at most 45,000 ticks before that length.
    pub fn fits(&self, id: u16, streams: &[Stream], length: u64) -> bool
        ensures { result ≡ fits_held (held self.now id) streams.now length }
    {
        match self.adverts.get(&id) {
            None => false,
            Some(advert) => advert.fits(streams, length),
        }
    }

    /// The units below this many ticks of 90 kHz of the `k`-th stream of a `stream_type`, counted from 0, in the advertisement of this
    /// number; `None` where there is no such stream.
    pub fn slice(&self, id: u16, kind: u8, k: usize, length: u64) -> Option<Slice<'_>>
        ensures units { option_map left result ≡ slice_held (held self.now id) kind k length }
        ensures zero { IfSome result (λ s. zero_held (held self.now id) ≡ Some (on_line s.zero)) }
    {
        let advert = self.adverts.get(&id)?;
        advert.slice(kind, k, length)
    }
}
