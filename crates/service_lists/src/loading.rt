//! The lines of a list of services, loaded one after the other.

ghost use Rattle.std.specs.Prelude.{◌≡◌, ◌≢◌, ◌+◌, ◌++◌, ◌∷◌, ◌⊎◌, ℕ, [], List, length, reverse, Some, IfOk, IfErr, OnOk};
ghost use Rattle.ad_lists.specs.declared.list.ListFault.{ListFault};
ghost use Rattle.ad_lists.specs.Lists.{AreDescribed};
ghost use Rattle.service_lists.specs.Lists.{IsLoaded, AreServices, AreAllDescribed, IsRead, BlamesLine, StopsAt, IsOfLine};

use crate::fault::{ServicesFault, Unloaded};
use crate::line::service_of;
use ad_library::AdLibrary;
use ad_lists::{ListFault, Loading as AdvertLoading, is_blank, load_into};
use psi_tables::Config;
use run_ends::open_input;
use std::alloc::Allocator;
use std::fs::Metadata;
use std::rt::Files;
use ts_packet::{Device, Source};

/// Loads the list of advertisements of the line of this number, and answers what the system says of each stream too.
fn load_adverts<R: Files, M: Allocator + Copy, S: Source>(
    rt: &R,
    alloc: M,
    number: usize,
    list: &mut S,
) -> Result<(AdLibrary<M>, Vec<Metadata, M>), Unloaded>
    ensures loaded { IfOk result (λ loaded. IsLoaded loaded.0) }
    ensures described { IfOk result (λ loaded. AreDescribed loaded.1.items loaded.0) }
    ensures fault { IfErr result (λ u. (u.fault ≡ ServicesFault.OutOfMemory)
        ⊎ ((f : ListFault) × (u.fault ≡ ServicesFault.Adverts f) × (f ≢ ListFault.OutOfMemory))) }
    ensures line { IfErr result (λ u. u.line ≡ Some number) }
{
    let mut adverts = AdvertLoading::new_in(alloc);
    match load_into(rt, alloc, &mut adverts, list) {
        Ok(()) => Ok(adverts.into_parts()),
        Err(ListFault::OutOfMemory) => {
            Err(Unloaded::of_line(number, ServicesFault::OutOfMemory))
        }
        Err(fault) => Err(Unloaded {
            fault: ServicesFault::Adverts(fault),
            line: Some(number),
            adverts_line: fault.is_at_line().then_some(adverts.line_number()),
            has_return: false,
            reason: adverts.into_reason(),
        }),
    }
}

/// The lines of a list, as far as they came.
#[derive(Drop)]
pub(crate) struct Loading<M: Allocator> {
    /// The services of the lines so far.
    pub(crate) configs: Vec<Config, M>,
    /// The advertisements of each.
    pub(crate) libraries: Vec<AdLibrary<M>, M>,
    /// What the system says of the list of each and of its streams.
    pub(crate) files: Vec<Metadata, M>,
    /// The line that is being read, as far as it came.
    line: Vec<u8, M>,
    /// The number of that line, from 1.
    number: usize,
}

impl<M: Allocator + Copy> Loading<M> {
    /// No line came.
    pub(crate) fn new(alloc: M) -> Loading<M>
        ensures { IsRead result [] }
    {
        Loading {
            configs: Vec::new(alloc),
            libraries: Vec::new(alloc),
            files: Vec::new(alloc),
            line: Vec::new(alloc),
            number: 1,
        }
    }

    /// Takes bytes of the list.
    pub(crate) fn take_in<R: Files>(
        &mut self,
        rt: &R,
        alloc: M,
        part: &[u8],
    ) -> Result<(), Unloaded>
        ensures ok { (text : List ℕ) → IsRead self.old text → OnOk result (IsRead self.new (text ++ part.now)) }
        ensures stops { (text : List ℕ) → IsRead self.old text
            → IfErr result (λ u. (more : List ℕ) → StopsAt u.fault u.line (text ++ (part.now ++ more))) }
        ensures refused { IfErr result (λ u. IsOfLine u.fault) }
    {
        let mut rest = part;
        while let Some((byte, behind)) = rest.split_first() {
            match self.take(rt, alloc, *byte) {
                Ok(()) => {}
                Err(unloaded) => return Err(unloaded),
            }
            rest = behind;
        }
        Ok(())
    }

    /// Takes a byte of the list: where it ends a line, that is loaded.
    fn take<R: Files>(&mut self, rt: &R, alloc: M, byte: u8) -> Result<(), Unloaded>
        ensures ok { (text : List ℕ) → IsRead self.old text → OnOk result (IsRead self.new (text ++ byte ∷ [])) }
        ensures stops { (text : List ℕ) → IsRead self.old text
            → IfErr result (λ u. (more : List ℕ) → StopsAt u.fault u.line (text ++ (byte ∷ more))) }
        ensures refused { IfErr result (λ u. IsOfLine u.fault) }
    {
        if byte != b'\n' {
            return match self.line.push(byte) {
                Ok(()) => Ok(()),
                Err(_) => Err(Unloaded::of_line(self.number, ServicesFault::OutOfMemory)),
            };
        }
        match self.load_line(rt, alloc) {
            Ok(()) => {
                self.line.clear();
                self.number = self.number.saturating_add(1);
                Ok(())
            }
            Err(unloaded) => Err(unloaded),
        }
    }

    /// Loads the line that was read, also at the end of the list, where the end of the last line may be missing.
    pub(crate) fn load_line<R: Files>(&mut self, rt: &R, alloc: M) -> Result<(), Unloaded>
        ensures ok { (before : List (List ℕ)) → AreServices (reverse self.old.configs.items)
            (reverse self.old.libraries.items) before → OnOk result (AreServices (reverse self.new.configs.items)
            (reverse self.new.libraries.items) (self.old.line.items ∷ before)) }
        ensures described { AreAllDescribed self.old.files.items self.old.libraries.items
            → OnOk result (AreAllDescribed self.new.files.items self.new.libraries.items) }
        ensures line { self.new.line ≡ self.old.line }
        ensures number { self.new.number ≡ self.old.number }
        ensures stops { IfErr result (λ u. BlamesLine u.fault self.old.line.items) }
        ensures at { IfErr result (λ u. u.line ≡ Some self.old.number) }
        ensures refused { IfErr result (λ u. IsOfLine u.fault) }
    {
        let line = self.line.as_slice();
        if is_blank(line) {
            return Ok(());
        }
        let number = self.number;
        let service = match service_of(line) {
            Ok(service) => service,
            Err(fault) => return Err(Unloaded::of_line(number, fault)),
        };
        let (file, about) = match open_input(rt, service.adverts) {
            Ok(opened) => opened,
            Err(reason) => {
                let has_return = service.adverts.ends_with('\r');
                return Err(Unloaded::unopened(number, has_return, reason));
            }
        };
        let config = service.config;
        match load_adverts(rt, alloc, number, &mut Device::new(file)) {
            Ok((library, streams)) => self.add(config, library, about, streams),
            Err(unloaded) => Err(unloaded),
        }
    }

    /// Adds a service and its advertisements to those so far, and what the system says of their list and of their streams.
    fn add(
        &mut self,
        config: Config,
        library: AdLibrary<M>,
        list: Metadata,
        streams: Vec<Metadata, M>,
    ) -> Result<(), Unloaded>
        ensures configs { OnOk result (self.new.configs.items ≡ self.old.configs.items ++ (config ∷ [])) }
        ensures libraries { OnOk result (self.new.libraries.items ≡ self.old.libraries.items ++ (library ∷ [])) }
        ensures files { OnOk result (length self.new.files.items ≡ length self.old.files.items + (1 + length streams.items)) }
        ensures line { self.new.line ≡ self.old.line }
        ensures number { self.new.number ≡ self.old.number }
        ensures fault { IfErr result (λ u. u.fault ≡ ServicesFault.OutOfMemory) }
        ensures at { IfErr result (λ u. u.line ≡ Some self.old.number) }
    {
        let mut streams = streams;
        if self.files.push(list).is_err() || self.files.append(&mut streams).is_err() {
            return Err(Unloaded::of_line(self.number, ServicesFault::OutOfMemory));
        }
        if self.configs.push(config).is_err() || self.libraries.push(library).is_err() {
            return Err(Unloaded::of_line(self.number, ServicesFault::OutOfMemory));
        }
        Ok(())
    }
}
