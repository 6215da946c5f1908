//! A list of services from its first byte to its last.

ghost use Rattle.std.specs.Prelude.{◌≡◌, ℕ, List, [], length, IfOk, IfErr, IfSome, OnOk};
ghost use Rattle.ts_packet.specs.Transfers.{LastMovedNone};
ghost use Rattle.service_lists.specs.Lists.{IsRead, AreListed, AreReady, AreAllDescribed, StopsAt, ListBlamed, IsOfServices, of_services};

use crate::fault::{ServicesFault, Unloaded};
use crate::loading::Loading;
use crate::services::ServiceList;
use chain_services::{ServiceFault, Services};
use std::alloc::Allocator;
use std::rt::Files;
use ts_packet::{DeviceFault, Source};

/// The most reads of a list.
const READS: u64 = 1 << 32;

/// How many bytes of a list are read at a time.
const ROOM: usize = 4_096;

/// Loads a list of services, whose lines are a program's number, the PID for its cues, its `DPI_PID_index` and the path of its list of
/// advertisements, with one space behind each number; lines of white space alone are passed over. Each line is judged, and its advertisements
/// loaded, before the next one. All memory is this allocator's.
///
/// # Errors
///
/// The first fault, by its line; behind the last line `Services` where the services do not go together.
pub fn load_services<R: Files, M: Allocator + Copy, S: Source>(
    rt: &R,
    alloc: M,
    list: &mut S,
) -> Result<ServiceList<M>, Unloaded>
    ensures lists { IfOk result (λ l. (text : List ℕ) × IfSome (S.remaining list.old) (λ bs. bs ≡ text)
        × AreListed l.configs.items l.libraries.items text) }
    ensures ready { IfOk result AreReady }
    ensures described { IfOk result (λ l. AreAllDescribed l.files.items l.libraries.items) }
    ensures stops { IfErr result (λ u. IfSome (S.remaining list.old) (StopsAt u.fault u.line)) }
    ensures blamed { IfErr result (λ u. ListBlamed u.fault (S.counts list.old) (S.counts list.new)) }
    ensures ended { OnOk result (LastMovedNone (S.counts list.old) (S.counts list.new)) }
{
    let mut loading = Loading::new(alloc);
    match read_to_end(rt, alloc, &mut loading, list) {
        Ok(()) => services_of(alloc, loading),
        Err(unloaded) => Err(unloaded),
    }
}

/// What is told of a list whose services are refused so.
fn refused(fault: ServiceFault) -> ServicesFault
    ensures { result ≡ of_services fault }
{
    match fault {
        ServiceFault::OutOfMemory => ServicesFault::OutOfMemory,
        ServiceFault::NoService
        | ServiceFault::Many
        | ServiceFault::SharedIndex
        | ServiceFault::SharedProgram
        | ServiceFault::SharedCue => ServicesFault::Services(fault),
    }
}

/// The services of a list whose lines are loaded.
fn services_of<M: Allocator + Copy>(
    alloc: M,
    loading: Loading<M>,
) -> Result<ServiceList<M>, Unloaded>
    requires { length loading.libraries.items ≡ length loading.configs.items }
    ensures lists { (text : List ℕ) → AreListed loading.configs.items loading.libraries.items text
        → IfOk result (λ l. AreListed l.configs.items l.libraries.items text) }
    ensures ready { IfOk result AreReady }
    ensures described { AreAllDescribed loading.files.items loading.libraries.items
        → IfOk result (λ l. AreAllDescribed l.files.items l.libraries.items) }
    ensures stops { (text : List ℕ) → AreListed loading.configs.items loading.libraries.items text
        → IfErr result (λ u. StopsAt u.fault u.line text) }
    ensures refused { IfErr result (λ u. IsOfServices u.fault) }
{
    let Loading {
        configs,
        libraries,
        files,
        ..
    } = loading;
    match Services::new_in(alloc, configs.as_slice()) {
        Ok(services) => Ok(ServiceList {
            configs,
            services,
            libraries,
            files,
        }),
        Err(fault) => Err(Unloaded::of_list(refused(fault))),
    }
}

/// Reads a list to its end. An interrupted read is tried again.
fn read_to_end<R: Files, M: Allocator + Copy, S: Source>(
    rt: &R,
    alloc: M,
    loading: &mut Loading<M>,
    list: &mut S,
) -> Result<(), Unloaded>
    requires { IsRead loading.old [] }
    ensures lists { OnOk result ((text : List ℕ) × IfSome (S.remaining list.old) (λ bs. bs ≡ text)
        × AreListed loading.new.configs.items loading.new.libraries.items text) }
    ensures described { OnOk result (AreAllDescribed loading.new.files.items loading.new.libraries.items) }
    ensures stops { IfErr result (λ u. IfSome (S.remaining list.old) (StopsAt u.fault u.line)) }
    ensures blamed { IfErr result (λ u. ListBlamed u.fault (S.counts list.old) (S.counts list.new)) }
    ensures ended { OnOk result (LastMovedNone (S.counts list.old) (S.counts list.new)) }
{
    let mut room = [0; ROOM];
    for _turn in 0..READS {
        match list.read(&mut room) {
            Ok(0) => return loading.load_line(rt, alloc),
            Ok(count) => match loading.take_in(rt, alloc, &room[..count]) {
                Ok(()) => {}
                Err(unloaded) => return Err(unloaded),
            },
            Err(DeviceFault::Interrupted) => {}
            Err(DeviceFault::Failed) => return Err(Unloaded::of_list(ServicesFault::Io)),
        }
    }
    Err(Unloaded::of_list(ServicesFault::Turns))
}
