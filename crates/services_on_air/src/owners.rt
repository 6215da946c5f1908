//! Which services take the packets of each PID, looked up at once.

ghost use Rattle.std.specs.Prelude.{◌<◌, List};
ghost use Rattle.services_on_air.specs.Airing.{Airing};
ghost use Rattle.services_on_air.specs.Standing.{AllStand};
ghost use Rattle.services_on_air.specs.Owners.{IsBeside, LeavesOutOnAir, HasOwnersOnAir};

use crate::service::AirService;
use chain_services::{Owners, with_taker};
use ts_packet::Pid;

/// Tells which of the services take the packets of this PID.
#[cold]
#[inline(never)]
pub(crate) fn tell(owners: &mut Owners, services: &[AirService], pid: Pid)
    ensures { (xs : List Airing) → AllStand services.now xs → HasOwnersOnAir owners.old xs → HasOwnersOnAir owners.new xs }
{
    owners.set(pid, takers_of(services, pid));
}

/// Which of these services take the packets of the PID: those of which something may be on it.
fn takers_of(services: &[AirService], pid: Pid) -> u8
    ensures { (xs : List Airing) → AllStand services.now xs → result < 255 → LeavesOutOnAir (IsBeside pid) result xs }
{
    match services.split_first() {
        None => 0,
        Some((service, others)) => {
            let behind = takers_of(others, pid);
            with_taker(service.overlooks_pid(pid), behind)
        }
    }
}
