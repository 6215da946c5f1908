//! The headline on a call: a run on air, each of whose stretches is in terms of its own requests and packets.

ghost use Rattle.std.specs.Prelude.{◌≡◌, ℕ, List, ◌++◌, Option, Some, false, IfOk};
ghost use Rattle.psi_tables.specs.declared.config.Config.{Config};
ghost use Rattle.ad_library.specs.Library.{held};
ghost use Rattle.chain_engine.specs.Chains.{ChainStandsFor};
ghost use Rattle.chain_engine.specs.Runs.{Exchanged};
ghost use Rattle.air_laws.specs.Headline.{HeadlineOnAir};

use ad_library::AdLibrary;
use chain_engine::{Automation, Chain, Report, RunFault};
use on_air::{AirReport, AirWatch, run_on_air};
use std::alloc::Allocator;
use ts_packet::{GatheringSink, PausingPackets};

/// Passes a network on as [`run_on_air`] does, and says what a run is by its requests: what is out are the stretches' outputs, one behind another,
/// and each is its own packets spliced by the requests that were judged before them.
///
/// # Errors
///
/// Those of [`run_on_air`].
pub fn run_on_air_as_requested<
    M: Allocator,
    P: PausingPackets,
    U: Automation,
    K: GatheringSink,
    A: AirWatch,
>(
    chain: Chain<M>,
    network: &mut P,
    automation: &mut U,
    library: &AdLibrary,
    out: &mut K,
    watch: &mut A,
) -> Result<AirReport<Report>, RunFault>
    requires { P.is_broken network.old ≡ false }
    ensures headline { (c : Config) (start : Option (List ℕ)) (before : List (List ℕ)) (bs : List ℕ) → ChainStandsFor chain c
        → K.holds out.old start before → P.left network.old ≡ Some bs
        → IfOk result (λ told. HeadlineOnAir c (held library.now) bs (λ ps. K.holds out.new start (before ++ ps))
        (Exchanged U.exchanges U.failures automation.old automation.new) told.report) }
{
    run_on_air(chain, network, automation, library, out, watch)
}
