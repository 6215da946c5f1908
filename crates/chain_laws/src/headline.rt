//! The headline on a call: a whole run of the chain, in terms of requests.

ghost use Rattle.std.specs.Prelude.{◌≡◌, ℕ, List, ◌++◌, Option, false, IfOk, IfSome};
ghost use Rattle.psi_tables.specs.declared.config.Config.{Config};
ghost use Rattle.ad_library.specs.Library.{held};
ghost use Rattle.chain_engine.specs.Chains.{ChainStandsFor};
ghost use Rattle.chain_engine.specs.Runs.{Exchanged};
ghost use Rattle.chain_laws.specs.Exactly.{RanExactly};
ghost use Rattle.chain_laws.specs.Headline.{Headline};

use ad_library::AdLibrary;
use chain_engine::{Automation, Chain, Report, RunFault, run};
use std::alloc::Allocator;
use ts_packet::{GatheringSink, PausingPackets};

/// Passes a network on as [`run`] does, and says of a run that went through what it is by its requests: each message is answered by its
/// verdict, and each switched stream of what is out is the network's with the advertisements in the played breaks. A second clause says
/// exactly which packet is out in which place.
///
/// # Errors
///
/// Those of [`run`].
pub fn run_as_requested<M: Allocator, P: PausingPackets, U: Automation, K: GatheringSink>(
    chain: Chain<M>,
    network: &mut P,
    automation: &mut U,
    library: &AdLibrary,
    out: &mut K,
) -> Result<Report, RunFault>
    requires { P.is_broken network.old ≡ false }
    ensures headline { (c : Config) (start : Option (List ℕ)) (before : List (List ℕ)) → ChainStandsFor chain c
        → K.holds out.old start before → IfOk result (λ r. IfSome (P.left network.old) (λ bs. Headline c (held library.now) bs
        (λ ps. K.holds out.new start (before ++ ps)) (Exchanged U.exchanges U.failures automation.old automation.new) r)) }
    ensures exactly { (c : Config) (start : Option (List ℕ)) (before : List (List ℕ)) → ChainStandsFor chain c
        → K.holds out.old start before → IfOk result (λ r. IfSome (P.left network.old) (λ bs. RanExactly c (held library.now) bs
        (λ ps. K.holds out.new start (before ++ ps)) (Exchanged U.exchanges U.failures automation.old automation.new) r)) }
{
    run(chain, network, automation, library, out)
}
