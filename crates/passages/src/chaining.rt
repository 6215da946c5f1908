//! A run of the chain between a reader and a writer, by its requests: the headline, on the bytes of the two ends.

ghost use Rattle.std.specs.Prelude.{◌≡◌, None, true, IfOk, IfErr, IfSome};
ghost use Rattle.ts_packet.specs.Sinks.{Written};
ghost use Rattle.ad_library.specs.Library.{held};
ghost use Rattle.chain_laws.specs.Exactly.{RanExactly};
ghost use Rattle.chain_laws.specs.Headline.{Headline};
ghost use Rattle.passages.specs.Runs.{AskerTells, PlaysStop};
ghost use Rattle.passages.specs.Stops.{AskedStops, StopsAtDevice, SaysOfRun};

use crate::asking::Asker;
use crate::kinds::Chaining;
use crate::running::{Ran, run_from};
use crate::tell::Stopped;
use ad_library::AdLibrary;
use chain_engine::Report;
use command_lines::inject_options::InjectOptions;
use run_events::{Hearing, Watch};
use std::alloc::Global;
use std::io::{Read, Write};
use std::net::{OpenListener, OpenStream};
use ts_packet::Pid;

/// Runs as [`run_from`] does with cues and the advertisements of a library, and says of a run that went through what it is by its requests:
/// where the reader tells its bytes, behind what stood in the writer are these bytes' packets with the advertisements in the played breaks,
/// and each message is answered by its verdict. A second clause says exactly which packet is out in which place.
///
/// # Errors
///
/// Those of [`run_from`].
pub fn run_chain_from<W, L, V, R, O>(
    alloc: Global,
    options: &InjectOptions<'_>,
    asker: &mut Asker<W, L>,
    library: &AdLibrary,
    hearing: &mut Hearing<V>,
    watched: Option<Pid>,
    is_live: bool,
    input: R,
    output: &mut O,
) -> Result<Ran<Report>, Stopped>
where
    W: Write,
    L: OpenListener,
    L::Stream: OpenStream + Read + Write + Drop,
    V: Watch + Copy + Drop,
    R: Read + Drop,
    O: Write,
    ensures headline { IfOk result (λ ran. IfSome (R.remaining input) (λ bs. Headline options.now.config (held library.now) bs
        (Written (O.contents output.new) (O.contents output.old)) (AskerTells W.contents asker.old asker.new) ran.report)) }
    ensures exactly { IfOk result (λ ran. IfSome (R.remaining input) (λ bs. RanExactly options.now.config (held library.now) bs
        (Written (O.contents output.new) (O.contents output.old)) (AskerTells W.contents asker.old asker.new) ran.report)) }
    ensures stopped { IfErr result (λ stopped. stopped.is_flushed ≡ true → StopsAtDevice
        (AskedStops (PlaysStop options.now.config (held library.now) (AskerTells W.contents asker.old asker.new)) stopped.fault)
        (R.remaining input) (O.contents output.old) (O.contents output.new)) }
    ensures says { IfErr result (λ stopped. SaysOfRun
        (AskedStops (PlaysStop options.now.config (held library.now) (AskerTells W.contents asker.old asker.new))) stopped.fault
        (R.remaining input)) }
    ensures unwatched { IfOk result (λ ran. watched ≡ None → ran.seen ≡ None) }
{
    let passage = Chaining {
        alloc,
        options,
        library,
        hearing,
    };
    run_from(alloc, passage, asker, watched, is_live, input, output)
}
