//! The kinds of passages: a cut, a run with advertisements, one with cues, and one with both, each as its options say; and one of several
//! services.

use crate::asking::{Asker, cue, play, serve, told_fault};
use crate::fault::ProgramFault;
use crate::running::Passage;
use ad_library::AdLibrary;
use chain_engine::{Chain, Report};
use chain_services::{ServiceReport, Services};
use command_lines::command::CutOptions;
use command_lines::inject_options::InjectOptions;
use command_lines::splice_options::SpliceOptions;
use packet_lines::LinesFault;
use psi_tables::Config;
use run_events::{Hearing, Watch, splice_told};
use splice_plans::SwitchReport;
use std::alloc::Global;
use std::io::{Read, Write};
use std::net::{OpenListener, OpenStream};
use ts_packet::{GatheringSink, PausingPackets};
use unit_cut::cut;

/// Nobody asks for what a passage does.
#[derive(Clone, Copy, Debug, Drop)]
pub struct Unasked;

/// A cut, as the options say.
#[derive(Drop)]
pub struct Cutting<'a> {
    pub options: &'a CutOptions<'a>,
}

impl Passage<Unasked> for Cutting<'_> {
    ghost use Rattle.passages.specs.Runs.{Cuts};
    ghost use Rattle.passages.specs.Stops.{CutStops};
    ghost use Rattle.passages.specs.StopLaws.{cut-stops-so};

    type Report = ();

    ghost passes = { λ p before now. Cuts p.options.now.pid p.options.now.from p.options.now.length };

    ghost stops = { λ p before now. CutStops p.options.now.pid p.options.now.from p.options.now.length };

    ghost stops_so = { λ p before now fault input a a' b b' c c' one two three h. cut-stops-so a a' b b' c c' one two three
        p.options.now.pid p.options.now.from p.options.now.length fault input h };

    #[inline(always)]
    fn pass<P: PausingPackets, K: GatheringSink>(
        self,
        _asker: &mut Unasked,
        network: &mut P,
        out: &mut K,
    ) -> Result<(), ProgramFault> {
        let (pid, from) = (self.options.pid, self.options.from);
        let length = self.options.length;
        match cut(network, out, pid, from, length) {
            Ok(()) => Ok(()),
            Err(fault) => Err(ProgramFault::Lines(LinesFault::Cut(fault))),
        }
    }
}

/// A run with the advertisements of a library, as the options say.
#[derive(Drop)]
pub struct Splicing<'a, V> {
    pub options: &'a SpliceOptions<'a>,
    pub library: &'a AdLibrary,
    /// Who hears of the run.
    pub watch: V,
}

impl<V: Watch + Drop> Passage<Unasked> for Splicing<'_, V> {
    ghost use Rattle.ad_library.specs.Library.{held};
    ghost use Rattle.passages.specs.Runs.{Splices};
    ghost use Rattle.passages.specs.Stops.{SplicingStops};
    ghost use Rattle.passages.specs.StopLaws.{splicing-stops-so};

    type Report = SwitchReport;

    ghost passes = { λ p before now. Splices p.options.now.config (held p.library.now) };

    ghost stops = { λ p before now. SplicingStops p.options.now.config (held p.library.now) };

    ghost stops_so = { λ p before now fault input a a' b b' c c' one two three h. splicing-stops-so a a' b b' c c' one two three
        p.options.now.config (held p.library.now) fault input h };

    #[inline(always)]
    fn pass<P: PausingPackets, K: GatheringSink>(
        self,
        _asker: &mut Unasked,
        network: &mut P,
        out: &mut K,
    ) -> Result<SwitchReport, ProgramFault> {
        let Splicing {
            options,
            library,
            watch,
        } = self;
        match splice_told(options.config, network, library, out, watch) {
            Ok(report) => Ok(report),
            Err(fault) => Err(ProgramFault::Run(fault)),
        }
    }
}

/// A run with cues, as the options say.
#[derive(Drop)]
pub struct Cueing<'a, V> {
    pub alloc: Global,
    pub options: &'a InjectOptions<'a>,
    /// Who hears of the run.
    pub hearing: &'a mut Hearing<V>,
}

impl<W, L, V> Passage<Asker<W, L>> for Cueing<'_, V>
where
    W: Write,
    L: OpenListener,
    L::Stream: OpenStream + Read + Write + Drop,
    V: Watch + Copy + Drop,
{
    ghost use Rattle.passages.specs.Runs.{Cues, CuesStop, AskerTells};
    ghost use Rattle.passages.specs.Stops.{AskedStops};
    ghost use Rattle.passages.specs.StopLaws.{cues-stop-so};

    type Report = Report;

    ghost passes = { λ p before now. Cues p.options.now.config (AskerTells W.contents before now) };

    ghost stops = { λ p before now. AskedStops (CuesStop p.options.now.config (AskerTells W.contents before now)) };

    ghost stops_so = { λ p before now fault input a a' b b' c c' one two three h. cues-stop-so a a' b b' c c' one two three
        (AskerTells W.contents before now) p.options.now.config fault input h };

    #[inline(always)]
    fn pass<P: PausingPackets, K: GatheringSink>(
        self,
        asker: &mut Asker<W, L>,
        network: &mut P,
        out: &mut K,
    ) -> Result<Report, ProgramFault> {
        let Cueing {
            alloc,
            options,
            hearing,
        } = self;
        let Ok(chain) = Chain::new(alloc, options.config) else {
            return Err(ProgramFault::OutOfMemory);
        };
        match cue(chain, network, asker, out, hearing) {
            Ok(report) => Ok(report),
            Err(fault) => Err(told_fault(fault)),
        }
    }
}

/// A run with cues and the advertisements of a library, as the options say.
#[derive(Drop)]
pub struct Chaining<'a, V> {
    pub alloc: Global,
    pub options: &'a InjectOptions<'a>,
    pub library: &'a AdLibrary,
    /// Who hears of the run.
    pub hearing: &'a mut Hearing<V>,
}

impl<W, L, V> Passage<Asker<W, L>> for Chaining<'_, V>
where
    W: Write,
    L: OpenListener,
    L::Stream: OpenStream + Read + Write + Drop,
    V: Watch + Copy + Drop,
{
    ghost use Rattle.ad_library.specs.Library.{held};
    ghost use Rattle.passages.specs.Runs.{Plays, PlaysStop, AskerTells};
    ghost use Rattle.passages.specs.Stops.{AskedStops};
    ghost use Rattle.passages.specs.StopLaws.{plays-stop-so};

    type Report = Report;

    ghost passes = { λ p before now. Plays p.options.now.config (held p.library.now) (AskerTells W.contents before now) };

    ghost stops = { λ p before now. AskedStops (PlaysStop p.options.now.config (held p.library.now)
        (AskerTells W.contents before now)) };

    ghost stops_so = { λ p before now fault input a a' b b' c c' one two three h. plays-stop-so a a' b b' c c' one two three
        (AskerTells W.contents before now) p.options.now.config (held p.library.now) fault input h };

    #[inline(always)]
    fn pass<P: PausingPackets, K: GatheringSink>(
        self,
        asker: &mut Asker<W, L>,
        network: &mut P,
        out: &mut K,
    ) -> Result<Report, ProgramFault> {
        let Chaining {
            alloc,
            options,
            library,
            hearing,
        } = self;
        let Ok(chain) = Chain::new(alloc, options.config) else {
            return Err(ProgramFault::OutOfMemory);
        };
        match play(chain, network, asker, library, out, hearing) {
            Ok(report) => Ok(report),
            Err(fault) => Err(told_fault(fault)),
        }
    }
}

/// A run of several services, each with the advertisements of its library: they were given nothing yet, and there are as many libraries.
#[derive(Drop)]
pub struct Serving<'a, V> {
    /// What each service is.
    pub configs: &'a [Config],
    /// What runs them.
    pub services: Services,
    pub libraries: &'a [AdLibrary],
    /// Who hears of the run.
    pub hearing: &'a mut Hearing<V>,
}

impl<W, L, V> Passage<Asker<W, L>> for Serving<'_, V>
where
    W: Write,
    L: OpenListener,
    L::Stream: OpenStream + Read + Write + Drop,
    V: Watch + Copy + Drop,
{
    ghost use Rattle.std.specs.Prelude.{◌≡◌, length};
    ghost use Rattle.chain_services.specs.Runs.{ServicesStandFor, terms_by};
    ghost use Rattle.passages.specs.Runs.{Serves, ServesStop, AskerTells};
    ghost use Rattle.passages.specs.Stops.{AskedStops};
    ghost use Rattle.passages.specs.StopLaws.{serves-stop-so};

    type Report = ServiceReport;

    ghost is_ready = { λ p. ServicesStandFor p.services p.configs.now × (length p.libraries.now ≡ length p.configs.now) };

    ghost passes = { λ p before now. Serves (terms_by p.configs.now p.libraries.now) (AskerTells W.contents before now) };

    ghost stops = { λ p before now. AskedStops (ServesStop (terms_by p.configs.now p.libraries.now)
        (AskerTells W.contents before now)) };

    ghost stops_so = { λ p before now fault input a a' b b' c c' one two three h. serves-stop-so a a' b b' c c' one two three
        (AskerTells W.contents before now) (terms_by p.configs.now p.libraries.now) fault input h };

    #[inline(always)]
    fn pass<P: PausingPackets, K: GatheringSink>(
        self,
        asker: &mut Asker<W, L>,
        network: &mut P,
        out: &mut K,
    ) -> Result<ServiceReport, ProgramFault> {
        let Serving {
            configs: _,
            services,
            libraries,
            hearing,
        } = self;
        match serve(services, network, asker, libraries, out, hearing) {
            Ok(report) => Ok(report),
            Err(fault) => Err(told_fault(fault)),
        }
    }
}
