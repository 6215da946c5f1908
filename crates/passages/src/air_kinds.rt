//! The kinds of passages on air: a run with advertisements, one with cues, and one with both, each as its options say; and one of
//! several services. No fault of the network ends them.

use crate::air_heard::splice_heard_on_air;
use crate::air_running::AirPassage;
use crate::asking::{Asker, cue_on_air, play_on_air, serve_on_air};
use crate::fault::ProgramFault;
use crate::kinds::Unasked;
use crate::running::Passage;
use ad_library::AdLibrary;
use chain_engine::{Chain, Report};
use chain_services::ServiceReport;
use command_lines::inject_options::InjectOptions;
use command_lines::splice_options::SpliceOptions;
use on_air::{AirReport, AirWatch};
use psi_tables::Config;
use run_events::{Hearing, Watch};
use services_on_air::{AirServices, ServicesWatch};
use splice_plans::SwitchReport;
use std::alloc::Global;
use std::io::{Read, Write};
use std::net::{OpenListener, OpenStream};
use ts_packet::{GatheringSink, PausingPackets};

/// A run on air with the advertisements of a library, as the options say.
#[derive(Drop)]
pub struct SplicingOnAir<'a, A, V> {
    pub options: &'a SpliceOptions<'a>,
    pub library: &'a AdLibrary,
    /// Who is told of the run while it goes on.
    pub watch: &'a mut A,
    /// Who hears of it.
    pub told: V,
}

impl<A: AirWatch, V: Watch + Drop> Passage<Unasked> for SplicingOnAir<'_, A, V> {
    ghost use Rattle.ad_library.specs.Library.{held};
    ghost use Rattle.passages.specs.AirRuns.{AirSplices, IsOfDevicesOrMemory};

    type Report = AirReport<SwitchReport>;

    ghost passes = { λ p before now. AirSplices p.options.now.config (held p.library.now) };

    ghost stops = { λ p before now fault input is_out fails unsent. IsOfDevicesOrMemory fault };

    ghost stops_so = { λ p before now fault input a a' b b' c c' one two three h. h };

    fn pass<P: PausingPackets, K: GatheringSink>(
        self,
        _asker: &mut Unasked,
        network: &mut P,
        out: &mut K,
    ) -> Result<AirReport<SwitchReport>, ProgramFault> {
        let SplicingOnAir {
            options,
            library,
            watch,
            told,
        } = self;
        match splice_heard_on_air(options.config, network, library, out, watch, told) {
            Ok(report) => Ok(report),
            Err(fault) => Err(ProgramFault::Run(fault)),
        }
    }
}

impl<A: AirWatch, V: Watch + Drop> AirPassage<Unasked> for SplicingOnAir<'_, A, V> {
    ghost by_devices = { λ p before now fault input h. h };
}

/// A run on air with cues, as the options say.
#[derive(Drop)]
pub struct CueingOnAir<'a, A, V> {
    pub alloc: Global,
    pub options: &'a InjectOptions<'a>,
    /// Who is told of the run while it goes on.
    pub watch: &'a mut A,
    /// Who hears of it.
    pub hearing: &'a mut Hearing<V>,
}

impl<W, L, A, V> Passage<Asker<W, L>> for CueingOnAir<'_, A, V>
where
    W: Write,
    L: OpenListener,
    L::Stream: OpenStream + Read + Write + Drop,
    A: AirWatch,
    V: Watch + Copy + Drop,
{
    ghost use Rattle.passages.specs.Runs.{AskerTells};
    ghost use Rattle.passages.specs.AirRuns.{AirCues, IsOfDevicesOrMemory};

    type Report = AirReport<Report>;

    ghost passes = { λ p before now. AirCues p.options.now.config (AskerTells W.contents before now) };

    ghost stops = { λ p before now fault input is_out fails unsent. IsOfDevicesOrMemory fault };

    ghost stops_so = { λ p before now fault input a a' b b' c c' one two three h. h };

    fn pass<P: PausingPackets, K: GatheringSink>(
        self,
        asker: &mut Asker<W, L>,
        network: &mut P,
        out: &mut K,
    ) -> Result<AirReport<Report>, ProgramFault> {
        let CueingOnAir {
            alloc,
            options,
            watch,
            hearing,
        } = self;
        let Ok(chain) = Chain::new(alloc, options.config) else {
            return Err(ProgramFault::OutOfMemory);
        };
        match cue_on_air(chain, network, asker, out, watch, hearing) {
            Ok(report) => Ok(report),
            Err(fault) => Err(ProgramFault::Run(fault)),
        }
    }
}

impl<W, L, A, V> AirPassage<Asker<W, L>> for CueingOnAir<'_, A, V>
where
    W: Write,
    L: OpenListener,
    L::Stream: OpenStream + Read + Write + Drop,
    A: AirWatch,
    V: Watch + Copy + Drop,
{
    ghost by_devices = { λ p before now fault input h. h };
}

/// A run on air with cues and the advertisements of a library, as the options say.
#[derive(Drop)]
pub struct ChainingOnAir<'a, A, V> {
    pub alloc: Global,
    pub options: &'a InjectOptions<'a>,
    pub library: &'a AdLibrary,
    /// Who is told of the run while it goes on.
    pub watch: &'a mut A,
    /// Who hears of it.
    pub hearing: &'a mut Hearing<V>,
}

impl<W, L, A, V> Passage<Asker<W, L>> for ChainingOnAir<'_, A, V>
where
    W: Write,
    L: OpenListener,
    L::Stream: OpenStream + Read + Write + Drop,
    A: AirWatch,
    V: Watch + Copy + Drop,
{
    ghost use Rattle.ad_library.specs.Library.{held};
    ghost use Rattle.passages.specs.Runs.{AskerTells};
    ghost use Rattle.passages.specs.AirRuns.{AirPlays, IsOfDevicesOrMemory};

    type Report = AirReport<Report>;

    ghost passes = { λ p before now. AirPlays p.options.now.config (held p.library.now) (AskerTells W.contents before now) };

    ghost stops = { λ p before now fault input is_out fails unsent. IsOfDevicesOrMemory fault };

    ghost stops_so = { λ p before now fault input a a' b b' c c' one two three h. h };

    fn pass<P: PausingPackets, K: GatheringSink>(
        self,
        asker: &mut Asker<W, L>,
        network: &mut P,
        out: &mut K,
    ) -> Result<AirReport<Report>, ProgramFault> {
        let ChainingOnAir {
            alloc,
            options,
            library,
            watch,
            hearing,
        } = self;
        let Ok(chain) = Chain::new(alloc, options.config) else {
            return Err(ProgramFault::OutOfMemory);
        };
        match play_on_air(chain, network, asker, library, out, watch, hearing) {
            Ok(report) => Ok(report),
            Err(fault) => Err(ProgramFault::Run(fault)),
        }
    }
}

impl<W, L, A, V> AirPassage<Asker<W, L>> for ChainingOnAir<'_, A, V>
where
    W: Write,
    L: OpenListener,
    L::Stream: OpenStream + Read + Write + Drop,
    A: AirWatch,
    V: Watch + Copy + Drop,
{
    ghost by_devices = { λ p before now fault input h. h };
}

/// A run on air of several services, each with the advertisements of its library: they were given nothing yet, and there are as many libraries.
#[derive(Drop)]
pub struct ServingOnAir<'a, A, V> {
    /// What each service is.
    pub configs: &'a [Config],
    /// What runs them.
    pub services: AirServices,
    pub libraries: &'a [AdLibrary],
    /// Who is told of the run while it goes on.
    pub watch: &'a mut A,
    /// Who hears of it.
    pub hearing: &'a mut Hearing<V>,
}

impl<W, L, A, V> Passage<Asker<W, L>> for ServingOnAir<'_, A, V>
where
    W: Write,
    L: OpenListener,
    L::Stream: OpenStream + Read + Write + Drop,
    A: ServicesWatch,
    V: Watch + Copy + Drop,
{
    ghost use Rattle.std.specs.Prelude.{◌≡◌, [], length};
    ghost use Rattle.chain_services.specs.Runs.{terms_by};
    ghost use Rattle.services_on_air.specs.Standing.{AirServicesStandFor};
    ghost use Rattle.services_on_air.specs.Serving.{AirServicesBegin};
    ghost use Rattle.passages.specs.Runs.{AskerTells};
    ghost use Rattle.passages.specs.AirRuns.{AirServes, IsOfDevicesOrMemory};

    type Report = AirReport<ServiceReport>;

    ghost is_ready = { λ p. AirServicesStandFor p.services p.configs.now [] × AirServicesBegin p.services p.configs.now
        × (length p.libraries.now ≡ length p.configs.now) };

    ghost passes = { λ p before now. AirServes (terms_by p.configs.now p.libraries.now) (AskerTells W.contents before now) };

    ghost stops = { λ p before now fault input is_out fails unsent. IsOfDevicesOrMemory fault };

    ghost stops_so = { λ p before now fault input a a' b b' c c' one two three h. h };

    fn pass<P: PausingPackets, K: GatheringSink>(
        self,
        asker: &mut Asker<W, L>,
        network: &mut P,
        out: &mut K,
    ) -> Result<AirReport<ServiceReport>, ProgramFault> {
        let ServingOnAir {
            configs: _,
            services,
            libraries,
            watch,
            hearing,
        } = self;
        match serve_on_air(services, network, asker, libraries, out, watch, hearing) {
            Ok(report) => Ok(report),
            Err(fault) => Err(ProgramFault::Run(fault)),
        }
    }
}

impl<W, L, A, V> AirPassage<Asker<W, L>> for ServingOnAir<'_, A, V>
where
    W: Write,
    L: OpenListener,
    L::Stream: OpenStream + Read + Write + Drop,
    A: ServicesWatch,
    V: Watch + Copy + Drop,
{
    ghost by_devices = { λ p before now fault input h. h };
}
