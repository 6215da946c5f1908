//! What stands for one programme in a chain: the cues that its injector puts in are obeyed by its switch, packet by packet.

ghost use Rattle.std.specs.Prelude.{◌≡◌, ◌<◌, ℕ, ◌++◌, ◌∷◌, [], List, length, Option, Some, OnOk, IfOk, IfErr, IfSome, true, false};
ghost use Rattle.ts_packet.specs.Fields.{on_one};
ghost use Rattle.ts_packet.specs.Transfers.{WentWell};
ghost use Rattle.program_follower.specs.Program.{known_pids};
ghost use Rattle.program_follower.specs.Following.{IsUnfollowed};
ghost use Rattle.wire_fields.specs.Numbers.{AreBytes};
ghost use Rattle.psi_tables.specs.declared.config.Config.{Config};
ghost use Rattle.ad_library.specs.Advertisements.{Advertisement};
ghost use Rattle.ad_library.specs.Library.{held};
ghost use Rattle.injector.specs.Steps.{Step, Packet as PacketStep, cued, packets_in, turns_in};
ghost use Rattle.injector.specs.Injecting.{CountsAre, GoesOnAlone};
ghost use Rattle.chain_engine.specs.Stages.{InjectsFor};
ghost use Rattle.outgoing_packets.specs.Faults.{FeedBlamed};
ghost use Rattle.splice_plans.specs.Adverts.{setting_of};
ghost use Rattle.splice_plans.specs.Switching.{rest_at};
ghost use Rattle.splice_plans.specs.Reporting.{ReportIs, report_of};
ghost use Rattle.splice_switch.specs.Standing.{FinishFails};
ghost use Rattle.splice_plans.specs.Stepping.{Journey, puts_last};
ghost use Rattle.splice_switch.specs.Standing.{SwitchStandsAt};
ghost use Rattle.chain_engine.specs.Airing.{Aired, judged};
ghost use Rattle.chain_engine.specs.Chained.{ServiceAirs, PassedOnAir};
ghost use Rattle.chain_engine.specs.Runs.{OutputBlamed};
ghost use Rattle.chain_engine.specs.Passing.{ServiceStandsFor, GoesOnBy, PassFails, PassesBy, chain_at, service_unasked};

use crate::faults::RunFault;
use crate::judge::Judge;
use ad_library::AdLibrary;
use arrayvec::ArrayVec;
use injector::{Injector, MessageCounts};
use program_follower::{StartPacket, StreamPart};
use psi_tables::{Config, FeedFault};
use scte104_codec::{BadMessage, Message, Reply};
use splice_switch::{Switch, SwitchReport};
use ts_packet::{Packet, PacketSink, Pid, PutFault};

/// One programme of a network: an injector, and a switch that is fed what it sends.
#[derive(Drop)]
pub struct Service {
    pub(crate) injector: Injector,
    pub(crate) switch: Switch,
    pub(crate) config: Config,
}

/// A service judges as its injector does.
impl Judge for Service {
    ghost use Rattle.chain_engine.specs.Judging.{ServiceJudges};

    ghost judges = { λ old m reply new. ServiceJudges old m reply new };

    fn ask(&mut self, message: Result<Message<'_>, BadMessage>) -> Reply {
        self.injector.ask(message)
    }
}

impl Service {
    /// A service that was given no message and no packet.
    pub fn new(config: Config) -> Service
        ensures { (filed : ℕ → Option Advertisement) → ServiceStandsFor result config filed [] }
    {
        let given = &config;
        Service {
            injector: Injector::new(*given),
            switch: Switch::new(*given),
            config: *given,
        }
    }

    /// Begins anew for this: it was given no message and no packet, as [`Service::new`] was not, and stays where it lies.
    pub fn begin_anew(&mut self, config: Config)
        ensures { (filed : ℕ → Option Advertisement) → ServiceStandsFor self.new config filed [] }
    {
        let given = &config;
        self.injector.begin_anew(*given);
        self.switch.begin_anew(*given);
        self.config = *given;
    }

    /// What it is configured for.
    pub fn config(&self) -> Config
        ensures { result ≡ self.now.config }
    {
        self.config
    }

    /// How many messages were judged.
    pub fn counts(&self) -> MessageCounts
        ensures { (c : Config) (steps : List Step) → InjectsFor c self.now steps
            → CountsAre result c.index (turns_in c.program steps) }
    {
        self.injector.counts()
    }

    /// The PIDs that are known of its program: that of its map once the PAT gave it, and behind it those of the switched streams, once the map
    /// came.
    pub fn pids(&self) -> ArrayVec<Pid, 9>
        ensures { (c : Config) (steps : List Step) → InjectsFor c self.now steps
            → result.items ≡ known_pids (Some c.program) (packets_in steps) }
    {
        self.injector.pids()
    }

    /// How many these are.
    #[inline(always)]
    pub fn pid_count(&self) -> usize
        ensures { (c : Config) (steps : List Step) → InjectsFor c self.now steps
            → result ≡ length (known_pids (Some c.program) (packets_in steps)) }
    {
        self.injector.pid_count()
    }

    /// The packet is on one of these PIDs, and not marked in error.
    #[inline(always)]
    pub fn owns(&self, packet: &Packet) -> bool
        ensures { (c : Config) (steps : List Step) → InjectsFor c self.now steps
            → result ≡ on_one (known_pids (Some c.program) (packets_in steps)) packet.now }
    {
        self.injector.owns(packet)
    }

    /// Nothing of its program is on the PID, behind its PAT: neither its map nor a switched stream, nor the PAT, nor the cues.
    pub fn overlooks_pid(&self, pid: Pid) -> bool
        ensures { (c : Config) (steps : List Step) → InjectsFor c self.now steps → result ≡ true
            → IsUnfollowed (Some c.program) (Some c.cue_pid) pid (packets_in steps) }
    {
        self.injector.overlooks_pid(pid)
    }

    /// The packet would go out alone, and change nothing: nothing of its program is on the packet's PID, behind its PAT, and no request was
    /// accepted since the last packet. One look-up tells most packets.
    #[inline(always)]
    pub fn overlooks(&self, packet: &Packet) -> bool
        ensures stands { (c : Config) (filed : ℕ → Option Advertisement) (steps : List Step)
            → ServiceStandsFor self.now c filed steps → result ≡ true → PassesBy self.now c filed packet.now steps }
        ensures injector { (c : Config) (steps : List Step) → InjectsFor c self.now steps → result ≡ true
            → InjectsFor c self.now (PacketStep packet.now ∷ steps) }
        ensures airs { (c : Config) (filed : ℕ → Option Advertisement) (steps : List Step) (fed : List Aired)
            → ServiceAirs self.now c filed steps fed → result ≡ true
            → PassedOnAir self.now c filed (judged packet.now) steps fed (λ qs. qs ≡ packet.now ∷ []) }
    {
        of_bytes(packet);
        self.injector.overlooks(packet)
    }

    /// Leaves it open what is due of the advertisements that run: the next packet asks for it anew.
    pub fn ask_anew(&mut self)
        ensures { self.new ≡ service_unasked self.old }
    {
        self.switch.ask_anew();
    }

    /// Takes the next packet of the network: the injector sends it on to the switch, with the cues that are due, and the switch puts what goes
    /// out. A packet that changes nothing is put at once.
    ///
    /// # Errors
    ///
    /// `Network` with what is wrong with the packet behind those before it: nothing of it was put then. `Sink` where the sink failed: it has
    /// a front of what the packet sends.
    #[inline(always)]
    pub fn pass<K: PacketSink>(
        &mut self,
        packet: &Packet,
        library: &AdLibrary,
        out: &mut K,
    ) -> Result<(), FeedFault>
        ensures leads { K.leads out.old out.new }
        ensures ok { (c : Config) (steps : List Step) (start : Option (List ℕ)) (ps : List (List ℕ))
            → ServiceStandsFor self.old c (held library.now) steps → K.holds out.old start ps
            → OnOk result (ServiceStandsFor self.new c (held library.now) (PacketStep packet.now ∷ steps)
            × K.holds out.new start (ps ++ chain_at c (held library.now) packet.now steps)) }
        ensures airs { (c : Config) (steps : List Step) (fed : List Aired) (start : Option (List ℕ)) (ps : List (List ℕ))
            → ServiceAirs self.old c (held library.now) steps fed → K.holds out.old start ps
            → OnOk result (PassedOnAir self.new c (held library.now) (judged packet.now) steps fed
            (λ qs. K.holds out.new start (ps ++ qs))) }
        ensures err { (c : Config) (steps : List Step) (start : Option (List ℕ)) (ps : List (List ℕ))
            → ServiceStandsFor self.old c (held library.now) steps → K.holds out.old start ps
            → IfErr result (λ f. PassFails f c (held library.now) packet.now steps (K.holds out.new start ps)
            (λ put q x. K.fails out.new start (ps ++ put) q x)) }
        ensures well { OnOk result (WentWell (K.counts out.old) (K.counts out.new)) }
        ensures blamed { IfErr result (λ f. OutputBlamed (RunFault.Feed f)
            (K.counts out.old) (K.counts out.new) (K.is_full out.new)) }
        ensures config { self.new.config ≡ self.old.config }
        ensures injector { (c : Config) (steps : List Step) → InjectsFor c self.old steps
            → OnOk result (InjectsFor c self.new (PacketStep packet.now ∷ steps)) }
    {
        if self.overlooks(packet) {
            return match out.put(packet) {
                Ok(()) => Ok(()),
                Err(fault) => Err(FeedFault::Sink(fault)),
            };
        }
        self.pass_followed(packet, library, out)
    }

    /// Does what [`Service::pass`] does. It stands by itself, so that a packet of a PID that nobody follows does not pay for its room.
    ///
    /// # Errors
    ///
    /// As for [`Service::pass`].
    #[inline(never)]
    fn pass_followed<K: PacketSink>(
        &mut self,
        packet: &Packet,
        library: &AdLibrary,
        out: &mut K,
    ) -> Result<(), FeedFault>
        ensures leads { K.leads out.old out.new }
        ensures ok { (c : Config) (steps : List Step) (start : Option (List ℕ)) (ps : List (List ℕ))
            → ServiceStandsFor self.old c (held library.now) steps → K.holds out.old start ps
            → OnOk result (ServiceStandsFor self.new c (held library.now) (PacketStep packet.now ∷ steps)
            × K.holds out.new start (ps ++ chain_at c (held library.now) packet.now steps)) }
        ensures airs { (c : Config) (steps : List Step) (fed : List Aired) (start : Option (List ℕ)) (ps : List (List ℕ))
            → ServiceAirs self.old c (held library.now) steps fed → K.holds out.old start ps
            → OnOk result (PassedOnAir self.new c (held library.now) (judged packet.now) steps fed
            (λ qs. K.holds out.new start (ps ++ qs))) }
        ensures err { (c : Config) (steps : List Step) (start : Option (List ℕ)) (ps : List (List ℕ))
            → ServiceStandsFor self.old c (held library.now) steps → K.holds out.old start ps
            → IfErr result (λ f. PassFails f c (held library.now) packet.now steps (K.holds out.new start ps)
            (λ put q x. K.fails out.new start (ps ++ put) q x)) }
        ensures well { OnOk result (WentWell (K.counts out.old) (K.counts out.new)) }
        ensures blamed { IfErr result (λ f. OutputBlamed (RunFault.Feed f)
            (K.counts out.old) (K.counts out.new) (K.is_full out.new)) }
        ensures config { self.new.config ≡ self.old.config }
        ensures injector { (c : Config) (steps : List Step) → InjectsFor c self.old steps
            → OnOk result (InjectsFor c self.new (PacketStep packet.now ∷ steps)) }
    {
        if packet.unit_start() {
            return self.pass_start(packet, library, out);
        }
        self.pass_next(packet, library, out)
    }

    /// Does what [`Service::pass`] does, the same way for each packet.
    ///
    /// # Errors
    ///
    /// As for [`Service::pass`].
    #[inline(always)]
    fn pass_next<K: PacketSink>(
        &mut self,
        packet: &Packet,
        library: &AdLibrary,
        out: &mut K,
    ) -> Result<(), FeedFault>
        ensures leads { K.leads out.old out.new }
        ensures ok { (c : Config) (steps : List Step) (start : Option (List ℕ)) (ps : List (List ℕ))
            → ServiceStandsFor self.old c (held library.now) steps → K.holds out.old start ps
            → OnOk result (ServiceStandsFor self.new c (held library.now) (PacketStep packet.now ∷ steps)
            × K.holds out.new start (ps ++ chain_at c (held library.now) packet.now steps)) }
        ensures airs { (c : Config) (steps : List Step) (fed : List Aired) (start : Option (List ℕ)) (ps : List (List ℕ))
            → ServiceAirs self.old c (held library.now) steps fed → K.holds out.old start ps
            → OnOk result (PassedOnAir self.new c (held library.now) (judged packet.now) steps fed
            (λ qs. K.holds out.new start (ps ++ qs))) }
        ensures err { (c : Config) (steps : List Step) (start : Option (List ℕ)) (ps : List (List ℕ))
            → ServiceStandsFor self.old c (held library.now) steps → K.holds out.old start ps
            → IfErr result (λ f. PassFails f c (held library.now) packet.now steps (K.holds out.new start ps)
            (λ put q x. K.fails out.new start (ps ++ put) q x)) }
        ensures well { OnOk result (WentWell (K.counts out.old) (K.counts out.new)) }
        ensures blamed { IfErr result (λ f. OutputBlamed (RunFault.Feed f)
            (K.counts out.old) (K.counts out.new) (K.is_full out.new)) }
        ensures config { self.new.config ≡ self.old.config }
        ensures injector { (c : Config) (steps : List Step) → InjectsFor c self.old steps
            → OnOk result (InjectsFor c self.new (PacketStep packet.now ∷ steps)) }
    {
        match self.goes_on(packet) {
            Some(of) => self.go_on(of, packet, library, out),
            None => self.pass_on(packet, library, out),
        }
    }

    /// Does what [`Service::pass`] does, for a packet with the start bit. It stands by itself, so that the others are known to begin no unit.
    ///
    /// # Errors
    ///
    /// As for [`Service::pass`].
    #[inline(never)]
    fn pass_start<K: PacketSink>(
        &mut self,
        packet: &Packet,
        library: &AdLibrary,
        out: &mut K,
    ) -> Result<(), FeedFault>
        ensures leads { K.leads out.old out.new }
        ensures ok { (c : Config) (steps : List Step) (start : Option (List ℕ)) (ps : List (List ℕ))
            → ServiceStandsFor self.old c (held library.now) steps → K.holds out.old start ps
            → OnOk result (ServiceStandsFor self.new c (held library.now) (PacketStep packet.now ∷ steps)
            × K.holds out.new start (ps ++ chain_at c (held library.now) packet.now steps)) }
        ensures airs { (c : Config) (steps : List Step) (fed : List Aired) (start : Option (List ℕ)) (ps : List (List ℕ))
            → ServiceAirs self.old c (held library.now) steps fed → K.holds out.old start ps
            → OnOk result (PassedOnAir self.new c (held library.now) (judged packet.now) steps fed
            (λ qs. K.holds out.new start (ps ++ qs))) }
        ensures err { (c : Config) (steps : List Step) (start : Option (List ℕ)) (ps : List (List ℕ))
            → ServiceStandsFor self.old c (held library.now) steps → K.holds out.old start ps
            → IfErr result (λ f. PassFails f c (held library.now) packet.now steps (K.holds out.new start ps)
            (λ put q x. K.fails out.new start (ps ++ put) q x)) }
        ensures well { OnOk result (WentWell (K.counts out.old) (K.counts out.new)) }
        ensures blamed { IfErr result (λ f. OutputBlamed (RunFault.Feed f)
            (K.counts out.old) (K.counts out.new) (K.is_full out.new)) }
        ensures config { self.new.config ≡ self.old.config }
        ensures injector { (c : Config) (steps : List Step) → InjectsFor c self.old steps
            → OnOk result (InjectsFor c self.new (PacketStep packet.now ∷ steps)) }
    {
        self.pass_next(packet, library, out)
    }

    /// What the next packet of the network is to its switched stream, where nothing is wrong with it, no request was accepted since the last packet
    /// and no cue is due before it: it alone goes to the switch, to which it is the same. `None` where it is no such packet, where it begins a unit
    /// and a cue may be due, and once the switch takes none. It is not taken.
    #[inline(always)]
    pub fn goes_on(&self, packet: &Packet) -> Option<StreamPart>
        ensures below { IfSome result (λ of. of.stream < 8) }
        ensures live { IfSome result (λ _. self.now.switch.is_spent ≡ false) }
        ensures goes_on { IfSome result (λ of. GoesOnBy self.now of packet.now) }
        ensures told { (c : Config) (filed : ℕ → Option Advertisement) (steps : List Step) → ServiceStandsFor self.now c filed steps
            → (of : StreamPart) → of.part ≡ StartPacket.NoStart → GoesOnAlone c of packet.now steps → result ≡ Some of }
    {
        if self.switch.is_spent() {
            return None;
        }
        match self.injector.goes_on(packet) {
            Some(of) => Some(of),
            None => None,
        }
    }

    /// Takes the next packet as [`Service::pass`] does, which is this to its stream and goes on alone.
    ///
    /// # Errors
    ///
    /// `Sink` where the sink failed: it has a front of what the packet sends.
    #[inline(always)]
    pub fn go_on<K: PacketSink>(
        &mut self,
        of: StreamPart,
        packet: &Packet,
        library: &AdLibrary,
        out: &mut K,
    ) -> Result<(), FeedFault>
        requires { of.stream < 8 }
        ensures leads { K.leads out.old out.new }
        ensures ok { (c : Config) (steps : List Step) (start : Option (List ℕ)) (ps : List (List ℕ)) → GoesOnAlone c of packet.now steps
            → ServiceStandsFor self.old c (held library.now) steps → K.holds out.old start ps
            → OnOk result (ServiceStandsFor self.new c (held library.now) (PacketStep packet.now ∷ steps)
            × K.holds out.new start (ps ++ chain_at c (held library.now) packet.now steps)) }
        ensures airs { (c : Config) (steps : List Step) (fed : List Aired) (start : Option (List ℕ)) (ps : List (List ℕ))
            → GoesOnAlone c of packet.now steps → ServiceAirs self.old c (held library.now) steps fed → K.holds out.old start ps
            → OnOk result (PassedOnAir self.new c (held library.now) (judged packet.now) steps fed
            (λ qs. K.holds out.new start (ps ++ qs))) }
        ensures err { (c : Config) (steps : List Step) (start : Option (List ℕ)) (ps : List (List ℕ)) → GoesOnAlone c of packet.now steps
            → ServiceStandsFor self.old c (held library.now) steps → K.holds out.old start ps
            → IfErr result (λ f. PassFails f c (held library.now) packet.now steps (K.holds out.new start ps)
            (λ put q x. K.fails out.new start (ps ++ put) q x)) }
        ensures well { OnOk result (WentWell (K.counts out.old) (K.counts out.new)) }
        ensures blamed { IfErr result (λ f. OutputBlamed (RunFault.Feed f)
            (K.counts out.old) (K.counts out.new) (K.is_full out.new)) }
        ensures config { self.new.config ≡ self.old.config }
        ensures injector { (c : Config) (steps : List Step) → GoesOnAlone c of packet.now steps → InjectsFor c self.old steps
            → InjectsFor c self.new (PacketStep packet.now ∷ steps) }
    {
        of_bytes(packet);
        let given = &of;
        self.injector.go_on(*given, packet);
        match self.switch.go_on(*given, packet, library, out) {
            Ok(()) => Ok(()),
            Err(fault) => Err(fault),
        }
    }

    /// Takes the next packet as [`Service::pass`] does, and asks nothing first: for one that is known to be of the service, as one that it owns.
    ///
    /// # Errors
    ///
    /// As for [`Service::pass`].
    #[inline(always)]
    pub fn pass_on<K: PacketSink>(
        &mut self,
        packet: &Packet,
        library: &AdLibrary,
        out: &mut K,
    ) -> Result<(), FeedFault>
        ensures leads { K.leads out.old out.new }
        ensures ok { (c : Config) (steps : List Step) (start : Option (List ℕ)) (ps : List (List ℕ))
            → ServiceStandsFor self.old c (held library.now) steps → K.holds out.old start ps
            → OnOk result (ServiceStandsFor self.new c (held library.now) (PacketStep packet.now ∷ steps)
            × K.holds out.new start (ps ++ chain_at c (held library.now) packet.now steps)) }
        ensures airs { (c : Config) (steps : List Step) (fed : List Aired) (start : Option (List ℕ)) (ps : List (List ℕ))
            → ServiceAirs self.old c (held library.now) steps fed → K.holds out.old start ps
            → OnOk result (PassedOnAir self.new c (held library.now) (judged packet.now) steps fed
            (λ qs. K.holds out.new start (ps ++ qs))) }
        ensures err { (c : Config) (steps : List Step) (start : Option (List ℕ)) (ps : List (List ℕ))
            → ServiceStandsFor self.old c (held library.now) steps → K.holds out.old start ps
            → IfErr result (λ f. PassFails f c (held library.now) packet.now steps (K.holds out.new start ps)
            (λ put q x. K.fails out.new start (ps ++ put) q x)) }
        ensures well { OnOk result (WentWell (K.counts out.old) (K.counts out.new)) }
        ensures blamed { IfErr result (λ f. OutputBlamed (RunFault.Feed f)
            (K.counts out.old) (K.counts out.new) (K.is_full out.new)) }
        ensures config { self.new.config ≡ self.old.config }
        ensures injector { (c : Config) (steps : List Step) → InjectsFor c self.old steps
            → OnOk result (InjectsFor c self.new (PacketStep packet.now ∷ steps)) }
    {
        of_bytes(packet);
        let mut feeding = Feeding {
            switch: &mut self.switch,
            config: &self.config,
            library,
            out,
            fault: None,
        };
        let fed = self.injector.feed(packet, &mut feeding);
        let Feeding {
            switch: _,
            config: _,
            library: _,
            out: _,
            fault: kept,
        } = feeding;
        match fed {
            Ok(()) => Ok(()),
            Err(fault) => Err(kept.unwrap_or(fault)),
        }
    }

    /// Puts what is left of the advertisements that run, and reports. No packet is passed any more.
    ///
    /// # Errors
    ///
    /// `Sink` where the sink failed: it has a front of what was left. `Failed` after this call.
    pub fn finish<K: PacketSink>(
        &mut self,
        library: &AdLibrary,
        out: &mut K,
    ) -> Result<SwitchReport, FeedFault>
        ensures leads { K.leads out.old out.new }
        ensures ok { (c : Config) (steps : List Step) (start : Option (List ℕ)) (ps : List (List ℕ))
            → ServiceStandsFor self.old c (held library.now) steps → K.holds out.old start ps
            → OnOk result (K.holds out.new start (ps ++ rest_at (setting_of c (held library.now)) (cued c steps))) }
        ensures report { (c : Config) (steps : List Step) → ServiceStandsFor self.old c (held library.now) steps
            → IfOk result (λ r. ReportIs r (report_of (setting_of c (held library.now)) (cued c steps))) }
        ensures puts { (c : Config) (x : Journey) (start : Option (List ℕ)) (ps : List (List ℕ))
            → SwitchStandsAt self.old.switch c (held library.now) x → K.holds out.old start ps
            → OnOk result (K.holds out.new start (ps ++ puts_last (setting_of c (held library.now)) x)) }
        ensures counts { (c : Config) (x : Journey) → SwitchStandsAt self.old.switch c (held library.now) x
            → IfOk result (λ r. ReportIs r (report_of (setting_of c (held library.now)) x.read)) }
        ensures err { (c : Config) (steps : List Step) (start : Option (List ℕ)) (ps : List (List ℕ))
            → ServiceStandsFor self.old c (held library.now) steps → K.holds out.old start ps
            → IfErr result (λ f. FinishFails f c (held library.now) (cued c steps)
            (λ put q x. K.fails out.new start (ps ++ put) q x)) }
        ensures well { OnOk result (WentWell (K.counts out.old) (K.counts out.new)) }
        ensures blamed { IfErr result (λ f. FeedBlamed f (K.counts out.old) (K.counts out.new) (K.is_full out.new)) }
        ensures injector { self.new.injector ≡ self.old.injector }
    {
        self.switch.finish(library, out)
    }
}

/// Says that a packet is of bytes, and does nothing.
#[inline(always)]
pub fn of_bytes(packet: &Packet)
    ensures { AreBytes packet.now }
{
    let _bytes = packet.to_bytes();
}

/// A sink that feeds a switch. It keeps the fault of the switch, and answers `Failed` from then on.
struct Feeding<'a, K: PacketSink> {
    switch: &'a mut Switch,
    config: &'a Config,
    library: &'a AdLibrary,
    out: &'a mut K,
    fault: Option<FeedFault>,
}

impl<K: PacketSink> PacketSink for Feeding<'_, K> {
    ghost use Rattle.std.specs.Prelude.{◌≡◌, true};
    ghost use Rattle.std.proofs.Common.{refl, ap, ◌∙◌};
    ghost use Rattle.ad_library.specs.Library.{held};
    ghost use Rattle.chain_engine.specs.Airing.{judged};
    ghost use Rattle.chain_engine.specs.Nested.{FeedingHolds, FeedingFails, FaultKept, FaultKept-refl, FaultKept-trans};

    ghost holds = { λ g start ps. FeedingHolds K.holds judged g.switch.now g.config.now (held g.library.now) g.out.now start ps };

    ghost fails = { λ g start ps p f. FeedingFails K.fails g.fault g.config.now (held g.library.now) g.out.now start ps p f };

    ghost is_broken = { λ g. g.switch.now.is_spent };

    ghost counts = { λ g. K.counts g.out.now };

    ghost is_full = { λ g. K.is_full g.out.now };

    ghost leads = { λ g h. (h.switch.ghost_name ≡ g.switch.ghost_name) × (h.out.ghost_name ≡ g.out.ghost_name)
        × (h.library.now ≡ g.library.now) × (h.config.now ≡ g.config.now) × K.leads g.out.now h.out.now
        × (g.switch.now.is_spent ≡ true → h ≡ g)
        × FaultKept g.fault h.fault h.switch.now.is_spent (K.counts g.out.now) (K.counts h.out.now) (K.is_full h.out.now) };

    ghost leads_refl = { λ s. (refl, refl, refl, refl, K.leads_refl s.out.now, λ b. refl, FaultKept-refl _ _ _ _) };

    ghost leads_trans = { λ s t u h k. (
      k.0 ∙ h.0,
      k.1 ∙ h.1,
      k.2 ∙ h.2,
      k.3 ∙ h.3,
      K.leads_trans s.out.now t.out.now u.out.now h.4 k.4,
      λ b. k.5 (ap (λ w. w.switch.now.is_spent) (h.5 b) ∙ b) ∙ h.5 b,
      FaultKept-trans s.fault t.fault u.fault t.switch.now.is_spent u.switch.now.is_spent (K.counts s.out.now) (K.counts t.out.now)
          (K.counts u.out.now) (K.is_full t.out.now) (K.is_full u.out.now) h.6 k.6 (λ b. record {
            fault = ap (λ w. w.fault) (k.5 b);
            spent = ap (λ w. w.switch.now.is_spent) (k.5 b);
            counts = ap (λ w. K.counts w.out.now) (k.5 b);
            is_full = ap (λ w. K.is_full w.out.now) (k.5 b);
          }),
    ) };

    ghost leads_later = { λ s t h. K.leads_later s.out.now t.out.now h.4 };

    ghost leads_full = { λ s t h. K.leads_full s.out.now t.out.now h.4 };

    ghost leads_spent = { λ s t h. h.5 };

    #[inline(always)]
    fn put(&mut self, packet: &Packet) -> Result<(), PutFault> {
        match self.switch.feed_with_same(packet, self.library, self.out) {
            Ok(()) => Ok(()),
            Err(FeedFault::Failed) => Err(PutFault::Failed),
            Err(FeedFault::Network(fault)) => {
                self.fault = Some(FeedFault::Network(fault));
                Err(PutFault::Failed)
            }
            Err(FeedFault::Sink(fault)) => {
                self.fault = Some(FeedFault::Sink(fault));
                Err(PutFault::Failed)
            }
        }
    }
}
