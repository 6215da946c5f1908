//! What may be seen of a stage while it runs: what stands of breaks in it, its library, and how its session ended.

ghost use Rattle.std.specs.Prelude.{◌≡◌};

use crate::chain::Chain;
use crate::hearing::SessionEnd;
use crate::inject::InjectorStage;
use crate::running::ChainStage;
use crate::service::Service;
use crate::splice::SwitchStage;
use ad_library::AdLibrary;
use injector::Injector;
use psi_tables::Config;
use splice_switch::Switch;
use std::alloc::Allocator;

impl Service {
    /// Its injector, behind the packets so far.
    #[inline(always)]
    pub fn injector(&self) -> &Injector
        ensures { result.now ≡ self.now.injector }
    {
        &self.injector
    }

    /// Its switch, behind the packets so far.
    #[inline(always)]
    pub fn switch(&self) -> &Switch
        ensures { result.now ≡ self.now.switch }
    {
        &self.switch
    }
}

impl<M: Allocator> Chain<M> {
    /// What it is configured for.
    pub fn config(&self) -> Config
        ensures { result ≡ self.now.service.config }
    {
        self.service.config
    }
}

impl<M: Allocator, U> ChainStage<'_, M, U> {
    /// The service of its chain.
    #[inline(always)]
    pub fn service(&self) -> &Service
        ensures { result.now ≡ self.now.chain.now.service }
    {
        &self.chain.service
    }

    /// The library that it plays.
    #[inline(always)]
    pub fn library(&self) -> &AdLibrary
        ensures { result.now ≡ self.now.library.now }
    {
        self.library
    }

    /// Why the automation is not listened to any more; `None` while its session is open.
    pub fn session_end(&self) -> Option<SessionEnd>
        ensures { result ≡ self.now.chain.now.talk.end }
    {
        self.chain.talk.end()
    }
}

impl<M: Allocator, U> InjectorStage<'_, M, U> {
    /// The service of its chain, of which the injector alone is given packets.
    #[inline(always)]
    pub fn service(&self) -> &Service
        ensures { result.now ≡ self.now.chain.now.service }
    {
        &self.chain.service
    }

    /// Why the automation is not listened to any more; `None` while its session is open.
    pub fn session_end(&self) -> Option<SessionEnd>
        ensures { result ≡ self.now.chain.now.talk.end }
    {
        self.chain.talk.end()
    }
}

impl SwitchStage<'_> {
    /// Its switch, behind the packets so far.
    #[inline(always)]
    pub fn switch(&self) -> &Switch
        ensures { result.now ≡ self.now.switch }
    {
        &self.switch
    }

    /// The library that it plays.
    #[inline(always)]
    pub fn library(&self) -> &AdLibrary
        ensures { result.now ≡ self.now.library.now }
    {
        self.library
    }

    /// What it is configured for.
    pub fn config(&self) -> Config
        ensures { result ≡ self.now.config }
    {
        self.config
    }
}
