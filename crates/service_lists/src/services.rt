//! The services of a list, as they are loaded.

use ad_library::AdLibrary;
use chain_services::Services;
use psi_tables::Config;
use std::alloc::{Allocator, Global};
use std::fs::Metadata;

/// The services of a list, in its order.
#[derive(Drop)]
pub struct ServiceList<M: Allocator = Global> {
    /// What each is.
    pub configs: Vec<Config, M>,
    /// What runs them.
    pub services: Services<M>,
    /// The advertisements of each.
    pub libraries: Vec<AdLibrary<M>, M>,
    /// What the system says of each list of advertisements and of each stream that one names: a run that writes over one would destroy it.
    pub files: Vec<Metadata, M>,
}
