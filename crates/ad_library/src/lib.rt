//! Advertisements: streams of transport packets that are read once, and whose units are lent by how far they lie past the least time.
#![tactic(auto)]

mod ad_stream;
mod advert;
mod fault;
mod filing;
mod gathered;
mod gathering;
pub mod laws;
mod library;
mod line;
mod reading;
mod slice;
mod store;
mod unit;

pub use advert::count_of_kind;
pub use fault::AdFault;
pub use library::AdLibrary;
pub use slice::Slice;
pub use unit::AdUnit;
