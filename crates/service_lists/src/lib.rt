//! A list of services: its lines are read, and of each the advertisements are loaded, each list into a library of its own.
//! It stands on the services of `chain_services`, on `ad_lists` for their advertisements, and on the numbers of `decimal_numbers`.
//! What a caller uses: `load_services` gives the services of a list with their libraries, or says at which line it stops, and why.
#![tactic(auto)]

mod fault;
mod line;
mod list;
mod loading;
mod services;

pub use fault::{ServicesFault, Unloaded};
pub use list::load_services;
pub use services::ServiceList;
