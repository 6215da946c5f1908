//! The names of services (EN 300 468): found in a service description section, and read as text. It stands on `table_descriptors`.
//! The crates above use one contract of it: the name is that of the service's own entry.
#![tactic(auto)]

mod services;
mod tables;
mod text;

pub use services::service_name;
pub use text::text_of;
