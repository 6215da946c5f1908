//! Plans of breaks: for each line of a list of breaks the request that does what it says. It stands on `break_lists`, for the lines, on
//! `break_choices`, for the choices, on `break_scripts`, for the requests, on `injector`, which judges them, and on `ad_library`, for the
//! advertisements, of whose first pictures `random_access` tells.
//! What a caller uses is `plan`. It is proved that each line is planned as `specs/Drafts.antt` says, by the pictures and marks that are
//! given: a break starts past the picture before and not past the picture it is to begin at; and that the requests of a plan are those
//! of its lines that were taken, in the order of their packets. That a request is taken just where the chain takes it is not stated.
#![tactic(auto)]

mod drafts;
mod edges;
mod fits;
mod judging;
mod making;
mod openings;
mod order;
mod planned;
mod requests;
mod telling;
mod times;

pub use drafts::Setting;
pub use fits::{Fit, fit_of};
pub use making::plan;
pub use openings::opens_continued;
pub use planned::{Draft, Edge, Judged, Outcome, Plan, PlannedLine, Verdict};
pub use telling::Told;
