//! Lists of breaks: what the lines of a text plan, which a person writes. It stands on `decimal_numbers` and `pes_time`.
//! The crates above use one contract of it: what `read_breaks` answers are the lines of the text as `specs/Lists.antt` reads them, or the
//! first that is none, with what was expected there.
#![tactic(auto)]

mod line;
mod list;
mod times;
mod words;

pub use line::{At, BreakLine, Expected, Order};
pub use list::{BreaksFault, NumberedLine, RefusedLine, read_breaks};
