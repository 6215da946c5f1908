//! A list of advertisements: its lines are read, and the stream that each names is filed in a library.
//! It stands on the library of `ad_library`, the numbers of `decimal_numbers` and the files of `run_ends`.
//! What a caller uses: `load_list` says what the library holds of a list that is loaded, and where another one stops, and why; `load_into` does
//! the same with a `Loading`, which stands in the line that is at fault then, and which keeps what the system said of each stream.
//! `is_blank` tells the lines of a list that are passed over.
#![tactic(auto)]

mod list;

pub use list::{ListFault, Loading, is_blank, load_into, load_list};
