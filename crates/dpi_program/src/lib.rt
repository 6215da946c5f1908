//! The splicing chain as a program's library: the ends of each run are opened, the run is made, and the exit status answered.
//! It stands on the command lines of `command_lines` and the runs of `passages`; `dpi_chain` is `main` over `program`.
//! What a caller uses: `cut` says which bytes come out, `cut_lines` is it over lines, and `program` answers 0, 1 or 2.
#![tactic(auto)]

mod counting;
mod cutting;
pub mod ends;
mod injecting;
mod inspecting;
mod planning;
pub mod program;
mod requesting;
mod serving;
mod sharing;
mod splicing;
mod telling;

pub use ad_lists::{ListFault, load_list};
pub use automations::{Script, ScriptFault};
pub use packet_lines::{LinesFault, cut_lines};
pub use passages::fault::ProgramFault;
pub use passages::listening::{ListenFault, inject_listening, run_listening, services_listening};
pub use service_lists::{ServiceList, ServicesFault, load_services};
pub use unit_cut::{CutFault, cut};
