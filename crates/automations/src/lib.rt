//! Automations of a run: a script, whose bytes stand in a text, and a client of a port of this machine.
//! It stands on the `Automation` of `chain_engine` and the digits of `hex_digits`.
//! What a caller uses: a script that is loaded or why it is not and in which line, whether a reply was lost, and the clauses of `Automation` for both.
#![tactic(auto)]

mod calls;
mod clients;
mod connection;
mod letter;
mod line_fault;
mod script;
mod script_text;
mod sessions;

pub use clients::Clients;
pub use connection::{Connection, accept, listen};
pub use line_fault::ScriptLineFault;
pub use script::{LateLines, Script, ScriptFault, load_into};
pub use script_text::{Line, Reading};
pub use sessions::Sessions;
