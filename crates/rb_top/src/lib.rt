//! The top calls of the server, from the words of the command line to the status.
#![tactic(auto)]

mod access;
mod access_table;
mod broken;
mod drill;
mod job_places;
pub mod laws;
mod lines;
mod names;
mod output;
mod plan;
mod reading;
mod running;
mod script;
mod starting;
mod telling;
mod words;

pub use broken::{Broken, BrokenRule, broken_line};
pub use drill::drill_top;
pub use reading::{ScriptErr, read_script};
pub use script::{AccessLine, DrillJob, DrillLine, DrillRun, Script, ScriptFault};
