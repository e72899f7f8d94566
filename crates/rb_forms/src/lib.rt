//! The top call of all forms: what a command line does, whatever holds its files, lines, programs,
//! rows and output.
#![tactic(auto)]

mod forms;
mod top;

pub use top::desk_top;
