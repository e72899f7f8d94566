//! The options of a job, and what becomes of the values that a run gives them.
#![tactic(auto)]

mod arguments;
mod checking;
pub mod laws;
mod option_def;
mod option_err;
mod parting;
mod settling;

pub use arguments::read_args;
pub use option_def::OptionDef;
pub use option_err::{ArgsErr, OptionErr, OptionFault, OptionKind};
pub use settling::settle;
