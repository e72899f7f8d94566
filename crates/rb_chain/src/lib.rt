//! Chains: runs one after another, and the undos of those that went well where one does not.
#![tactic(auto)]

mod asking;
mod chain;
mod chain_err;
mod chain_next;
mod flaws;
mod following;
mod forms;
pub mod laws;
mod pairs;
mod reader;
mod run;
mod values;

pub use chain::Chain;
pub use chain_err::{ChainErr, ChainFault, ChainKind};
pub use chain_next::ChainNext;
pub use reader::read_chain;
pub use run::{ChainRun, ChainUndo};
