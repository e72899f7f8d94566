//! The policies of documents, or the first fault of the first faulty document.
#![tactic(auto)]

mod fault;
mod flaws;
pub mod laws;
mod policies;
mod reader;
mod rules;
mod scopes;
mod telling;
mod test_kind;
mod texts;

pub use fault::{AclErr, AclFault, AclKind};
pub use reader::read_policies;
