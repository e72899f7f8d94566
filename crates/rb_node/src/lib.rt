//! Nodes, and the filters that select them.
#![tactic(auto)]

mod clause;
mod columns;
mod compiling;
mod drafting;
mod filter;
mod filter_err;
pub mod laws;
mod node;
mod selecting;
mod tags;

pub use filter::Filter;
pub use filter_err::FilterErr;
pub use node::{Node, is_own_name};
pub use tags::{once, tags_in};
