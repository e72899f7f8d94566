//! The inventory of resource documents: their nodes in order, or the first faulty node with what is
//! wrong with it.
#![tactic(auto)]

mod attributes;
mod fault;
mod inventory;
pub mod laws;
mod listing;
mod nodes;
mod tags;

pub use fault::{NodeErr, NodeFault, NodeKind};
pub use inventory::{Inventory, read_nodes};
