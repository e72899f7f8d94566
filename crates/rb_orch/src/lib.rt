//! The order in which the nodes of a run are served: ranks, tiers, drawn subsets and the bound.
#![tactic(auto)]

mod bounding;
mod drawing;
pub mod laws;
mod picking;
mod ranking;
mod tiering;

pub use bounding::bound;
pub use drawing::generator;
pub use picking::pick_subset;
pub use ranking::rank;
pub use tiering::tiers;
