//! What a worker does: it claims tasks of a clerk, runs each once, and reports how it ended.
#![tactic(auto)]

mod hearing;
pub mod laws;
mod left;
mod pumped;
mod pumping;
mod resting;
mod working;

pub use pumped::Pumped;
pub use pumping::pump;
pub use working::work;
