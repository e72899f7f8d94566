//! The body of a request for a run: what JSON says of options, arguments and a filter.
#![tactic(auto)]

mod bodies;
mod members;
mod parts;
#[cfg(test)]
mod tests;

pub use bodies::run_body;
pub use parts::{BodyErr, RunBody};
