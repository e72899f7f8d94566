//! A door: the requests of callers, each answered by one turn of a desk at most.
#![tactic(auto)]

mod answering;
mod heeded;
pub mod laws;
mod serving;

pub use heeded::Heeded;
pub use serving::{serve_caller, serve_next, serve_request};
