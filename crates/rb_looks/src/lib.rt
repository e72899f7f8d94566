//! What a look shows, from the running tables of a log.
#![tactic(auto)]

mod laws;
pub mod looking;
mod reading;
mod shown_executions;
mod shown_jobs;
mod shown_nodes;
mod shown_states;
