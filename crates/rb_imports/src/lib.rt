//! What is decided of imports, on the running tables of a log.
#![tactic(auto)]

pub mod callers;
mod held_jobs;
mod ids;
pub mod importing;
mod job_changes;
mod job_imports;
mod naming;
mod node_imports;
mod policy_imports;
mod readings;
mod zone_imports;
