//! What a row changes in the running tables of a log.
#![tactic(auto)]

pub mod applying;
pub mod ending;
mod firing;
mod import_puts;
mod job_puts;
mod jobs;
mod latest_puts;
mod laws;
mod moving;
mod named;
mod noting;
pub mod opening;
mod policy_files;
mod projects;
mod retiring;
pub mod room;
mod run_puts;
mod running;
mod zones;
