//! What is decided of runs, ticks, aborts and claims, on the running tables of a log.
#![tactic(auto)]

pub mod aborting;
mod ask_text;
pub mod asking;
mod beginning;
pub mod claiming;
mod finding;
mod laws;
pub mod naming;
mod refusing;
pub mod ticking;
