//! What a verdict leaves out: nothing. And which of several references it tells: the first.
#![tactic(auto)]

pub mod laws;
