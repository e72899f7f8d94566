//! That documents which are exported are read again as what they were exported of.
#![tactic(auto)]

pub mod laws;
