//! That `rb_yaml` reads canonical documents as the values that `rb_canon` makes them of.
#![tactic(auto)]

pub mod laws;
