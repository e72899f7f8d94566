//! What the promise of a server of several doors and workers means for those who rest on it.
#![tactic(auto)]

pub mod laws;
