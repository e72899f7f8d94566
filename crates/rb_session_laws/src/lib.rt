//! What the promise of a session means for those who rest on it.
#![tactic(auto)]

pub mod laws;
