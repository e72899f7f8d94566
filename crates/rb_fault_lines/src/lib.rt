//! The lines by which a command tells why a document is refused.
#![tactic(auto)]

mod telling;

pub use telling::{tell_job, tell_node, tell_policy, tell_yaml};
