//! The demo: the documents of a desk of many nodes, laws that they are read and imported,
//! and what is counted when they are played.
#![tactic(auto)]

mod asking;
mod counts;
mod documents;
mod even_nodes;
mod hearing;
pub mod laws;
mod playing;
mod rounds;
mod zero_spawner;

pub use counts::Counts;
pub use documents::{jobs_text, nodes_text, policy_text};
pub use playing::play;
