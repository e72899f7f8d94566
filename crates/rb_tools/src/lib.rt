//! The tools that read documents and schedules, and print what they say.
#![tactic(auto)]

mod demo;
mod documents;
mod instants;
mod jobs;
mod kinds;
pub mod laws;
mod nodes;
mod policies;
mod printing;
mod refusal;
mod telling;
mod tool;

pub use nodes::is_no_map;
pub use printing::print_text;
pub use tool::tool_top;
