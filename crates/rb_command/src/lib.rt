//! The command line: the forms of its words, the exit statuses, and the fault lines.
#![tactic(auto)]

mod command;
mod demo_words;
mod explain_words;
mod fetching;
mod next_words;
mod reading;
pub mod status;
mod telling;

pub use command::Command;
pub use fetching::fetch_or_tell;
pub use reading::read_words;
pub use telling::{
    tell, tell_absent, tell_key, tell_memory, tell_place, tell_rule, tell_shelf, tell_usage,
};
