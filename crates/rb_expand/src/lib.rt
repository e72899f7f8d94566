//! Texts in which names stand for values: the words and scripts of a step.
#![tactic(auto)]

mod expanding;
pub mod laws;
mod naming;
mod style;

pub use expanding::{script_of, word_of, words_of};
