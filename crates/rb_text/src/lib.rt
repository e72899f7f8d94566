//! Values that a text is compared with: plain texts, and patterns that match a text whole.
#![tactic(auto)]

mod building;
mod light;
mod pattern;
mod pattern_err;
mod room;
mod searching;
mod truths;
mod value;

pub use pattern::Pattern;
pub use pattern_err::PatternErr;
pub use room::Room;
pub use truths::{both_true, first_true_alone, one_true};
pub use value::Value;
