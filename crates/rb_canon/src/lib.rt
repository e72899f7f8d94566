//! The layout of canonical documents: one text for each value of texts, lists and maps.
#![tactic(auto)]

mod canon_err;
mod print;
mod puts;
#[cfg(test)]
mod tests;
mod value;

pub use canon_err::CanonErr;
pub use print::print_docs;
pub use value::{Canon, Field, Key, list, map, text};
