//! What there is to say of a file that is checked, beside its fault line: each thing that is in
//! the way, with its place and the way out, and what means something else than in Rundeck.
#![tactic(auto)]

mod advice;
mod documents;
mod form;
mod hollow;
mod jobs;
mod keys;
mod lines;
mod nodes;
mod piece;
mod policies;
mod remark;
mod signs;
mod texts;
mod told;
mod walking;
mod ways;
mod whole;
mod yaml_faults;

pub use documents::{FileKind, remarks_on};

#[cfg(test)]
mod tests;
