//! Policies and jobs as canonical documents: one text for each, from which they are read again.
#![tactic(auto)]

mod export_err;
mod exporting;
mod fields;
mod jobs;
mod options;
mod policies;
mod rules;
mod scopes;
mod steps;
mod timing;
mod values;
mod words;
mod work;

pub use export_err::ExportErr;
pub use exporting::{export_jobs, export_policies};
