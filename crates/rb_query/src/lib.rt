//! The queries of a request, and the words for statuses that they and replies write.
#![tactic(auto)]

mod queries;
mod query;
mod statuses;
#[cfg(test)]
mod tests;

pub use queries::{faulty_query, number_or, query_name, query_pairs, status_asked};
pub use query::Query;
pub use statuses::{status_named, status_text, step_text};
