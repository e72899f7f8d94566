//! The HTTP API: what a request asks of the desk, and the reply to what the desk answers.
#![tactic(auto)]

mod asking;
mod callers;
mod ended;
mod executions;
mod faults;
mod joining;
pub mod laws;
mod listing;
mod refusing;
mod replying;
mod request_fault;
mod shown;
mod token;

pub use asking::asked;
pub use ended::Ended;
pub use rb_query::Query;
pub use rb_reply::{Body, ErrorCode, Response, lost, memory_wanting, store_failed, unreadable};
pub use rb_route::{ApiRouter, Asked, Route};
pub use replying::{refused, reply_to};
pub use request_fault::RequestFault;
pub use token::Token;
