//! Replies as they are written, and those that tell an error.
#![tactic(auto)]

mod error_code;
mod errors;
mod response;
#[cfg(test)]
mod tests;
mod texts;

pub use error_code::ErrorCode;
pub use errors::{
    denial_reply, error_reply, full, lost, memory_wanting, no_execution, printed, store_failed,
    unreadable,
};
pub use response::{Body, Response};
pub use texts::{put_text, put_texts, text_value, texts_value};
