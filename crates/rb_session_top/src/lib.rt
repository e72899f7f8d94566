//! The top call of a session.
#![tactic(auto)]

mod owned;
mod serving;
mod session;
mod tools;
mod words;

pub use owned::Owned;
pub use session::{session_top, tell_unopened};
pub use words::{Serving, SessionFiles, serving_in, session_in, store_file};
