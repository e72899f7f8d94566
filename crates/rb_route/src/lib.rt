//! The routes of the HTTP API, and what a path asks for.
#![tactic(auto)]

mod api_router;
mod asked;
pub mod laws;
mod route;
#[cfg(test)]
mod tests;

pub use api_router::ApiRouter;
pub use asked::Asked;
pub use route::{Route, is_version, takes_method};
