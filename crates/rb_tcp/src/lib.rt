//! Callers over TCP.
#![tactic(auto)]

mod addresses;
mod caller;
mod callers_left;
pub mod laws;
mod listening;
mod tcp_line;
#[cfg(test)]
mod tests;

pub use addresses::tcp_lines;
pub use callers_left::CallersLeft;
pub use tcp_line::TcpLine;
