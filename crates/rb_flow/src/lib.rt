//! One run: which leaf of its plan may start next, and what has become of it. The rules that it
//! keeps to are the definitions of `rb_marks`.
#![tactic(auto)]

mod choosing;
mod cursor;
mod flow;
mod group_state;
mod kept;
pub mod laws;
mod leaves;
mod recount;
mod results;
mod tally;
mod unit_state;
mod working;

pub use flow::Flow;
pub use rb_marks::{Act, Leaf, Mark, Plan, Seq, Status, Step, StepResult, Strategy, WorkUnit};
