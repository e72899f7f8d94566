//! The plan of a run, the marks that it leaves, and the rules by which they go on from one another.
//!
//! The types are here, and the rules stand in the definitions; what keeps to the rules is in the
//! crates above.
#![tactic(auto)]

mod copying;
pub mod laws;
mod mark;
mod plan;
mod soundness;
mod units;

pub use mark::{Leaf, Mark, Status, StepResult};
pub use plan::{Act, Plan, Seq, Step, Strategy};
pub use units::WorkUnit;
