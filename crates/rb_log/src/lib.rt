//! The log of a desk: its rows, what they say, the rules by which a call adds the next one, and
//! what a desk is to those who call it. The desk itself stands in the crate above.
#![tactic(auto)]

mod answer;
mod call;
mod clerk;
pub mod laws;
mod shown;
mod task;

pub use answer::{Action, Answer, ImportedJob, Kept, Reason};
pub use call::{Call, Look};
pub use clerk::Clerk;
pub use shown::{DroppedView, JobView, NodeState, Paging, Shown, View};
pub use task::{Done, OpenLeaf, Task};
