//! An execution as a desk keeps it.
use crate::job_id::JobId;
use crate::progress::Progress;
use rb_acl::Caller;
use rb_causes::{Items, Prop, Text};
use rb_log::DroppedView;

/// A node that was withdrawn.
#[derive(Drop)]
pub struct WithdrawnNode {
    pub node: u32,
    /// The clause of the decision, or `none allows`.
    pub clause: Text,
}

/// What was accepted, and what has happened to it. What only a run needs that goes on stands in its
/// progress, and goes with it.
#[derive(Drop)]
pub struct Execution {
    pub number: u64,
    /// In seconds since 1970.
    pub at: i64,
    pub caller: Caller,
    /// How many policy files had been imported when it was accepted.
    pub policy_number: u64,
    pub project: Text,
    pub job: JobId,
    /// The names of its nodes.
    pub nodes: Items<Text>,
    pub values: Items<Prop>,
    /// The nodes that were dropped, as they are shown.
    pub dropped: Items<DroppedView>,
    pub withdrawn: Vec<WithdrawnNode>,
    pub progress: Progress,
}
