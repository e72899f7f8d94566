use rb_causes::Items;

/// In which order the nodes and the top sequence's steps are gone through.
#[derive(Clone, Copy, Debug, PartialEq, Eq)]
pub enum Strategy {
    /// The whole sequence on one node after another.
    NodeFirst,
    /// One step after another, each on all nodes.
    Sequential,
    /// All steps at once, each on one node after another.
    Parallel,
}

/// Steps in order.
#[derive(Drop)]
#[cycle(seq)]
pub struct Seq {
    /// Whether a step that fails is followed by the next.
    pub keepgoing: bool,
    /// At least one.
    pub steps: Vec<Step>,
}

/// An act, and what is run where it fails.
#[derive(Drop)]
#[cycle(seq)]
pub struct Step {
    pub act: Act,
    /// The slot of the command that is run where the act fails.
    pub handler: Option<u32>,
    /// Whether the handler's success makes the step a good one, also where the sequence does not go
    /// on after a failure.
    pub keep_on_success: bool,
}

/// A command or a sequence of its own.
#[derive(Drop)]
#[cycle(seq)]
pub enum Act {
    Slot(u32),
    Sub(Seq),
}

/// What is run on which nodes, and how.
#[derive(Drop)]
pub struct Plan {
    pub strategy: Strategy,
    /// The tier of each node; they never fall along the list.
    pub tiers: Items<u32>,
    pub seq: Seq,
    /// How many commands and handlers there are: in depth-first order, a handler directly after its
    /// act, they are the slots from 0 on.
    pub slots: u32,
    /// Whether further nodes are begun after one has failed.
    pub keep_nodes: bool,
    /// How many nodes may be in work at a time: at least 1.
    pub bound: u32,
}
