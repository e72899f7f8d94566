//! What a call changes: the row that it adds, and what becomes of the tables.
ghost use Rattle.rb_tables.specs.Changes.{answer_of, need_of};
ghost use Rattle.std.specs.Prelude.{◌≡◌};

use crate::execution::{Execution, WithdrawnNode};
use rb_acl::{Decision, Policy};
use rb_causes::{Items, Row, Text};
use rb_cron::NamedZone;
use rb_inventory::Inventory;
use rb_log::{Answer, ImportedJob, OpenLeaf, Task, View};
use rb_marks::{Leaf, Status};
use rb_plan::{HeldJob, Project, Running};

/// A row that is to be added.
#[derive(Drop)]
pub struct Change {
    pub outcome: Outcome,
    pub row: Row,
    pub effect: TableEffect,
}

/// What is answered once the row is added.
#[derive(Drop)]
pub enum Outcome {
    Imported {
        version: u64,
        jobs: Items<ImportedJob>,
    },
    Accepted(View),
    /// The execution of a due job, or 0 where it was skipped.
    Fired(u64),
    Aborted(Status),
    Task {
        claimed: OpenLeaf,
        words: Items<Text>,
    },
    /// The node of an execution, and the decision by which it is withdrawn.
    Withdrawn {
        execution: u64,
        node: Text,
        decision: Decision,
    },
}

impl Outcome {
    /// As a call is answered.
    pub fn into_answer(self) -> Answer
        ensures { result ≡ answer_of self }
    {
        match self {
            Outcome::Imported { version, jobs } => Answer::Imported { version, jobs },
            Outcome::Accepted(view) => Answer::Accepted(view),
            Outcome::Fired(execution) => Answer::Fired(execution),
            Outcome::Aborted(status) => Answer::Aborted(status),
            Outcome::Task { claimed, words } => Answer::Task(Task::new(claimed, words)),
            Outcome::Withdrawn {
                execution,
                node,
                decision,
            } => Answer::Withdrawn {
                execution,
                node,
                decision,
            },
        }
    }
}

/// What becomes of the tables. A `Vec` that is named for its room is empty, with memory for what is
/// moved into it.
#[derive(Drop)]
pub enum TableEffect {
    Zone(ZonesEffect),
    Nodes(NodesEffect),
    Policies(PoliciesEffect),
    Jobs(JobsEffect),
    Run(RunEffect),
    /// The job of this id was due and is skipped.
    Skip(Text),
    /// Of the execution at this place.
    Abort(usize),
    /// Of a leaf of the execution at this place, for a worker.
    Begin(usize, Leaf, u32),
    Withdraw(WithdrawEffect),
}

/// A node of an execution is withdrawn.
#[derive(Drop)]
pub struct WithdrawEffect {
    /// Of the execution.
    pub place: usize,
    /// The node, with the text of the clause.
    pub new: WithdrawnNode,
}

/// The zone of a name is this one.
#[derive(Drop)]
pub struct ZonesEffect {
    /// A copy of the row.
    pub latest: Row,
    pub zone: NamedZone,
    pub room: Vec<NamedZone>,
}

/// The nodes of a project are these.
#[derive(Drop)]
pub struct NodesEffect {
    /// A copy of the row.
    pub latest: Row,
    /// A copy of its name.
    pub name: Text,
    pub inventory: Inventory,
    pub room: Vec<Project>,
}

/// The policies of a file are these.
#[derive(Drop)]
pub struct PoliciesEffect {
    /// A copy of the row.
    pub latest: Row,
    /// The policies of the file.
    pub new: Vec<Policy>,
    /// For the policies of the files up to this one, and of those behind it.
    pub room: Vec<Policy>,
    pub rest_room: Vec<Policy>,
}

/// The jobs are held in the project at a place.
#[derive(Drop)]
pub struct JobsEffect {
    /// Of the project.
    pub place: usize,
    pub new: Vec<HeldJob>,
    pub room: Vec<HeldJob>,
    /// For when each of its jobs is due.
    pub due_room: Vec<Option<i64>>,
}

/// An execution has begun.
#[derive(Drop)]
pub struct RunEffect {
    /// For how many rows there has to be room.
    pub need: u64,
    /// The id of the job that was due, where a schedule asked.
    pub fired: Option<Text>,
    pub execution: Execution,
    /// None where nothing of it is to be run.
    pub new: Option<Running>,
    pub room: Vec<Running>,
}

impl TableEffect {
    /// For how many rows there has to be room, where that is asked.
    pub fn need(&self) -> Option<u64>
        ensures { result ≡ need_of self.now }
    {
        match self {
            TableEffect::Zone(_) => Some(1),
            TableEffect::Nodes(_) => Some(1),
            TableEffect::Policies(_) => Some(1),
            TableEffect::Jobs(_) => Some(1),
            TableEffect::Run(run) => Some(run.need),
            TableEffect::Skip(_) => Some(1),
            TableEffect::Abort(_) => None,
            TableEffect::Begin(_, _, _) => None,
            TableEffect::Withdraw(_) => None,
        }
    }
}
