ghost use Rattle.rb_top.specs.Reading.{empty_script};
ghost use Rattle.std.specs.Prelude.{◌≡◌};

use rb_causes::{Items, Text};
use std::alloc::Global;

/// An `allow` or a `deny` line: who, and on which node.
#[derive(Drop)]
pub struct AccessLine {
    pub denies: bool,
    pub user: Text,
    pub node: Text,
}

/// A job: its id, its nodes and the words of each step.
#[derive(Drop)]
pub struct DrillJob {
    pub id: Text,
    pub nodes: Items<Text>,
    pub steps: Items<Items<Text>>,
}

/// A `run` line: who runs which job.
#[derive(Drop)]
pub struct DrillRun {
    pub user: Text,
    pub job: Text,
}

/// What a drill file says, in the order of its lines.
#[derive(Drop)]
pub struct Script {
    pub nodes: Items<Text>,
    pub access: Items<AccessLine>,
    pub jobs: Items<DrillJob>,
    pub runs: Items<DrillRun>,
}

/// One line of a drill file, read by itself.
#[derive(Drop)]
pub enum DrillLine {
    /// A blank line or a comment.
    Skip,
    Node(Text),
    Access(AccessLine),
    Job { id: Text, nodes: Items<Text> },
    Step(Items<Text>),
    Run(DrillRun),
}

/// Why a drill file is refused.
#[derive(Clone, Copy, Debug, PartialEq, Eq)]
pub enum ScriptFault {
    /// It has more than 1,048,576 bytes.
    TooLarge,
    /// The line of this number, from 1, is the first that is no line, or that may not stand there.
    NotRead(usize),
}

impl Script {
    /// What an empty file says.
    pub fn new(alloc: Global) -> Script
        ensures { result ≡ empty_script }
    {
        Script {
            nodes: Items::new(alloc),
            access: Items::new(alloc),
            jobs: Items::new(alloc),
            runs: Items::new(alloc),
        }
    }
}
