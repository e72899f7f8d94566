//! What a desk keeps beside its log, so that no call goes through the log.
ghost use Rattle.rb_log.specs.LogState.{log_state, moment_by};
ghost use Rattle.rb_tables.specs.Tables.{AreLogTables};
ghost use Rattle.std.specs.Prelude.{◌≡◌, ◌+◌, [], length};

use crate::execution::Execution;
use crate::latest::LatestRow;
use rb_acl::Policies;
use rb_causes::Items;
use rb_log::OpenLeaf;
use rb_plan::World;
use std::alloc::Global;

/// What the log of a desk says at its end.
#[derive(Drop)]
pub struct Tables {
    /// The bytes of texts that count for the greatest size of a log, or 2^64 - 1 where they are
    /// more.
    pub counted: u64,
    /// The moment of the last row.
    pub last: Option<i64>,
    pub draw: u64,
    /// Whether there is a second check: the last opening has form 2.
    pub checks: bool,
    pub workers: u32,
    pub doors: Vec<u32>,
    pub leaves: Vec<OpenLeaf>,
    /// How many rows may still come of the executions that run.
    pub owed_by_running: u64,
    /// The last row of each zone.
    pub zones: Vec<LatestRow>,
    pub zones_number: u64,
    /// The last nodes of each project of the world.
    pub nodes: Vec<LatestRow>,
    /// When each job of each project of the world is due next, if it ever is.
    pub due: Vec<Vec<Option<i64>>>,
    /// The last row of each policy file.
    pub files: Vec<LatestRow>,
    pub jobs_number: u64,
    pub executions: Vec<Execution>,
    pub world: World,
}

/// A world with nothing in it.
fn empty_world(alloc: Global) -> World
    ensures { result ≡ record {
      zones = [];
      policies = record { docs = [] };
      policy_number = 0;
      projects = [];
      running = [];
    } }
{
    World {
        zones: Items::new(alloc),
        policies: Policies {
            docs: Items::new(alloc),
        },
        policy_number: 0,
        projects: Items::new(alloc),
        running: Items::new(alloc),
    }
}

impl Tables {
    /// Those of a log without a row.
    pub fn empty(alloc: Global) -> Tables
        ensures { AreLogTables result (log_state []) }
    {
        Tables {
            counted: 0,
            last: None,
            draw: 0,
            checks: false,
            workers: 0,
            doors: Vec::new(alloc),
            leaves: Vec::new(alloc),
            owed_by_running: 0,
            zones: Vec::new(alloc),
            zones_number: 0,
            nodes: Vec::new(alloc),
            due: Vec::new(alloc),
            files: Vec::new(alloc),
            jobs_number: 0,
            executions: Vec::new(alloc),
            world: empty_world(alloc),
        }
    }

    /// How many rows may come, behind one more, without memory: an End of each open leaf and of
    /// one more, and a Close of each open door.
    pub fn to_come(&self) -> usize
        ensures { result ≡ length self.now.leaves.items + length self.now.doors.items + 1 }
    {
        self.leaves.len() + self.doors.len() + 1
    }

    /// A moment that is no earlier than the last row's.
    pub fn moment(&self, at: i64) -> i64
        ensures { result ≡ moment_by self.now.last at }
    {
        match self.last {
            None => at,
            Some(last) => { if at < last { last } else { at } }
        }
    }
}
