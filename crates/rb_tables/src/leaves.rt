//! The leaves of an execution.
ghost use Rattle.rb_log.specs.Claims.{execution_words, leaf_number_in};
ghost use Rattle.rb_log.specs.Executions.{Execution as LoggedExecution, is_running};
ghost use Rattle.rb_log.specs.Rows.{leaf_number};
ghost use Rattle.rb_tables.specs.Leaves.{HasFewLeaves, HasLeaf};
ghost use Rattle.rb_tables.specs.Running.{owed_if_running};
ghost use Rattle.rb_tables.specs.Tables.{IsEntry, IsOf};
ghost use Rattle.std.specs.Prelude.{◌≡◌, ◌≤◌, ◌*◌, IfOk, length, true};

use crate::execution::Execution;
use crate::progress::{Progress, RunState};
use rb_causes::{Items, NoMemory, Text};
use rb_marks::Leaf;
use rb_plan::words_on_node;
use std::alloc::Global;

impl RunState {
    /// The number of a leaf.
    pub fn leaf_number(&self, leaf: Leaf) -> u64
        requires { length self.now.commands ≤ 1000 }
        ensures { result ≡ leaf_number (length self.now.commands) leaf }
    {
        // Each slot has its command.
        let slots = self.commands.len() as u64;
        u64::from(leaf.node) * slots + u64::from(leaf.slot)
    }

    /// How many leaves it has.
    fn leaf_count(&self) -> u64
        requires { length self.now.nodes * length self.now.commands ≤ 100000 }
        ensures { result ≡ length self.now.nodes * length self.now.commands }
    {
        self.nodes.len() as u64 * self.commands.len() as u64
    }
}

impl Execution {
    /// The number of a leaf of one that runs.
    pub fn leaf_number(&self, leaf: Leaf) -> u64
        requires { (l : LoggedExecution) × IsOf self.now l × HasFewLeaves l }
        ensures { (l : LoggedExecution) → IsOf self.now l → HasFewLeaves l →
            is_running l ≡ true → result ≡ leaf_number_in l leaf }
    {
        match &self.progress {
            Progress::Going(going) => going.leaf_number(leaf),
            Progress::Over(_) => 0,
        }
    }

    /// The words that are to be run for a leaf of one that runs.
    pub fn words(&self, alloc: Global, leaf: Leaf) -> Result<Items<Text>, NoMemory>
        requires { (l : LoggedExecution) × IsOf self.now l × HasLeaf l leaf }
        ensures { (l : LoggedExecution) → IsOf self.now l → HasLeaf l leaf →
            is_running l ≡ true → IfOk result (λ words. words ≡ execution_words l leaf) }
    {
        match &self.progress {
            Progress::Going(going) => {
                let node = &going.nodes.as_slice()[leaf.node as usize];
                let command = &going.commands.as_slice()[leaf.slot as usize];
                let project = self.project.as_str();
                let user = self.caller.user.as_str();
                let words = words_on_node(alloc, project, node, command, self.number, user)?;
                Ok(Items::of(words))
            }
            Progress::Over(_) => Ok(Items::new(alloc)),
        }
    }

    /// The rows that may still come of it whatever room is left; none where it does not run.
    pub fn owed(&self) -> u64
        requires { (l : LoggedExecution) × IsEntry self.now l × HasFewLeaves l }
        ensures { (l : LoggedExecution) → IsEntry self.now l → HasFewLeaves l →
            result ≡ owed_if_running l }
    {
        match &self.progress {
            Progress::Going(going) => {
                (2 * going.leaf_count() + 1).saturating_sub(going.flow.marks().len() as u64)
            }
            Progress::Over(_) => 0,
        }
    }
}
