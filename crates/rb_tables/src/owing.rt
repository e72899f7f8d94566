//! What the tables say of executions that run: what they owe, and whether they go on.
ghost use Rattle.rb_causes.specs.declared.row.Row.{Row};
ghost use Rattle.rb_log.specs.Executions.{Execution as LoggedExecution};
ghost use Rattle.rb_log.specs.LogState.{log_state, owed};
ghost use Rattle.rb_tables.specs.Running.{has_open_leaf, runs};
ghost use Rattle.rb_tables.specs.Tables.{IsTabled, IsOf};
ghost use Rattle.rb_tables.specs.declared.execution.Execution.{Execution};
ghost use Rattle.std.specs.Prelude.{◌≡◌, ◌<◌, ◌+◌, List, length, slice_get, Some};

use crate::laws::log_laws;
use crate::tables::Tables;

/// Where the execution of this number stands.
pub fn place_of(number: u64) -> usize
    requires { 0 < number }
    ensures { result + 1 ≡ number }
{
    (number - 1) as usize
}

impl Tables {
    /// The rows that may still come whatever room is left: of all that run, and a Close for each
    /// open door.
    pub fn owed(&self) -> u64
        requires { (past : List Row) × IsTabled self.now past }
        ensures { (past : List Row) → IsTabled self.now past → result ≡ owed (log_state past) }
    {
        // Little is owed in a legal log.
        log_laws();
        self.owed_by_running + self.doors.len() as u64
    }

    /// Whether a leaf of the execution of this number is open.
    pub fn has_open_leaf(&self, number: u64) -> bool
        ensures { result ≡ has_open_leaf number self.now.leaves.items }
    {
        self.leaves.iter().any(|open| open.execution == number)
    }

    /// Whether a leaf of the execution at a place is open, or may start.
    pub fn runs(&self, place: usize) -> bool
        requires { place < length self.now.executions.items }
        ensures { (e : Execution) (l : LoggedExecution) →
            slice_get self.now.executions.items place ≡ Some e → IsOf e l →
            result ≡ runs l self.now.leaves.items }
    {
        let execution = &self.executions[place];
        self.has_open_leaf(execution.number) || execution.progress.first_startable().is_some()
    }
}
