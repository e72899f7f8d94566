//! Marks of an execution.
ghost use Rattle.rb_log.specs.Executions.{Execution as LoggedExecution, is_running};
ghost use Rattle.rb_log.specs.Restarts.{reopened};
ghost use Rattle.rb_marks.specs.First.{first_startable, is_lost, is_open, may_withdraw, stops};
ghost use Rattle.rb_tables.specs.Progress.{HasBeginRoom, HasTiers};
ghost use Rattle.rb_tables.specs.Running.{with_mark, with_withdrawal};
ghost use Rattle.rb_tables.specs.Tables.{IsEntry, IsOf, withdrawn_of};
ghost use Rattle.std.specs.List.{list_any};
ghost use Rattle.std.specs.Prelude.{◌≡◌, ◌<◌, IsFalse, IsTrue, OnOk, Some, true, false, vec_len, vec_capacity};

use crate::execution::{Execution, WithdrawnNode};
use crate::progress::Progress;
use rb_causes::{Ending, NoMemory};
use rb_marks::{Leaf, Mark};
use std::alloc::Global;

impl Execution {
    /// Makes room for one more Begin of one that runs.
    pub fn ready(&mut self) -> Result<(), NoMemory>
        requires { (l : LoggedExecution) × IsOf self.old l × (is_running l ≡ true) }
        ensures room { OnOk result (HasBeginRoom self.new.progress) }
        ensures same { (l : LoggedExecution) → IsEntry self.old l → IsEntry self.new l }
    {
        match &mut self.progress {
            Progress::Going(going) => going.flow.ready(),
            Progress::Over(_) => Ok(()),
        }
    }

    /// A leaf has begun.
    pub fn begin(&mut self, leaf: Leaf)
        requires first { (l : LoggedExecution) × IsOf self.old l
            × (first_startable l.accepted.plan l.marks ≡ Some leaf) }
        requires room { HasBeginRoom self.old.progress }
        ensures { (l : LoggedExecution) → IsOf self.old l →
            IsOf self.new (with_mark l (Mark.Begin leaf)) }
    {
        match &mut self.progress {
            Progress::Going(going) => going.flow.begin(leaf),
            Progress::Over(_) => (),
        }
    }

    /// An open leaf has ended.
    pub fn finish(&mut self, leaf: Leaf, ending: Ending)
        requires { (l : LoggedExecution) × IsOf self.old l × IsTrue (is_open l.marks leaf)
            × IsFalse (list_any is_lost l.marks) }
        ensures { (l : LoggedExecution) → IsOf self.old l →
            IsOf self.new (with_mark l (Mark.End leaf ending)) }
    {
        match &mut self.progress {
            Progress::Going(going) => going.flow.finish(leaf, ending),
            Progress::Over(_) => (),
        }
    }

    /// Nothing more is to be started.
    pub fn stop(&mut self)
        requires { (l : LoggedExecution) × IsOf self.old l × (is_running l ≡ true)
            × IsFalse (list_any stops l.marks) }
        ensures { (l : LoggedExecution) → IsOf self.old l → IsOf self.new (with_mark l Mark.Abort) }
    {
        match &mut self.progress {
            Progress::Going(going) => going.flow.abort(),
            Progress::Over(_) => (),
        }
    }

    /// No unit of a node is to be opened any more. There is memory for one more such node.
    pub fn withdraw(&mut self, new: WithdrawnNode)
        requires may { (l : LoggedExecution) × IsOf self.old l
            × IsTrue (may_withdraw l.accepted.plan l.marks new.node) }
        requires room { vec_len self.old.withdrawn < vec_capacity self.old.withdrawn }
        ensures { (l : LoggedExecution) → IsOf self.old l →
            IsOf self.new (with_withdrawal l (withdrawn_of new)) }
    {
        self.progress.withdraw(new.node);
        self.withdrawn.push_reserved(new);
    }

    /// What runs of it is out of sight, so it does not run any more.
    pub fn lose(&mut self, alloc: Global)
        requires { (l : LoggedExecution) × IsEntry self.old l × HasTiers l }
        ensures { (l : LoggedExecution) → IsEntry self.old l → HasTiers l →
            IsEntry self.new (reopened l) }
    {
        self.progress.lose();
        self.close(alloc);
    }

    /// Keeps what a look needs of one that does not run any more.
    pub fn close(&mut self, alloc: Global)
        requires { (l : LoggedExecution) × IsOf self.old l × HasTiers l × (is_running l ≡ false) }
        ensures { (l : LoggedExecution) → IsOf self.old l → HasTiers l → is_running l ≡ false →
            IsEntry self.new l }
    {
        let nodes = self.nodes.len() as u32;
        self.progress.close(alloc, nodes);
    }
}
