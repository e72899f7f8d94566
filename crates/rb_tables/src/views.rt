//! Executions as they are shown.
ghost use Rattle.rb_log.specs.Executions.{Execution as LoggedExecution};
ghost use Rattle.rb_log.specs.Runs.{view_of};
ghost use Rattle.rb_tables.specs.Tables.{IsOf};
ghost use Rattle.std.specs.Prelude.{◌≡◌, map, IfOk};

use crate::duplicate::{Duplicate, each_of};
use crate::execution::Execution;
use rb_causes::NoMemory;
use rb_log::{DroppedView, View};
use std::alloc::Global;

impl Duplicate for DroppedView {
    fn duplicate(&self, alloc: Global) -> Result<DroppedView, NoMemory> {
        let clause = self.clause.copy(alloc)?;
        let node = self.node.copy(alloc)?;
        Ok(DroppedView { clause, node })
    }
}

/// An execution as it is shown.
pub fn view_of(alloc: Global, execution: &Execution) -> Result<View, NoMemory>
    ensures { (l : LoggedExecution) → IsOf execution.now l →
        IfOk result (λ view. view ≡ view_of l) }
{
    Ok(View {
        dropped: each_of(alloc, execution.dropped.as_slice())?,
        id: execution.number,
        job: execution.job.copy(alloc)?,
        nodes: each_of(alloc, execution.nodes.as_slice())?,
        options: each_of(alloc, execution.values.as_slice())?,
        project: execution.project.copy(alloc)?,
        started: execution.at,
        status: execution.progress.status(),
        user: execution.caller.user.copy(alloc)?,
    })
}
