//! Executions that do not run any more.
ghost use Rattle.rb_log.specs.Executions.{Execution as LoggedExecution};
ghost use Rattle.rb_tables.specs.Leaves.{HasFewLeaves};
ghost use Rattle.rb_tables.specs.Running.{Closes, IsOwing, IsTold, MayOwe, Retires, owed_if_running};
ghost use Rattle.std.specs.Prelude.{◌≡◌, ◌<◌, ◌+◌, ◌-◌, length, not, nat_eq, filter};

use rb_causes::Items;
use rb_plan::Running;
use rb_tables::tables::Tables;
use std::alloc::Global;

/// Takes the execution of this number out of those that run.
fn take_running(running: &mut Vec<Running>, number: u64)
    ensures { running.new.items
        ≡ filter (λ r. not (nat_eq r.execution number)) running.old.items }
{
    running.retain(|running| running.execution != number);
}

/// Takes the execution at a place out of those that run, and what only a run needs away, if it does
/// not run any more.
fn close_if_over(tables: &mut Tables, alloc: Global, place: usize)
    requires place { place < length tables.old.executions.items }
    requires told { (l : LoggedExecution) × IsTold tables.old place l }
    ensures { (l : LoggedExecution) → IsTold tables.old place l →
        Closes tables.old tables.new place l }
{
    if tables.runs(place) {
        return;
    }
    let number = tables.executions[place].number;
    tables.executions[place].close(alloc);
    let running = std::mem::replace(&mut tables.world.running, Items::new(alloc));
    let mut rest = running.into_vec();
    take_running(&mut rest, number);
    tables.world.running = Items::of(rest);
}

/// What is owed, where the execution at a place owed so many rows before.
pub(crate) fn owe_anew(tables: &mut Tables, place: usize, before: u64)
    requires entry { (l : LoggedExecution) × IsOwing tables.old place l before }
    ensures { (l : LoggedExecution) → IsOwing tables.old place l before →
        tables.new ≡ record tables.old {
          owed_by_running = tables.old.owed_by_running - before + owed_if_running l;
        } }
{
    let owed = tables.executions[place].owed();
    tables.owed_by_running = tables.owed_by_running - before + owed;
}

/// Lets the execution at a place go, if it does not run any more. It owed so many rows before.
pub(crate) fn retire(tables: &mut Tables, alloc: Global, place: usize, before: u64)
    requires place { place < length tables.old.executions.items }
    requires told { (l : LoggedExecution) × IsTold tables.old place l × HasFewLeaves l }
    requires owed { MayOwe tables.old before }
    ensures { (l : LoggedExecution) → IsTold tables.old place l → HasFewLeaves l →
        Retires tables.old tables.new place before l }
{
    close_if_over(tables, alloc, place);
    owe_anew(tables, place, before);
}
