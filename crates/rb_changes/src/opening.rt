//! Openings: what runs is lost, and doors and workers are those of the opening.
ghost use Rattle.rb_causes.specs.declared.row.Row.{Row};
ghost use Rattle.rb_changes.specs.Openings.{AreRunning, Opens};
ghost use Rattle.rb_log.specs.Executions.{executions as logged_executions};
ghost use Rattle.rb_log.specs.LogState.{log_state};
ghost use Rattle.rb_log.specs.Restarts.{reopened};
ghost use Rattle.rb_log.specs.Sums.{numbers_below};
ghost use Rattle.rb_tables.specs.Tables.{AreEntries, AreLogTables};
ghost use Rattle.std.specs.Prelude.{◌≡◌, List, ◌∷◌, map, IfOk};

use crate::noting::note_bare;
use rb_causes::{Items, NoMemory};
use rb_plan::Running;
use rb_tables::execution::Execution;
use rb_tables::laws::log_laws;
use rb_tables::owing::place_of;
use rb_tables::tables::Tables;
use std::alloc::Global;
use std::mem;

/// An opening of a log.
#[derive(Drop)]
pub struct Opening {
    pub at: i64,
    /// The numbers of its doors.
    pub doors: Vec<u32>,
    pub workers: u32,
    pub draw: u64,
    /// Whether a second check begins with it.
    pub checks: bool,
}

/// The numbers below this one, in order.
pub fn numbers_below(alloc: Global, count: u32) -> Result<Vec<u32>, NoMemory>
    ensures { IfOk result (λ numbers. numbers.items ≡ numbers_below count) }
{
    let mut numbers = Vec::with_capacity(alloc, count as usize)?;
    for number in 0..count {
        numbers.push(number)?;
    }
    Ok(numbers)
}

/// What runs of each of these is out of sight.
fn lose_all(alloc: Global, executions: &mut Vec<Execution>, running: &[Running])
    requires { (past : List Row) × AreRunning executions.old.items running.now past }
    ensures { (past : List Row) → AreRunning executions.old.items running.now past →
        AreEntries executions.new.items (map reopened (logged_executions past)) }
{
    log_laws();
    for lost in running {
        executions[place_of(lost.execution)].lose(alloc);
    }
}

/// The log has been opened.
pub fn put_opening(tables: &mut Tables, alloc: Global, opening: Opening)
    requires { (past : List Row) × (row : Row) × Opens tables.old opening past row }
    ensures { (past : List Row) (row : Row) → Opens tables.old opening past row →
        AreLogTables tables.new (log_state (row ∷ past)) }
{
    log_laws();
    let Opening {
        at,
        doors,
        workers,
        draw,
        checks,
    } = opening;
    let running = mem::replace(&mut tables.world.running, Items::new(alloc));
    lose_all(alloc, &mut tables.executions, running.as_slice());
    tables.owed_by_running = 0;
    tables.leaves.clear();
    tables.doors = doors;
    tables.workers = workers;
    tables.draw = draw;
    tables.checks = checks;
    note_bare(tables, at);
}
