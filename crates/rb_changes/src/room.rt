//! Memory for what a row changes, before the row is added.
ghost use Rattle.rb_causes.specs.declared.row.Row.{Row};
ghost use Rattle.rb_log.specs.Executions.{Execution as LoggedExecution};
ghost use Rattle.rb_tables.specs.Changes.{EffectMayCome};
ghost use Rattle.rb_tables.specs.Running.{CanBegin, CanWithdraw, HasFlowRoom, RunsAt};
ghost use Rattle.rb_tables.specs.Tables.{AreEntries, HasSpare, IsTabled};
ghost use Rattle.std.specs.Prelude.{◌≡◌, List, OnOk, vec_len, vec_capacity, ◌+◌, ◌<◌, IfOk, length};

use rb_causes::NoMemory;
use rb_tables::change::TableEffect;
use rb_tables::execution::Execution;
use rb_tables::tables::Tables;

/// Makes room for one more Begin of the execution at a place.
fn ready(executions: &mut Vec<Execution>, place: usize) -> Result<(), NoMemory>
    requires { RunsAt executions.old.items place }
    ensures room { OnOk result (CanBegin executions.new.items place) }
    ensures same { (ls : List LoggedExecution) → AreEntries executions.old.items ls →
        AreEntries executions.new.items ls }
    ensures len { vec_len executions.new ≡ vec_len executions.old }
    ensures capacity { vec_capacity executions.new ≡ vec_capacity executions.old }
{
    executions[place].ready()
}

/// Makes room for one more withdrawn node of the execution at a place.
fn reserve_withdrawn(executions: &mut Vec<Execution>, place: usize) -> Result<(), NoMemory>
    requires { place < length executions.old.items }
    ensures room { OnOk result (CanWithdraw executions.new.items place) }
    ensures same { (ls : List LoggedExecution) → AreEntries executions.old.items ls →
        AreEntries executions.new.items ls }
    ensures len { vec_len executions.new ≡ vec_len executions.old }
    ensures capacity { vec_capacity executions.new ≡ vec_capacity executions.old }
{
    executions[place].withdrawn.reserve(1)?;
    Ok(())
}

/// Makes room for one more in each list.
fn reserve(tables: &mut Tables) -> Result<(), NoMemory>
    ensures spare { OnOk result (HasSpare tables.new) }
    ensures same { (past : List Row) → IsTabled tables.old past → IsTabled tables.new past }
{
    tables.leaves.reserve(1)?;
    tables.zones.reserve(1)?;
    tables.nodes.reserve(1)?;
    tables.due.reserve(1)?;
    tables.files.reserve(1)?;
    tables.executions.reserve(1)?;
    Ok(())
}

/// Makes room for what a row changes.
pub(crate) fn make_room(tables: &mut Tables, effect: &TableEffect) -> Result<(), NoMemory>
    requires { EffectMayCome tables.old effect.now }
    ensures spare { OnOk result (HasSpare tables.new) }
    ensures flow { OnOk result (HasFlowRoom tables.new effect.now) }
    ensures same { (past : List Row) → IsTabled tables.old past → IsTabled tables.new past }
{
    reserve(tables)?;
    match effect {
        TableEffect::Begin(place, _, _) => ready(&mut tables.executions, *place),
        TableEffect::Withdraw(new) => reserve_withdrawn(&mut tables.executions, new.place),
        TableEffect::Zone(_) => Ok(()),
        TableEffect::Nodes(_) => Ok(()),
        TableEffect::Policies(_) => Ok(()),
        TableEffect::Jobs(_) => Ok(()),
        TableEffect::Run(_) => Ok(()),
        TableEffect::Skip(_) => Ok(()),
        TableEffect::Abort(_) => Ok(()),
    }
}

/// Makes room for what a row changes, and tells for how many rows the log needs memory then.
pub fn prepare(tables: &mut Tables, effect: &TableEffect) -> Result<usize, NoMemory>
    requires { EffectMayCome tables.old effect.now }
    ensures spare { OnOk result (HasSpare tables.new) }
    ensures flow { OnOk result (HasFlowRoom tables.new effect.now) }
    ensures same { (past : List Row) → IsTabled tables.old past → IsTabled tables.new past }
    ensures count { IfOk result (λ count. count
        ≡ length tables.new.leaves.items + length tables.new.doors.items + 1) }
{
    make_room(tables, effect)?;
    Ok(tables.to_come())
}
