//! Aborts, and leaves that begin.
ghost use Rattle.rb_tables.specs.Changes.{Follow, ChangeMayCome};
ghost use Rattle.rb_tables.specs.Running.{HasFlowRoom};
ghost use Rattle.rb_tables.specs.Tables.{HasSpare};
ghost use Rattle.rb_tables.specs.declared.change.TableEffect.TheVariants as effects;

use crate::noting::note;
use crate::retiring::{owe_anew, retire};
use rb_log::OpenLeaf;
use rb_marks::Leaf;
use rb_tables::change::WithdrawEffect;
use rb_tables::laws::log_laws;
use rb_tables::tables::Tables;
use std::alloc::Global;

/// Nothing more of the execution at this place is to be started.
pub(crate) fn put_abort(tables: &mut Tables, alloc: Global, at: i64, counted: u64, place: usize)
    requires comes { ChangeMayCome tables.old at counted (effects.Abort place) }
    ensures { Follow tables.old tables.new at counted (effects.Abort place) }
{
    log_laws();
    let owed = tables.executions[place].owed();
    tables.executions[place].stop();
    retire(tables, alloc, place, owed);
    note(tables, at, counted);
}

/// A node of an execution is withdrawn.
pub(crate) fn put_withdraw(
    tables: &mut Tables,
    alloc: Global,
    at: i64,
    counted: u64,
    new: WithdrawEffect,
)
    requires comes { ChangeMayCome tables.old at counted (effects.Withdraw new) }
    requires flow { HasFlowRoom tables.old (effects.Withdraw new) }
    ensures { Follow tables.old tables.new at counted (effects.Withdraw new) }
{
    log_laws();
    let WithdrawEffect { place, new } = new;
    let owed = tables.executions[place].owed();
    tables.executions[place].withdraw(new);
    retire(tables, alloc, place, owed);
    note(tables, at, counted);
}

/// The leaf of the execution at this place has begun, for a worker.
pub(crate) fn put_begin(
    tables: &mut Tables,
    at: i64,
    counted: u64,
    place: usize,
    leaf: Leaf,
    worker: u32,
)
    requires comes { ChangeMayCome tables.old at counted (effects.Begin place leaf worker) }
    requires spare { HasSpare tables.old }
    requires flow { HasFlowRoom tables.old (effects.Begin place leaf worker) }
    ensures { Follow tables.old tables.new at counted (effects.Begin place leaf worker) }
{
    log_laws();
    let owed = tables.executions[place].owed();
    let execution = &mut tables.executions[place];
    execution.begin(leaf);
    let number = execution.number;
    owe_anew(tables, place, owed);
    tables.leaves.push_reserved(OpenLeaf {
        execution: number,
        leaf,
        worker,
    });
    note(tables, at, counted);
}
