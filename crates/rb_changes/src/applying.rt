//! What a row changes, once it is added.
ghost use Rattle.rb_tables.specs.Changes.{Follow, ChangeMayCome};
ghost use Rattle.rb_tables.specs.Running.{HasFlowRoom};
ghost use Rattle.rb_tables.specs.Tables.{HasSpare};

use crate::import_puts::{put_jobs, put_nodes, put_policies, put_zone};
use crate::run_puts::{put_run, put_skip};
use crate::running::{put_abort, put_begin, put_withdraw};
use rb_tables::change::TableEffect;
use rb_tables::tables::Tables;
use std::alloc::Global;

/// Makes the tables those of the log with one more row.
pub fn apply(tables: &mut Tables, alloc: Global, at: i64, counted: u64, effect: TableEffect)
    requires comes { ChangeMayCome tables.old at counted effect }
    requires spare { HasSpare tables.old }
    requires flow { HasFlowRoom tables.old effect }
    ensures { Follow tables.old tables.new at counted effect }
{
    match effect {
        TableEffect::Zone(new) => put_zone(tables, alloc, at, counted, new),
        TableEffect::Nodes(new) => put_nodes(tables, alloc, at, counted, new),
        TableEffect::Policies(new) => put_policies(tables, alloc, at, counted, new),
        TableEffect::Jobs(new) => put_jobs(tables, alloc, at, counted, new),
        TableEffect::Run(new) => put_run(tables, alloc, at, counted, new),
        TableEffect::Skip(id) => put_skip(tables, alloc, at, counted, id),
        TableEffect::Abort(place) => put_abort(tables, alloc, at, counted, place),
        TableEffect::Begin(place, leaf, worker) => put_begin(
            tables, at, counted, place, leaf, worker,
        ),
        TableEffect::Withdraw(new) => put_withdraw(tables, alloc, at, counted, new),
    }
}
