//! What the rules add for the call that a row names.
ghost use Rattle.rb_causes.specs.Moments.{IsMoment};
ghost use Rattle.rb_causes.specs.declared.row.Row.{Row};
ghost use Rattle.rb_desk.specs.Following.{ClaimsFor, IsCallerIn, IsFilterIn, IsOther, Names, Turns};
ghost use Rattle.rb_log.specs.Rows.{is_abort, is_accept, is_jobs, is_nodes, is_policy, is_zone};
ghost use Rattle.rb_log.specs.declared.call.Call.{Call};
ghost use Rattle.rb_tables.specs.Changes.{Decided};
ghost use Rattle.rb_tables.specs.Tables.{IsTabled};
ghost use Rattle.std.specs.Prelude.{◌≡◌, true, List};

use crate::may_ask::is_clean_caller;
use crate::unfit::{Unfit, of_answer, of_filter_fault};
use rb_acl::Caller;
use rb_causes::{Row, Text};
use rb_imports::callers::caller_of;
use rb_imports::importing::{import_jobs, import_nodes, import_policy, import_zone};
use rb_log::Answer;
use rb_node::Filter;
use rb_plan::RunAsk;
use rb_runs::aborting::abort;
use rb_runs::asking::run;
use rb_runs::claiming::claim;
use rb_runs::naming::{AskedOf, asked_of};
use rb_runs::ticking::tick;
use rb_tables::change::Change;
use rb_tables::kinds::{ABORT, ACCEPT, BEGIN, JOBS, NODES, POLICY, SKIPPED, WITHDRAW, ZONE};
use rb_tables::tables::Tables;
use std::alloc::Global;

/// The change, or why there is none.
fn changed(decided: Result<Change, Answer>) -> Result<Change, Unfit>
    requires { (past : List Row) × (call : Call) × Decided past call decided }
    ensures { (past : List Row) (call : Call) → Decided past call decided →
        Turns past call result }
{
    match decided {
        Ok(change) => Ok(change),
        Err(answer) => Err(of_answer(answer)),
    }
}

/// The caller whom a row names, where it is one whom a row can hold.
fn caller_in(alloc: Global, row: &Row) -> Result<Caller, Unfit>
    ensures { IsCallerIn row.now result }
{
    let caller = caller_of(alloc, row.who.as_str())?;
    if is_clean_caller(&caller) {
        Ok(caller)
    } else {
        Err(Unfit::Illegal)
    }
}

fn zone_change(tables: &Tables, alloc: Global, row: &Row) -> Result<Change, Unfit>
    requires at { IsMoment row.now.at }
    requires tabled { (past : List Row) × IsTabled tables.now past }
    ensures { (past : List Row) → IsTabled tables.now past → is_zone row.now ≡ true →
        Names past row.now result }
{
    let name = row.name.copy(alloc)?;
    let rule = row.body.copy(alloc)?;
    changed(import_zone(tables, alloc, name, rule, row.at))
}

fn nodes_change(tables: &Tables, alloc: Global, row: &Row) -> Result<Change, Unfit>
    requires at { IsMoment row.now.at }
    requires tabled { (past : List Row) × IsTabled tables.now past }
    ensures { (past : List Row) → IsTabled tables.now past → is_nodes row.now ≡ true →
        Names past row.now result }
{
    let project = row.name.copy(alloc)?;
    let body = row.body.copy(alloc)?;
    changed(import_nodes(tables, alloc, project, body, row.at))
}

fn policy_change(tables: &Tables, alloc: Global, row: &Row) -> Result<Change, Unfit>
    requires at { IsMoment row.now.at }
    requires tabled { (past : List Row) × IsTabled tables.now past }
    ensures { (past : List Row) → IsTabled tables.now past → is_policy row.now ≡ true →
        Names past row.now result }
{
    let caller = caller_in(alloc, row)?;
    let name = row.name.copy(alloc)?;
    let body = row.body.copy(alloc)?;
    let checked = row.b == 1;
    changed(import_policy(tables, alloc, caller, checked, name, body, row.at))
}

fn jobs_change(tables: &Tables, alloc: Global, row: &Row) -> Result<Change, Unfit>
    requires at { IsMoment row.now.at }
    requires tabled { (past : List Row) × IsTabled tables.now past }
    ensures { (past : List Row) → IsTabled tables.now past → is_jobs row.now ≡ true →
        Names past row.now result }
{
    let caller = caller_in(alloc, row)?;
    let project = row.name.copy(alloc)?;
    let body = row.body.copy(alloc)?;
    let checked = row.b == 1;
    changed(import_jobs(tables, alloc, caller, checked, project, body, row.at))
}

/// The filter of this text, if there is one.
fn filter_of(alloc: Global, text: &Option<Text>) -> Result<Option<Filter>, Unfit>
    ensures { IsFilterIn text.now result }
{
    match text {
        None => Ok(None),
        Some(text) => match Filter::read(alloc, text.as_str()) {
            Ok(filter) => Ok(Some(filter)),
            Err(fault) => Err(of_filter_fault(fault)),
        },
    }
}

/// That of a run that was accepted: of a caller, or of a schedule where an instant is named.
fn accept_change(tables: &Tables, alloc: Global, row: &Row) -> Result<Change, Unfit>
    requires at { IsMoment row.now.at }
    requires tabled { (past : List Row) × IsTabled tables.now past }
    ensures { (past : List Row) → IsTabled tables.now past → is_accept row.now ≡ true →
        Names past row.now result }
{
    let Some(asked) = asked_of(alloc, row.body.as_str())? else {
        return Err(Unfit::Illegal);
    };
    let AskedOf { given, filter, due } = asked;
    if due.is_some() {
        return changed(tick(tables, alloc, row.at));
    }
    let caller = caller_in(alloc, row)?;
    let ask = RunAsk {
        job: row.name.copy(alloc)?,
        given,
        filter: filter_of(alloc, &filter)?,
    };
    changed(run(tables, alloc, caller, ask, row.at))
}

fn abort_change(tables: &Tables, alloc: Global, row: &Row) -> Result<Change, Unfit>
    requires at { IsMoment row.now.at }
    requires tabled { (past : List Row) × IsTabled tables.now past }
    ensures { (past : List Row) → IsTabled tables.now past → is_abort row.now ≡ true →
        Names past row.now result }
{
    let caller = caller_in(alloc, row)?;
    changed(abort(tables, alloc, caller, row.a, row.at))
}

/// That of a claim of the worker with this number.
fn claim_change(tables: &Tables, alloc: Global, worker: u64, at: i64) -> Result<Change, Unfit>
    requires { (past : List Row) × IsTabled tables.now past }
    ensures { (past : List Row) → IsTabled tables.now past → ClaimsFor past worker at result }
{
    if worker >= u64::from(tables.workers) {
        return Err(Unfit::Illegal);
    }
    changed(claim(tables, alloc, worker as u32, at))
}

/// What the rules add for the call that a row names, where that may be asked; of rows that are
/// decided before they are added.
pub(crate) fn named_change(tables: &Tables, alloc: Global, row: &Row) -> Result<Change, Unfit>
    requires at { IsMoment row.now.at }
    requires tabled { (past : List Row) × IsTabled tables.now past }
    ensures { (past : List Row) → IsTabled tables.now past → IsOther past row.now →
        Names past row.now result }
{
    match row.kind {
        ZONE => zone_change(tables, alloc, row),
        NODES => nodes_change(tables, alloc, row),
        JOBS => jobs_change(tables, alloc, row),
        POLICY => policy_change(tables, alloc, row),
        ACCEPT => accept_change(tables, alloc, row),
        SKIPPED => changed(tick(tables, alloc, row.at)),
        ABORT => abort_change(tables, alloc, row),
        BEGIN => claim_change(tables, alloc, row.c, row.at),
        WITHDRAW => claim_change(tables, alloc, 0, row.at),
        _ => Err(Unfit::Illegal),
    }
}
