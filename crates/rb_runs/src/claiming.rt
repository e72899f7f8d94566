//! What is decided of a claim.
ghost use Rattle.rb_causes.specs.declared.row.Row.{Row};
ghost use Rattle.rb_log.specs.Claims.{is_closed};
ghost use Rattle.rb_log.specs.LogState.{log_state};
ghost use Rattle.rb_log.specs.declared.call.Call.TheVariants as calls;
ghost use Rattle.rb_runs.specs.Claiming.{IsChecked, IsClaim, IsNextStart, IsStart};
ghost use Rattle.rb_tables.specs.Changes.{Decided};
ghost use Rattle.rb_tables.specs.Tables.{IsTabled};
ghost use Rattle.std.specs.Prelude.{◌≡◌, ℕ, IfOk, List, None, Some};

use rb_acl::Decision;
use rb_causes::NoMemory;
use rb_log::laws::accepted_may_be_run;
use rb_log::{Answer, OpenLeaf};
use rb_marks::Leaf;
use rb_plan::{is_allowed, node_run};
use rb_tables::change::{Change, Outcome, TableEffect, WithdrawEffect};
use rb_tables::execution::WithdrawnNode;
use rb_tables::laws::log_laws;
use rb_tables::owing::place_of;
use rb_tables::permissions::decision_text;
use rb_tables::progress::Progress;
use rb_tables::running_rows::{begin_row, withdraw_row};
use rb_tables::tables::Tables;
use std::alloc::Global;

/// A leaf that may start, of the execution at a place.
#[derive(Clone, Copy)]
pub(crate) struct Start {
    pub(crate) place: usize,
    pub(crate) leaf: Leaf,
}

/// Whether no door is open and nothing runs.
fn is_closed(tables: &Tables) -> bool
    ensures { (past : List Row) → IsTabled tables.now past →
        result ≡ is_closed (log_state past) }
{
    tables.doors.is_empty() && tables.world.running.is_empty()
}

/// The first leaf that may start, of the first execution that has one.
fn next_start(tables: &Tables) -> Option<Start>
    requires { (past : List Row) × IsTabled tables.now past }
    ensures { (past : List Row) → IsTabled tables.now past → IsNextStart past result }
{
    log_laws();
    for running in tables.world.running.as_slice() {
        let place = place_of(running.execution);
        if let Some(leaf) = tables.executions[place].progress.first_startable() {
            return Some(Start { place, leaf });
        }
    }
    None
}

/// The claim of a leaf for a worker, where its node is not refused now.
fn claim_of(
    tables: &Tables,
    alloc: Global,
    start: Start,
    worker: u32,
    at: i64,
) -> Result<Change, NoMemory>
    requires { (past : List Row) × IsTabled tables.now past × IsStart past start }
    ensures { (past : List Row) → IsTabled tables.now past → IsStart past start →
        IsChecked past start None → IfOk result (λ change. IsClaim past at worker change) }
{
    log_laws();
    let execution = &tables.executions[start.place];
    let words = execution.words(alloc, start.leaf)?;
    let number = execution.number;
    let claimed = OpenLeaf {
        execution: number,
        leaf: start.leaf,
        worker,
    };
    let row = begin_row(alloc, at, number, execution.leaf_number(start.leaf), worker);
    Ok(Change {
        outcome: Outcome::Task { claimed, words },
        row,
        effect: TableEffect::Begin(start.place, start.leaf, worker),
    })
}

/// The second check: the decision on the node of a leaf that opens its unit, where whoever asked
/// for the execution may not run that node any more. While the policies are those of its acceptance
/// there is nothing to decide.
fn refused_again(tables: &Tables, alloc: Global, start: Start) -> Result<Option<Decision>, NoMemory>
    requires { (past : List Row) × IsTabled tables.now past × IsStart past start }
    ensures { (past : List Row) → IsTabled tables.now past → IsStart past start →
        IfOk result (IsChecked past start) }
{
    log_laws();
    accepted_may_be_run();
    let execution = &tables.executions[start.place];
    let Progress::Going(going) = &execution.progress else {
        return Ok(None);
    };
    if execution.policy_number == tables.world.policy_number {
        return Ok(None);
    }
    if !tables.checks || !going.flow.opens(start.leaf) {
        return Ok(None);
    }
    let node = &going.nodes.as_slice()[start.leaf.node as usize];
    let policies = &tables.world.policies;
    let project = execution.project.as_str();
    let decision = node_run(alloc, policies, &execution.caller, project, node)?;
    if is_allowed(decision) {
        Ok(None)
    } else {
        Ok(Some(decision))
    }
}

/// The withdrawal of the node of a leaf, by this decision.
fn withdrawal_of(
    tables: &Tables,
    alloc: Global,
    start: Start,
    decision: Decision,
    at: i64,
) -> Result<Change, NoMemory>
    requires { (past : List Row) × IsTabled tables.now past × IsStart past start
        × IsChecked past start (Some decision) }
    ensures { (past : List Row) (worker : ℕ) → IsTabled tables.now past → IsStart past start →
        IsChecked past start (Some decision) →
        IfOk result (λ change. IsClaim past at worker change) }
{
    log_laws();
    let execution = &tables.executions[start.place];
    let number = execution.number;
    let node = start.leaf.node;
    let name = execution.nodes.as_slice()[node as usize].copy(alloc)?;
    let clause = decision_text(alloc, &tables.world.policies, decision)?;
    Ok(Change {
        outcome: Outcome::Withdrawn {
            execution: number,
            node: name,
            decision,
        },
        row: withdraw_row(alloc, at, number, node, tables.world.policy_number),
        effect: TableEffect::Withdraw(WithdrawEffect {
            place: start.place,
            new: WithdrawnNode { node, clause },
        }),
    })
}

/// What becomes of a leaf: it begins for the worker, or its node is withdrawn.
fn taken(
    tables: &Tables,
    alloc: Global,
    start: Start,
    worker: u32,
    at: i64,
) -> Result<Change, NoMemory>
    requires { (past : List Row) × IsTabled tables.now past × IsStart past start }
    ensures { (past : List Row) → IsTabled tables.now past → IsStart past start →
        IfOk result (λ change. IsClaim past at worker change) }
{
    match refused_again(tables, alloc, start)? {
        None => claim_of(tables, alloc, start, worker, at),
        Some(decision) => withdrawal_of(tables, alloc, start, decision, at),
    }
}

/// What is decided of a claim.
pub fn claim(tables: &Tables, alloc: Global, worker: u32, at: i64) -> Result<Change, Answer>
    requires { (past : List Row) × IsTabled tables.now past }
    ensures { (past : List Row) → IsTabled tables.now past →
        Decided past (calls.Claim worker at) result }
{
    if is_closed(tables) {
        return Err(Answer::Closed);
    }
    match next_start(tables) {
        None => Err(Answer::Idle),
        Some(start) => Ok(taken(tables, alloc, start, worker, tables.moment(at))?),
    }
}
