//! What is decided of a run that is asked for.
ghost use Rattle.rb_causes.specs.declared.row.Row.{Row};
ghost use Rattle.rb_log.specs.Rows.{is_clean_caller};
ghost use Rattle.rb_log.specs.World.{count_of, latest_of};
ghost use Rattle.rb_log.specs.declared.call.Call.TheVariants as calls;
ghost use Rattle.rb_plan.specs.Acceptance.{acceptance};
ghost use Rattle.rb_log.specs.Executions.{Execution as LoggedExecution};
ghost use Rattle.rb_runs.specs.Asking.{BeginsEffect, BeginsExecution, MayBegin, begun_outcome, fired_id};
ghost use Rattle.rb_tables.specs.Changes.{Decided};
ghost use Rattle.rb_tables.specs.Tables.{IsOf, IsTabled};
ghost use Rattle.std.specs.Prelude.{◌≡◌, ◌≤◌, ◌+◌, ◌^◌, List, length, IfOk, IsTrue};

use crate::beginning::{accept_row, as_running, need_of, room_for, started};
use crate::laws::run_laws;
use crate::refusing::refusal_reason;
use rb_acl::Caller;
use rb_causes::{NoMemory, Text};
use rb_log::Answer;
use rb_plan::{Accepted, RunAsk, VerdictErr, verdict};
use rb_tables::change::{Change, Outcome, RunEffect, TableEffect};
use rb_tables::execution::Execution;
use rb_tables::latest::latest_of;
use rb_tables::tables::Tables;
use rb_tables::views::view_of;
use std::alloc::Global;

/// The number of the next execution.
pub(crate) fn next_number(tables: &Tables) -> u64
    ensures number { result ≡ length tables.now.executions.items + 1 }
    ensures low { result ≤ 2 ^ 63 }
{
    tables.executions.len() as u64 + 1
}

/// By which the nodes of the next execution are drawn.
pub(crate) fn draw_number(tables: &Tables) -> u64
    requires { (past : List Row) × IsTabled tables.now past }
    ensures { result ≡ tables.now.draw + (length tables.now.executions.items + 1) }
{
    tables.draw + next_number(tables)
}

/// How often the nodes of the project of this name were imported.
fn nodes_number(tables: &Tables, project: &str) -> u64
    ensures { result ≡ count_of (latest_of project.now tables.now.nodes.items) }
{
    match latest_of(tables.nodes.as_slice(), project) {
        None => 0,
        Some(latest) => latest.count,
    }
}

/// What is answered where an execution has begun: what it is to a caller, and its number to a
/// schedule.
fn begun(alloc: Global, execution: &Execution, due: Option<u64>) -> Result<Outcome, NoMemory>
    ensures { (l : LoggedExecution) → IsOf execution.now l →
        IfOk result (λ outcome. outcome ≡ begun_outcome l due) }
{
    match due {
        None => Ok(Outcome::Accepted(view_of(alloc, execution)?)),
        Some(_) => Ok(Outcome::Fired(execution.number)),
    }
}

/// The id of the job that a schedule fires, where one asked.
fn fired(alloc: Global, ask: &RunAsk, due: Option<u64>) -> Result<Option<Text>, NoMemory>
    ensures { IfOk result (λ fired. fired ≡ fired_id ask.now due) }
{
    match due {
        None => Ok(None),
        Some(_) => Ok(Some(ask.job.copy(alloc)?)),
    }
}

/// What becomes of the tables where the execution of this number begins.
fn run_effect(
    tables: &Tables,
    alloc: Global,
    number: u64,
    at: i64,
    caller: Caller,
    ask: &RunAsk,
    due: Option<u64>,
    accepted: Accepted,
) -> Result<RunEffect, NoMemory>
    requires { MayBegin tables.now.world.policies (acceptance accepted) }
    ensures { IfOk result (BeginsEffect tables.now.world number at caller ask.now due
        (acceptance accepted)) }
{
    let need = need_of(&accepted);
    let fired = fired(alloc, ask, due)?;
    let room = room_for(alloc, tables.world.running.as_slice())?;
    let execution = started(alloc, &tables.world, number, at, caller, accepted)?;
    let new = as_running(alloc, &execution)?;
    Ok(RunEffect {
        need,
        fired,
        execution,
        new,
        room,
    })
}

/// What begins the next execution. A schedule asks for an instant.
pub(crate) fn begin_run(
    tables: &Tables,
    alloc: Global,
    at: i64,
    caller: Caller,
    ask: &RunAsk,
    due: Option<u64>,
    accepted: Accepted,
) -> Result<Change, NoMemory>
    requires { MayBegin tables.now.world.policies (acceptance accepted) }
    ensures { IfOk result (BeginsExecution tables.now.world (length tables.now.executions.items)
        (count_of (latest_of accepted.project tables.now.nodes.items)) at caller ask.now due
        (acceptance accepted)) }
{
    let number = next_number(tables);
    let policies = tables.world.policy_number;
    let inventory = nodes_number(tables, accepted.project.as_str());
    let row = accept_row(alloc, at, number, policies, inventory, &caller, ask, due)?;
    let effect = run_effect(tables, alloc, number, at, caller, ask, due, accepted)?;
    let outcome = begun(alloc, &effect.execution, due)?;
    Ok(Change {
        outcome,
        row,
        effect: TableEffect::Run(effect),
    })
}

/// What is decided of a run that is asked for.
pub fn run(
    tables: &Tables,
    alloc: Global,
    caller: Caller,
    ask: RunAsk,
    at: i64,
) -> Result<Change, Answer>
    requires { (past : List Row) × IsTabled tables.now past }
    ensures { (past : List Row) → IsTabled tables.now past → IsTrue (is_clean_caller caller) →
        Decided past (calls.Run caller ask at) result }
{
    run_laws();
    let at = tables.moment(at);
    match verdict(alloc, &tables.world, &caller, &ask, draw_number(tables)) {
        Ok(accepted) => Ok(begin_run(tables, alloc, at, caller, &ask, None, accepted)?),
        Err(VerdictErr::NoMemory) => Err(Answer::NoMemory),
        Err(VerdictErr::Refused(refusal)) => {
            let job = ask.job.as_str();
            let reason = refusal_reason(alloc, &tables.world, &caller, job, &refusal)?;
            Err(Answer::Refused(refusal, reason))
        }
    }
}
