//! What is decided of an abort.
ghost use Rattle.rb_causes.specs.declared.row.Row.{Row};
ghost use Rattle.rb_log.specs.Executions.{Execution as LoggedExecution, executions, is_running};
ghost use Rattle.rb_log.specs.Moves.{must};
ghost use Rattle.rb_log.specs.declared.answer.Answer.TheVariants as answers;
ghost use Rattle.rb_log.specs.declared.call.Call.TheVariants as calls;
ghost use Rattle.rb_marks.specs.First.{stops};
ghost use Rattle.rb_runs.specs.Aborting.{Finds};
ghost use Rattle.rb_tables.specs.Changes.{Decided, Keeps};
ghost use Rattle.rb_tables.specs.Running.{aborted_status};
ghost use Rattle.rb_tables.specs.Tables.{IsOf, IsTabled};
ghost use Rattle.std.specs.List.{list_any};
ghost use Rattle.std.specs.Prelude.{◌≡◌, ◌<◌, length, slice_get, List, not, Some, true};

use rb_acl::Caller;
use rb_log::Answer;
use rb_marks::{Mark, Status};
use rb_tables::change::{Change, Outcome, TableEffect};
use rb_tables::execution::Execution;
use rb_tables::laws::log_laws;
use rb_tables::owing::place_of;
use rb_tables::progress::Progress;
use rb_tables::running_rows::abort_row;
use rb_tables::tables::Tables;
use std::alloc::Global;

/// Whether an abort or a loss is among these.
fn has_stop(marks: &[Mark]) -> bool
    ensures { result ≡ list_any stops marks.now }
{
    marks
        .iter()
        .any(|mark| matches!(mark, Mark::Abort | Mark::Lost))
}

/// Refuses where a stop is among these.
fn must_have_no_stop(marks: &[Mark]) -> Result<(), Answer>
    ensures { Keeps (must (not (list_any stops marks.now)) answers.Aborting) result }
{
    if has_stop(marks) {
        Err(Answer::Aborting)
    } else {
        Ok(())
    }
}

/// Refuses where one that runs was stopped before.
fn must_go_on(execution: &Execution) -> Result<(), Answer>
    ensures { (l : LoggedExecution) → IsOf execution.now l → is_running l ≡ true →
        Keeps (must (not (list_any stops l.marks)) answers.Aborting) result }
{
    match &execution.progress {
        Progress::Going(going) => must_have_no_stop(going.flow.marks()),
        Progress::Over(_) => Err(Answer::Ended),
    }
}

/// The place of the execution of this number.
fn find(tables: &Tables, number: u64) -> Result<usize, Answer>
    ensures { (past : List Row) → IsTabled tables.now past → Finds past number result }
{
    log_laws();
    if number == 0 || number > tables.executions.len() as u64 {
        return Err(Answer::NoExecution);
    }
    Ok(place_of(number))
}

/// Refuses where the execution at a place does not run any more.
fn must_run(tables: &Tables, place: usize) -> Result<(), Answer>
    requires { place < length tables.now.executions.items }
    ensures { (past : List Row) (e : LoggedExecution) → IsTabled tables.now past →
        slice_get (executions past) place ≡ Some e →
        Keeps (must (is_running e) answers.Ended) result }
{
    log_laws();
    if tables.runs(place) {
        Ok(())
    } else {
        Err(Answer::Ended)
    }
}

/// The status of an execution that runs, once it is aborted: it goes on as long as a leaf of it
/// is open.
fn aborted_status(tables: &Tables, number: u64) -> Status
    ensures { result ≡ aborted_status number tables.now.leaves.items }
{
    if tables.has_open_leaf(number) {
        Status::Running
    } else {
        Status::Aborted
    }
}

/// What is decided of an abort.
pub fn abort(
    tables: &Tables,
    alloc: Global,
    caller: Caller,
    execution: u64,
    at: i64,
) -> Result<Change, Answer>
    requires { (past : List Row) × IsTabled tables.now past }
    ensures { (past : List Row) → IsTabled tables.now past →
        Decided past (calls.Abort caller execution at) result }
{
    log_laws();
    let place = find(tables, execution)?;
    let found = &tables.executions[place];
    tables.may_act_on(alloc, &caller, "kill", found.job.as_str())?;
    must_run(tables, place)?;
    must_go_on(found)?;
    Ok(Change {
        outcome: Outcome::Aborted(aborted_status(tables, execution)),
        row: abort_row(alloc, tables.moment(at), execution, &caller)?,
        effect: TableEffect::Abort(place),
    })
}
