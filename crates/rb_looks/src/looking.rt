//! Looks at executions, jobs and nodes.
ghost use Rattle.rb_acl.specs.Numbering.{AreNumbered};
ghost use Rattle.rb_causes.specs.declared.row.Row.{Row};
ghost use Rattle.rb_log.specs.Executions.{Execution as LoggedExecution};
ghost use Rattle.rb_log.specs.LogState.{log_state};
ghost use Rattle.rb_log.specs.Looks.{look_at};
ghost use Rattle.rb_log.specs.declared.call.Call.TheVariants as calls;
ghost use Rattle.rb_log.specs.declared.call.Look.TheVariants as looks;
ghost use Rattle.rb_looks.specs.Looking.{executions_in, jobs_looked_at, nodes_looked_at, readable, IsReadable, ShowsOrAnswers};
ghost use Rattle.rb_tables.specs.Changes.{IsRefusal, IsSettled};
ghost use Rattle.rb_tables.specs.Statuses.{status_in};
ghost use Rattle.rb_tables.specs.Tables.{AreEntries, IsTabled};
ghost use Rattle.std.specs.Option.{option_copied};
ghost use Rattle.std.specs.Prelude.{◌≡◌, bytes_eq, find, nat_eq, IfErr, IfOk, List};

use crate::laws::look_laws;
use crate::shown_executions::{choice_in, shown_page};
use crate::shown_jobs::job_views;
use crate::shown_nodes::readable_nodes;
use crate::shown_states::execution_state;
use rb_acl::{Caller, Context};
use rb_causes::Text;
use rb_log::{Answer, Look, Shown};
use rb_marks::Status;
use rb_plan::{Access, Project, World};
use rb_tables::execution::Execution;
use rb_tables::permissions::permitted_on_kind;
use rb_tables::tables::Tables;
use rb_tables::views::view_of;
use std::alloc::Global;

/// The project of this name.
fn project_named<'a>(projects: &'a [Project], name: &str) -> Option<&'a Project>
    ensures { option_copied result ≡ find (λ p. bytes_eq p.name name.now) projects.now }
{
    projects
        .iter()
        .find(|project| project.name.as_str() == name)
}

/// The execution of this number.
fn execution_numbered(executions: &[Execution], number: u64) -> Option<&Execution>
    ensures { option_copied result ≡ find (λ e. nat_eq e.number number) executions.now }
{
    executions
        .iter()
        .find(|execution| execution.number == number)
}

/// The jobs of a project that the caller may read.
fn jobs_looked_at(
    alloc: Global,
    world: &World,
    caller: &Caller,
    project: &str,
) -> Result<Shown, Answer>
    requires { AreNumbered world.now.policies }
    ensures { ShowsOrAnswers (jobs_looked_at world.now caller.now project.now) result }
{
    match project_named(world.projects.as_slice(), project) {
        None => Err(Answer::NoProject),
        Some(found) => {
            let context = Context::Project(found.name.copy(alloc)?);
            let access = Access {
                policies: &world.policies,
                caller,
                context: &context,
            };
            Ok(Shown::Jobs(job_views(alloc, &access, found)?))
        }
    }
}

/// The nodes of a project that the caller may read.
fn nodes_looked_at(
    alloc: Global,
    world: &World,
    caller: &Caller,
    project: &str,
) -> Result<Shown, Answer>
    requires { AreNumbered world.now.policies }
    ensures { ShowsOrAnswers (nodes_looked_at world.now caller.now project.now) result }
{
    match project_named(world.projects.as_slice(), project) {
        None => Err(Answer::NoProject),
        Some(found) => {
            let context = Context::Project(Text::of(alloc, project)?);
            let access = Access {
                policies: &world.policies,
                caller,
                context: &context,
            };
            permitted_on_kind(alloc, &access, "read", "node")?;
            let nodes = found.inventory.nodes.as_slice();
            Ok(Shown::Resources(readable_nodes(alloc, &access, nodes)?))
        }
    }
}

/// The execution of this number, where the caller may read its job.
fn readable<'a>(
    tables: &'a Tables,
    alloc: Global,
    caller: &Caller,
    number: u64,
) -> Result<&'a Execution, Answer>
    requires { (past : List Row) × IsTabled tables.now past }
    ensures ok { (past : List Row) → IsTabled tables.now past →
        IfOk result (λ e. IsReadable (log_state past) caller.now number e.now) }
    ensures err { (past : List Row) → IsTabled tables.now past →
        IfErr result (IsRefusal (readable (log_state past) caller.now number)) }
{
    look_laws();
    match execution_numbered(tables.executions.as_slice(), number) {
        None => Err(Answer::NoExecution),
        Some(execution) => {
            tables.may_act_on(alloc, caller, "read", execution.job.as_str())?;
            Ok(execution)
        }
    }
}

/// An execution, where the caller may read its job.
fn execution_shown(
    tables: &Tables,
    alloc: Global,
    caller: &Caller,
    number: u64,
) -> Result<Shown, Answer>
    requires { (past : List Row) × IsTabled tables.now past }
    ensures { (past : List Row) → IsTabled tables.now past →
        ShowsOrAnswers (look_at (log_state past) caller.now (looks.Execution number)) result }
{
    let execution = readable(tables, alloc, caller, number)?;
    Ok(Shown::Execution(view_of(alloc, execution)?))
}

/// The state of an execution, where the caller may read its job.
fn state_shown(
    tables: &Tables,
    alloc: Global,
    caller: &Caller,
    number: u64,
) -> Result<Shown, Answer>
    requires { (past : List Row) × IsTabled tables.now past }
    ensures { (past : List Row) → IsTabled tables.now past →
        ShowsOrAnswers (look_at (log_state past) caller.now (looks.State number)) result }
{
    let execution = readable(tables, alloc, caller, number)?;
    Ok(execution_state(alloc, execution)?)
}

/// A page of a project's executions whose jobs the caller may read.
fn executions_in(
    tables: &Tables,
    alloc: Global,
    caller: &Caller,
    project: &str,
    max: u64,
    offset: u64,
    status: Option<Status>,
) -> Result<Shown, Answer>
    requires { AreNumbered tables.now.world.policies }
    ensures { (ls : List LoggedExecution) → AreEntries tables.now.executions.items ls →
        ShowsOrAnswers
        (executions_in tables.now.world ls caller.now project.now max offset status)
        result }
{
    match project_named(tables.world.projects.as_slice(), project) {
        None => Err(Answer::NoProject),
        Some(found) => {
            let context = Context::Project(found.name.copy(alloc)?);
            let access = Access {
                policies: &tables.world.policies,
                caller,
                context: &context,
            };
            let choice = choice_in(alloc, &access, found, max, offset, status)?;
            Ok(shown_page(alloc, &choice, tables.executions.as_slice())?)
        }
    }
}

/// What is shown, or the answer by which a look is refused.
fn shown(tables: &Tables, alloc: Global, caller: &Caller, look: &Look) -> Result<Shown, Answer>
    requires { (past : List Row) × IsTabled tables.now past }
    ensures { (past : List Row) → IsTabled tables.now past →
        ShowsOrAnswers (look_at (log_state past) caller.now look.now) result }
{
    match look {
        Look::Execution(number) => execution_shown(tables, alloc, caller, *number),
        Look::State(number) => state_shown(tables, alloc, caller, *number),
        Look::Jobs(project) => jobs_looked_at(alloc, &tables.world, caller, project.as_str()),
        Look::Resources(project) => nodes_looked_at(alloc, &tables.world, caller, project.as_str()),
        Look::Executions {
            project,
            max,
            offset,
            status,
        } => executions_in(
            tables,
            alloc,
            caller,
            project.as_str(),
            *max,
            *offset,
            *status,
        ),
    }
}

/// The status of the execution of this number.
pub fn status(tables: &Tables, number: u64) -> Option<Status>
    ensures { (past : List Row) → IsTabled tables.now past →
        result ≡ status_in (log_state past) number }
{
    match execution_numbered(tables.executions.as_slice(), number) {
        None => None,
        Some(execution) => Some(execution.progress.status()),
    }
}

/// What a look shows.
pub fn look_at(tables: &Tables, alloc: Global, caller: Caller, look: Look) -> Answer
    requires { (past : List Row) × IsTabled tables.now past }
    ensures { (past : List Row) → IsTabled tables.now past →
        IsSettled past (calls.Look caller look) result }
{
    match shown(tables, alloc, &caller, &look) {
        Ok(shown) => Answer::Shown(shown),
        Err(answer) => answer,
    }
}
