//! What an import of jobs needs of the tables, and what it changes.
ghost use Rattle.rb_acl.specs.Numbering.{AreNumbered};
ghost use Rattle.rb_causes.specs.declared.row.Row.{Row};
ghost use Rattle.rb_imports.specs.Importing.{body_docs, jobs_kept, jobs_moved};
ghost use Rattle.rb_imports.specs.JobImports.{IsPlaceOf, each_keeps, imported_job, is_called, may_import};
ghost use Rattle.rb_log.specs.Imports.{if_checked};
ghost use Rattle.rb_log.specs.LogState.{log_state, zones_in};
ghost use Rattle.rb_log.specs.Moves.{access_in, must};
ghost use Rattle.rb_log.specs.Readings.{jobs_of};
ghost use Rattle.rb_log.specs.Rows.{jobs_kind};
ghost use Rattle.rb_log.specs.World.{jobs_in};
ghost use Rattle.rb_log.specs.declared.answer.Answer.TheVariants as answers;
ghost use Rattle.rb_tables.specs.Changes.{IsJobsEffect, Keeps, IsRefusal, Makes};
ghost use Rattle.rb_tables.specs.Tables.{IsTabled};
ghost use Rattle.std.specs.Prelude.{◌≡◌, IfErr, IfOk, List, find, is_some, map};

use crate::callers::caller_of;
use crate::held_jobs::held_jobs;
use crate::job_imports::{
    changes_any, check_ids, check_names, check_rights, ids_of, imported_jobs, place_of,
};
use crate::node_imports::imported;
use rb_acl::{Caller, Context};
use rb_causes::{Items, NoMemory, Row, Text};
use rb_job::Job;
use rb_log::Answer;
use rb_plan::Access;
use rb_tables::change::{Change, JobsEffect, TableEffect};
use rb_tables::rows::jobs_row;
use rb_tables::tables::Tables;
use std::alloc::Global;

/// The place of the project of this name.
pub(crate) fn find_project(tables: &Tables, name: &str) -> Result<usize, Answer>
    ensures ok { IfOk result (IsPlaceOf tables.now.world.projects name.now) }
    ensures err { IfErr result (IsRefusal (must
        (is_some (find (is_called name.now) tables.now.world.projects)) answers.NoProject)) }
{
    match place_of(tables.world.projects.as_slice(), name) {
        Some(place) => Ok(place),
        None => Err(Answer::NoProject),
    }
}

/// Refuses jobs whose ids or names are not free, or a caller who may not import them.
pub(crate) fn check_jobs(
    tables: &Tables,
    alloc: Global,
    caller: &Caller,
    checked: bool,
    project: &str,
    jobs: &[Job],
) -> Result<(), Answer>
    requires { AreNumbered tables.now.world.policies }
    ensures { (past : List Row) → IsTabled tables.now past →
        Keeps (jobs_kept (log_state past) caller.now checked project.now jobs.now) result }
{
    let projects = tables.world.projects.as_slice();
    let ids = ids_of(alloc, project, jobs)?;
    check_ids(alloc, projects, project, ids.as_slice())?;
    check_names(alloc, projects, project, jobs)?;
    check_job_rights(tables, alloc, caller, checked, project, jobs)
}

/// Refuses a caller who may not create or update one of the jobs, where permission is asked
/// for.
fn check_job_rights(
    tables: &Tables,
    alloc: Global,
    caller: &Caller,
    checked: bool,
    project: &str,
    jobs: &[Job],
) -> Result<(), Answer>
    requires { AreNumbered tables.now.world.policies }
    ensures { (past : List Row) → IsTabled tables.now past →
        Keeps (if_checked checked (each_keeps
        (may_import (access_in (log_state past) project.now caller.now) project.now
        tables.now.world.projects) jobs.now)) result }
{
    if !checked {
        return Ok(());
    }
    let context = Context::Project(Text::of(alloc, project)?);
    let access = Access {
        policies: &tables.world.policies,
        caller,
        context: &context,
    };
    check_rights(
        alloc,
        &access,
        tables.world.projects.as_slice(),
        project,
        jobs,
    )
}

/// What becomes of the tables by a row of jobs in the project at this place. The importer is
/// the caller whom the row names.
fn jobs_effect(
    tables: &Tables,
    alloc: Global,
    row: &Row,
    place: usize,
    jobs: Vec<Job>,
) -> Result<JobsEffect, NoMemory>
    requires { IsPlaceOf tables.now.world.projects row.now.name place }
    ensures { IfOk result (λ e. (past : List Row) → IsTabled tables.now past →
        row.now.kind ≡ jobs_kind → jobs.items ≡ jobs_in (zones_in (log_state past)) row.now →
        IsJobsEffect past row.now e) }
{
    let importer = caller_of(alloc, row.who.as_str())?;
    let new = held_jobs(alloc, row.name.as_str(), &importer, row.at, Items::of(jobs))?;
    let held = tables.world.projects.as_slice()[place]
        .jobs
        .as_slice()
        .len();
    let room = Vec::with_capacity(alloc, held + new.len())?;
    let due_room = Vec::with_capacity(alloc, held + new.len())?;
    Ok(JobsEffect {
        place,
        new,
        room,
        due_room,
    })
}

/// The row of jobs of which one is created or updated.
pub(crate) fn jobs_change(
    tables: &Tables,
    alloc: Global,
    place: usize,
    caller: &Caller,
    checked: bool,
    project: Text,
    body: Text,
    jobs: Vec<Job>,
    at: i64,
) -> Result<Change, Answer>
    requires { IsPlaceOf tables.now.world.projects project place }
    ensures { (past : List Row) → IsTabled tables.now past →
        jobs.items ≡ jobs_of (zones_in (log_state past)) (body_docs body) →
        Makes past (jobs_moved (log_state past) at caller.now checked project body
        (map (imported_job project tables.now.world.projects) jobs.items)) result }
{
    let projects = tables.world.projects.as_slice();
    let done = imported_jobs(alloc, projects, project.as_str(), jobs.as_slice())?;
    let number = tables.jobs_number;
    if !changes_any(done.as_slice()) {
        return Err(Answer::Imported {
            version: number,
            jobs: done,
        });
    }
    let version = number.saturating_add(1);
    let row = jobs_row(
        alloc,
        tables.moment(at),
        version,
        checked,
        project,
        caller,
        body,
    )?;
    let effect = TableEffect::Jobs(jobs_effect(tables, alloc, &row, place, jobs)?);
    Ok(imported(version, done, row, effect))
}
