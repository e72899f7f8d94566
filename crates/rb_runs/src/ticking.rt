//! What is decided of a tick.
ghost use Rattle.rb_causes.specs.declared.row.Row.{Row};
ghost use Rattle.rb_cron.specs.Next.{natural_of};
ghost use Rattle.rb_log.specs.declared.call.Call.TheVariants as calls;
ghost use Rattle.rb_plan.specs.Refusals.{refusal_number};
ghost use Rattle.rb_log.specs.Asks.{scheduled_ask};
ghost use Rattle.rb_log.specs.Rows.{is_clean_caller};
ghost use Rattle.rb_log.specs.Ticks.{DueJob as LoggedDue, first_by_id, instant_number, lesser_id};
ghost use Rattle.rb_runs.specs.Ticking.{AreDue, IsDueJob, IsDueOf, IsJobAt, IsPlaceIn, IsSkipped, IsTick, MayBeDueJob, due_among, due_in};
ghost use Rattle.rb_tables.specs.Changes.{Decided};
ghost use Rattle.rb_tables.specs.Tables.{IsTabled};
ghost use Rattle.std.specs.Cmp.Lexicographic.{slice_cmp};
ghost use Rattle.std.specs.Ordering.{is_gt, nat_cmp};
ghost use Rattle.std.specs.Prelude.{◌≡◌, ◌++◌, IfOk, IfSome, IsTrue, List, Option};

use crate::asking::{begin_run, draw_number};
use crate::laws::run_laws;
use rb_causes::{Items, NoMemory, Text};
use rb_log::Answer;
use rb_plan::{HeldJob, Refusal, RunAsk, VerdictErr, verdict};
use rb_tables::change::{Change, Outcome, TableEffect};
use rb_tables::duplicate::Duplicate;
use rb_tables::rows::skipped_row;
use rb_tables::tables::Tables;
use std::alloc::Global;
use std::cmp::Ordering;

/// Where a job is held: the place of its project, and its own in it.
#[derive(Clone, Copy)]
struct JobPlace {
    project: usize,
    job: usize,
}

/// A job that is due.
#[derive(Clone, Copy)]
struct DueJob {
    place: JobPlace,
    instant: i64,
}

/// The job at a place.
fn job_at(tables: &Tables, place: JobPlace) -> &HeldJob
    requires { IsPlaceIn tables.now.world.projects place }
    ensures { IsJobAt tables.now.world.projects place result.now }
{
    &tables.world.projects.as_slice()[place.project]
        .jobs
        .as_slice()[place.job]
}

/// Whether the id of the first job is greater than that of the other.
fn is_behind(tables: &Tables, first: JobPlace, other: JobPlace) -> bool
    requires first { IsPlaceIn tables.now.world.projects first }
    requires other { IsPlaceIn tables.now.world.projects other }
    ensures { (x y : HeldJob) → IsJobAt tables.now.world.projects first x →
        IsJobAt tables.now.world.projects other y →
        result ≡ is_gt (slice_cmp nat_cmp x.id y.id) }
{
    let first = job_at(tables, first).id.as_str();
    first.cmp(job_at(tables, other).id.as_str()) == Ordering::Greater
}

/// The one of the lesser id.
fn lesser_id(tables: &Tables, first: DueJob, other: Option<DueJob>) -> DueJob
    requires first { IsPlaceIn tables.now.world.projects first.place }
    requires other { IfSome other (λ d. IsPlaceIn tables.now.world.projects d.place) }
    ensures { (x : LoggedDue) (y : Option LoggedDue) → IsDueJob tables.now.world.projects first x →
        MayBeDueJob tables.now.world.projects other y →
        IsDueJob tables.now.world.projects result (lesser_id x y) }
{
    match other {
        None => first,
        Some(other) => {
            if is_behind(tables, first.place, other.place) {
                other
            } else {
                first
            }
        }
    }
}

/// The first in order of id of the jobs of a project that are due, and of one behind them.
fn first_in(tables: &Tables, project: usize, now: i64, behind: Option<DueJob>) -> Option<DueJob>
    requires of { IsDueOf tables.now project }
    requires behind { IfSome behind (λ d. IsPlaceIn tables.now.world.projects d.place) }
    ensures { (rest : List LoggedDue) →
        MayBeDueJob tables.now.world.projects behind (first_by_id rest) →
        MayBeDueJob tables.now.world.projects result
        (first_by_id (due_in now tables.now.world.projects project ++ rest)) }
{
    let due = tables.due[project].as_slice();
    let mut first = behind;
    let mut job = due.len();
    while job > 0 {
        job -= 1;
        if let Some(instant) = due[job] {
            if instant <= now {
                let place = JobPlace { project, job };
                first = Some(lesser_id(tables, DueJob { place, instant }, first));
            }
        }
    }
    first
}

/// The first job in order of id that is due.
fn first_due(tables: &Tables, now: i64) -> Option<DueJob>
    requires { AreDue tables.now }
    ensures { MayBeDueJob tables.now.world.projects result
        (first_by_id (due_among now tables.now.world.projects)) }
{
    let mut first = None;
    let mut project = tables.due.len();
    while project > 0 {
        project -= 1;
        first = first_in(tables, project, now, first);
    }
    first
}

/// What a schedule asks of a job: no values, and no filter.
fn scheduled_ask(alloc: Global, job: &str) -> Result<RunAsk, NoMemory>
    ensures { IfOk result (λ ask. ask ≡ scheduled_ask job.now) }
{
    Ok(RunAsk {
        job: Text::of(alloc, job)?,
        given: Items::new(alloc),
        filter: None,
    })
}

/// The number under which a refusal is kept.
fn refusal_number(refusal: &Refusal) -> u64
    ensures { result ≡ refusal_number refusal.now }
{
    match refusal {
        Refusal::NoJob => 1,
        Refusal::JobDenied(_) => 2,
        Refusal::BadReference { .. } => 3,
        Refusal::ReferenceDenied { .. } => 4,
        Refusal::Disabled => 5,
        Refusal::AlreadyRunning(_) => 6,
        Refusal::BadOption { .. } => 7,
        Refusal::NoNodeSelected => 8,
        Refusal::NoNodeAllowed { .. } => 9,
        Refusal::TooLarge(_) => 10,
    }
}

/// A due job is skipped.
fn skip(
    alloc: Global,
    held: &HeldJob,
    instant: u64,
    refusal: &Refusal,
    at: i64,
) -> Result<Change, NoMemory>
    ensures { IfOk result (IsSkipped held.now instant refusal.now at) }
{
    let job = held.id.copy(alloc)?;
    let id = held.id.copy(alloc)?;
    Ok(Change {
        outcome: Outcome::Fired(0),
        row: skipped_row(alloc, at, instant, refusal_number(refusal), job),
        effect: TableEffect::Skip(id),
    })
}

/// A due job is fired, or skipped where its run is refused.
fn fire(
    tables: &Tables,
    alloc: Global,
    held: &HeldJob,
    instant: u64,
    at: i64,
) -> Result<Change, NoMemory>
    requires { (past : List Row) × IsTabled tables.now past }
    ensures { (past : List Row) (due : LoggedDue) → IsTabled tables.now past →
        due.held ≡ held.now → instant_number due ≡ instant →
        IsTrue (is_clean_caller due.held.importer) → IfOk result (IsTick past at due) }
{
    run_laws();
    let ask = scheduled_ask(alloc, held.id.as_str())?;
    match verdict(
        alloc,
        &tables.world,
        &held.importer,
        &ask,
        draw_number(tables),
    ) {
        Ok(accepted) => {
            let importer = held.importer.duplicate(alloc)?;
            begin_run(tables, alloc, at, importer, &ask, Some(instant), accepted)
        }
        Err(VerdictErr::NoMemory) => Err(NoMemory),
        Err(VerdictErr::Refused(refusal)) => skip(alloc, held, instant, &refusal, at),
    }
}

/// The number of an instant; one before 1970 has the number 0.
fn instant_number(instant: i64) -> u64
    ensures { result ≡ natural_of instant }
{
    if instant < 0 { 0 } else { instant as u64 }
}

/// What is decided of a tick.
pub fn tick(tables: &Tables, alloc: Global, at: i64) -> Result<Change, Answer>
    requires { (past : List Row) × IsTabled tables.now past }
    ensures { (past : List Row) → IsTabled tables.now past →
        Decided past (calls.Tick at) result }
{
    run_laws();
    let at = tables.moment(at);
    match first_due(tables, at) {
        None => Err(Answer::Quiet),
        Some(DueJob { place, instant }) => {
            let held = job_at(tables, place);
            Ok(fire(tables, alloc, held, instant_number(instant), at)?)
        }
    }
}
