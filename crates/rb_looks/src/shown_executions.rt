//! A project's executions as they are shown.
ghost use Rattle.rb_acl.specs.Numbering.{AreNumbered};
ghost use Rattle.rb_log.specs.Executions.{Execution as LoggedExecution};
ghost use Rattle.rb_log.specs.Looks.{has_status, page_of, status_number};
ghost use Rattle.rb_looks.specs.Looking.{choice_in, chosen_newest_first, is_chosen, job_ids, may_read, permitted, IsPageOf};
ghost use Rattle.rb_tables.specs.Tables.{AreEntries, IsOf};
ghost use Rattle.std.specs.List.{list_any};
ghost use Rattle.std.specs.Prelude.{◌≡◌, ◌<◌, ◌≤◌, ◌+◌, ◌++◌, ◌∷◌, ◌^◌, [], List, bytes_eq, filter, IfOk, OnOk};

use crate::reading::job_reads;
use rb_acl::Decision;
use rb_causes::{Items, NoMemory};
use rb_log::{Paging, Shown, View};
use rb_marks::Status;
use rb_plan::{Access, HeldJob, Project, is_allowed};
use rb_tables::execution::Execution;
use rb_tables::job_id::JobId;
use rb_tables::views::view_of;
use std::alloc::Global;

/// Which executions are shown: of these jobs, with this status if one is named, and of these so
/// many from a place on.
#[derive(Drop)]
pub(crate) struct PageChoice {
    jobs: Items<JobId>,
    status: Option<Status>,
    max: u64,
    offset: u64,
}

/// How many were chosen so far, and those of them that are shown.
#[derive(Drop)]
struct Page {
    total: u64,
    views: Items<View>,
}

/// Adds the job's id where the decision allows it.
fn push_permitted(
    alloc: Global,
    decision: Decision,
    held: &HeldJob,
    ids: &mut Items<JobId>,
) -> Result<(), NoMemory>
    ensures { OnOk result
        (ids.new ≡ ids.old ++ job_ids (permitted (decision ∷ []) (held.now ∷ []))) }
{
    if is_allowed(decision) {
        ids.push(JobId::of(held.id.copy(alloc)?))?;
    }
    Ok(())
}

/// The ids of those that the decision in the same place allows.
fn permitted_ids(
    alloc: Global,
    decisions: &[Decision],
    jobs: &[HeldJob],
) -> Result<Items<JobId>, NoMemory>
    ensures { IfOk result (λ ids. ids ≡ job_ids (permitted decisions.now jobs.now)) }
{
    let mut ids = Items::new(alloc);
    for (decision, held) in decisions.iter().zip(jobs.iter()) {
        push_permitted(alloc, *decision, held, &mut ids)?;
    }
    Ok(ids)
}

/// The ids of those jobs that the caller may read.
fn readable_ids(
    alloc: Global,
    access: &Access<'_>,
    jobs: &[HeldJob],
) -> Result<Items<JobId>, NoMemory>
    requires { AreNumbered access.now.policies }
    ensures { IfOk result (λ ids. ids ≡ job_ids (filter (may_read access.now) jobs.now)) }
{
    let decisions = job_reads(alloc, access, jobs)?;
    permitted_ids(alloc, decisions.as_slice(), jobs)
}

/// Which executions of a project are shown: of its jobs that the caller may read.
pub(crate) fn choice_in(
    alloc: Global,
    access: &Access<'_>,
    project: &Project,
    max: u64,
    offset: u64,
    status: Option<Status>,
) -> Result<PageChoice, NoMemory>
    requires { AreNumbered access.now.policies }
    ensures { IfOk result (λ choice.
        choice ≡ choice_in access.now project.now max offset status) }
{
    let jobs = readable_ids(alloc, access, project.jobs.as_slice())?;
    Ok(PageChoice {
        jobs,
        status,
        max,
        offset,
    })
}

fn status_number(status: Status) -> u32
    ensures { result ≡ status_number status }
{
    match status {
        Status::Running => 0,
        Status::Succeeded => 1,
        Status::Failed => 2,
        Status::Aborted => 3,
        Status::Incomplete => 4,
    }
}

/// Whether it has the status, if one is named.
fn has_status(status: Option<Status>, execution: &Execution) -> bool
    ensures { (l : LoggedExecution) → IsOf execution.now l → result ≡ has_status status l }
{
    match status {
        None => true,
        Some(wanted) => status_number(wanted) == status_number(execution.progress.status()),
    }
}

/// Whether the id is one of these.
fn is_among(ids: &[JobId], id: &JobId) -> bool
    ensures { result ≡ list_any (λ one. bytes_eq one id.now) ids.now }
{
    ids.iter().any(|one| one.is(id))
}

/// Whether the execution is one of those that are asked for.
fn is_chosen(choice: &PageChoice, execution: &Execution) -> bool
    ensures { (l : LoggedExecution) → IsOf execution.now l → result ≡ is_chosen choice.now l }
{
    is_among(choice.jobs.as_slice(), &execution.job) && has_status(choice.status, execution)
}

/// One more was chosen.
fn add(
    alloc: Global,
    choice: &PageChoice,
    execution: &Execution,
    page: &mut Page,
) -> Result<(), NoMemory>
    requires { page.old.total < 2 ^ 63 }
    ensures shown { OnOk result ((found : List LoggedExecution) (l : LoggedExecution) →
        IsOf execution.now l → IsPageOf choice.now found page.old.total page.old.views →
        IsPageOf choice.now (found ++ l ∷ []) page.new.total page.new.views) }
    ensures total { OnOk result (page.new.total ≡ page.old.total + 1) }
{
    if page.total >= choice.offset && (page.views.len() as u64) < choice.max {
        page.views.push(view_of(alloc, execution)?)?;
    }
    page.total += 1;
    Ok(())
}

/// One more is chosen where it is one of those that are asked for.
fn add_chosen(
    alloc: Global,
    choice: &PageChoice,
    execution: &Execution,
    page: &mut Page,
) -> Result<(), NoMemory>
    requires { page.old.total < 2 ^ 63 }
    ensures shown { OnOk result ((found : List LoggedExecution) (l : LoggedExecution) →
        IsOf execution.now l → IsPageOf choice.now found page.old.total page.old.views →
        IsPageOf choice.now (found ++ filter (is_chosen choice.now) (l ∷ [])) page.new.total
        page.new.views) }
    ensures total { OnOk result (page.new.total ≤ page.old.total + 1) }
{
    if is_chosen(choice, execution) {
        add(alloc, choice, execution, page)?;
    }
    Ok(())
}

/// What is shown of these executions, newest first.
fn page_of(alloc: Global, choice: &PageChoice, executions: &[Execution]) -> Result<Page, NoMemory>
    ensures { (ls : List LoggedExecution) → AreEntries executions.now ls →
        IfOk result (λ page. IsPageOf choice.now
        (chosen_newest_first choice.now ls) page.total page.views) }
{
    let mut page = Page {
        total: 0,
        views: Items::new(alloc),
    };
    let mut left = executions.len();
    while left > 0 {
        left -= 1;
        add_chosen(alloc, choice, &executions[left], &mut page)?;
    }
    Ok(page)
}

/// A page of these executions, newest first.
pub(crate) fn shown_page(
    alloc: Global,
    choice: &PageChoice,
    executions: &[Execution],
) -> Result<Shown, NoMemory>
    ensures { (ls : List LoggedExecution) → AreEntries executions.now ls →
        IfOk result (λ shown. shown
        ≡ page_of (chosen_newest_first choice.now ls) choice.now.max choice.now.offset) }
{
    let Page { total, views } = page_of(alloc, choice, executions)?;
    let count = views.len() as u64;
    Ok(Shown::Executions {
        executions: views,
        paging: Paging {
            count,
            max: choice.max,
            offset: choice.offset,
            total,
        },
    })
}
