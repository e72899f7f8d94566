//! What an import of jobs is checked for.
ghost use Rattle.rb_acl.specs.Numbering.{AreNumbered};
ghost use Rattle.rb_causes.specs.SeenTexts.{HasSeen};
ghost use Rattle.rb_imports.specs.JobImports.{IsPlace, each_keeps, has_other, holds, holds_elsewhere, ids_free, imported_job, is_called, is_other, is_taken, may_import, name_free};
ghost use Rattle.rb_log.specs.Imports.{changes_any, is_change};
ghost use Rattle.rb_log.specs.World.{job_id};
ghost use Rattle.rb_tables.specs.Changes.{Keeps};
ghost use Rattle.std.specs.List.{list_any};
ghost use Rattle.std.specs.Prelude.{◌≡◌, IfOk, List, ℕ, [], map};

use crate::ids::job_id;
use rb_causes::{Items, NoMemory, SeenTexts, Text};
use rb_job::Job;
use rb_log::{Action, Answer, ImportedJob};
use rb_plan::{Access, HeldJob, Project};
use rb_tables::permissions::{held_under, permitted_on_job, permitted_on_kind};
use rb_tables::sameness::is_same;
use std::alloc::Global;

/// Whether the project has this name.
fn is_called(project: &Project, name: &str) -> bool
    ensures { result ≡ is_called name.now project.now }
{
    project.name.as_str() == name
}

/// The place of the first project of this name.
pub(crate) fn place_of(projects: &[Project], name: &str) -> Option<usize>
    ensures { IsPlace projects.now name.now result }
{
    for (place, project) in projects.iter().enumerate() {
        if is_called(project, name) {
            return Some(place);
        }
    }
    None
}

/// Whether one of these jobs is held under this id.
fn holds(jobs: &[HeldJob], id: &str) -> bool
    ensures { result ≡ holds id.now jobs.now }
{
    jobs.iter().any(|held| held.id.as_str() == id)
}

/// Whether it is another project, and holds a job under this id.
fn holds_elsewhere(project: &Project, name: &str, id: &str) -> bool
    ensures { result ≡ holds_elsewhere name.now id.now project.now }
{
    !is_called(project, name) && holds(project.jobs.as_slice(), id)
}

/// Whether one of the projects is so.
fn any_holds(projects: &[Project], name: &str, id: &str) -> bool
    ensures { result ≡ list_any (holds_elsewhere name.now id.now) projects.now }
{
    projects
        .iter()
        .any(|project| holds_elsewhere(project, name, id))
}

/// Whether another project or an earlier job of the import has the id.
fn is_taken(projects: &[Project], project: &str, earlier: &SeenTexts, id: &str) -> bool
    ensures { (texts : List (List ℕ)) → HasSeen earlier.now texts →
        result ≡ is_taken projects.now project.now texts id.now }
{
    any_holds(projects, project, id) || earlier.holds(id)
}

/// The ids of jobs.
pub(crate) fn ids_of(alloc: Global, project: &str, jobs: &[Job]) -> Result<Items<Text>, NoMemory>
    ensures { IfOk result (λ ids. ids ≡ map (job_id project.now) jobs.now) }
{
    let mut ids = Items::new(alloc);
    for job in jobs {
        ids.push(job_id(alloc, project, job)?)?;
    }
    Ok(ids)
}

/// Refuses the first id that is taken.
pub(crate) fn check_ids(
    alloc: Global,
    projects: &[Project],
    project: &str,
    ids: &[Text],
) -> Result<(), Answer>
    ensures { Keeps (ids_free projects.now project.now [] ids.now) result }
{
    let mut earlier = SeenTexts::new(alloc);
    for id in ids {
        if is_taken(projects, project, &earlier, id.as_str()) {
            return Err(Answer::IdTaken(id.copy(alloc)?));
        }
        earlier.note(alloc, id.as_str())?;
    }
    Ok(())
}

/// Whether the job is held under another id than this, with the group and the name of the other.
fn is_other(held: &HeldJob, id: &str, job: &Job) -> bool
    ensures { result ≡ is_other id.now job.now held.now }
{
    held.id.as_str() != id
        && held.job.group.as_str() == job.group.as_str()
        && held.job.name.as_str() == job.name.as_str()
}

fn any_other(jobs: &[HeldJob], id: &str, job: &Job) -> bool
    ensures { result ≡ list_any (is_other id.now job.now) jobs.now }
{
    jobs.iter().any(|held| is_other(held, id, job))
}

/// Whether it is the project, and another job of it has the group and the name of this one.
fn has_other(project: &Project, name: &str, id: &str, job: &Job) -> bool
    ensures { result ≡ has_other name.now id.now job.now project.now }
{
    is_called(project, name) && any_other(project.jobs.as_slice(), id, job)
}

/// Whether one of the projects is so.
fn any_has(projects: &[Project], name: &str, id: &str, job: &Job) -> bool
    ensures { result ≡ list_any (has_other name.now id.now job.now) projects.now }
{
    projects
        .iter()
        .any(|project| has_other(project, name, id, job))
}

/// Refuses a job whose group and name another job of the project has.
fn check_name_of(
    alloc: Global,
    projects: &[Project],
    project: &str,
    job: &Job,
) -> Result<(), Answer>
    ensures { Keeps (name_free projects.now project.now job.now) result }
{
    let id = job_id(alloc, project, job)?;
    if any_has(projects, project, id.as_str(), job) {
        return Err(Answer::NameTaken(id));
    }
    Ok(())
}

/// Refuses the first such job.
pub(crate) fn check_names(
    alloc: Global,
    projects: &[Project],
    project: &str,
    jobs: &[Job],
) -> Result<(), Answer>
    ensures { Keeps (each_keeps (name_free projects.now project.now) jobs.now) result }
{
    for job in jobs {
        check_name_of(alloc, projects, project, job)?;
    }
    Ok(())
}

/// Refuses a job that the caller may not create or update.
fn check_right(
    alloc: Global,
    access: &Access<'_>,
    projects: &[Project],
    project: &str,
    job: &Job,
) -> Result<(), Answer>
    requires { AreNumbered access.now.policies }
    ensures { Keeps (may_import access.now project.now projects.now job.now) result }
{
    let id = job_id(alloc, project, job)?;
    match held_under(projects, id.as_str()) {
        None => permitted_on_kind(alloc, access, "create", "job"),
        Some(found) => {
            if is_same(&found.held.job, job) {
                return Ok(());
            }
            permitted_on_job(alloc, access, "update", found.held)
        }
    }
}

/// Refuses the first such job.
pub(crate) fn check_rights(
    alloc: Global,
    access: &Access<'_>,
    projects: &[Project],
    project: &str,
    jobs: &[Job],
) -> Result<(), Answer>
    requires { AreNumbered access.now.policies }
    ensures { Keeps (each_keeps (may_import access.now project.now projects.now) jobs.now) result }
{
    for job in jobs {
        check_right(alloc, access, projects, project, job)?;
    }
    Ok(())
}

/// What an import does with a job.
fn imported_job(
    alloc: Global,
    projects: &[Project],
    project: &str,
    job: &Job,
) -> Result<ImportedJob, NoMemory>
    ensures { IfOk result (λ done. done ≡ imported_job project.now projects.now job.now) }
{
    let id = job_id(alloc, project, job)?;
    let action = match held_under(projects, id.as_str()) {
        None => Action::Created,
        Some(found) => {
            if is_same(&found.held.job, job) {
                Action::Same
            } else {
                Action::Updated
            }
        }
    };
    Ok(ImportedJob { id, action })
}

/// What an import does with each of its jobs.
pub(crate) fn imported_jobs(
    alloc: Global,
    projects: &[Project],
    project: &str,
    jobs: &[Job],
) -> Result<Items<ImportedJob>, NoMemory>
    ensures { IfOk result (λ done. done ≡ map (imported_job project.now projects.now) jobs.now) }
{
    let mut done = Items::new(alloc);
    for job in jobs {
        done.push(imported_job(alloc, projects, project, job)?)?;
    }
    Ok(done)
}

fn is_change(action: Action) -> bool
    ensures { result ≡ is_change action }
{
    match action {
        Action::Created => true,
        Action::Updated => true,
        Action::Same => false,
    }
}

/// Whether a job is created or updated.
pub(crate) fn changes_any(jobs: &[ImportedJob]) -> bool
    ensures { result ≡ changes_any jobs.now }
{
    jobs.iter().any(|job| is_change(job.action))
}
