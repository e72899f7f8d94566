//! A project's jobs as they are shown.
ghost use Rattle.rb_acl.specs.Numbering.{AreNumbered};
ghost use Rattle.rb_log.specs.Looks.{job_view, job_views, view_cmp};
ghost use Rattle.rb_log.specs.World.{ProjectJob};
ghost use Rattle.rb_looks.specs.Looking.{permitted, readable_jobs, shown_in};
ghost use Rattle.std.specs.Prelude.{◌≡◌, ◌++◌, ◌∷◌, [], map, IfOk, List, OnOk};

use crate::reading::job_reads;
use rb_acl::Decision;
use rb_causes::{Items, NoMemory, Text};
use rb_log::JobView;
use rb_plan::{Access, HeldJob, Project, is_allowed};
use std::alloc::Global;
use std::cmp::Ordering;

/// A job as it is shown.
fn job_view(alloc: Global, project: &str, held: &HeldJob) -> Result<JobView, NoMemory>
    ensures { IfOk result (λ view. view ≡ shown_in project.now held.now) }
{
    Ok(JobView {
        group: held.job.group.copy(alloc)?,
        id: held.id.copy(alloc)?,
        name: held.job.name.copy(alloc)?,
        project: Text::of(alloc, project)?,
    })
}

/// The order of two jobs: by group, and within a group by name.
fn view_cmp(one: &JobView, other: &JobView) -> Ordering
    ensures { result ≡ view_cmp one.now other.now }
{
    match one.group.as_str().cmp(other.group.as_str()) {
        Ordering::Less => Ordering::Less,
        Ordering::Greater => Ordering::Greater,
        Ordering::Equal => one.name.as_str().cmp(other.name.as_str()),
    }
}

/// Adds the job as it is shown where the decision allows it.
fn push_permitted(
    alloc: Global,
    project: &str,
    decision: Decision,
    held: &HeldJob,
    views: &mut Vec<JobView>,
) -> Result<(), NoMemory>
    ensures { OnOk result (views.new.items ≡ views.old.items
        ++ map (shown_in project.now) (permitted (decision ∷ []) (held.now ∷ []))) }
{
    if is_allowed(decision) {
        views.push(job_view(alloc, project, held)?)?;
    }
    Ok(())
}

/// Those that the decision in the same place allows, as they are shown.
fn permitted_views(
    alloc: Global,
    project: &str,
    decisions: &[Decision],
    jobs: &[HeldJob],
) -> Result<Vec<JobView>, NoMemory>
    ensures { IfOk result (λ views. views.items
        ≡ map (shown_in project.now) (permitted decisions.now jobs.now)) }
{
    let mut views = Vec::new(alloc);
    for (decision, held) in decisions.iter().zip(jobs.iter()) {
        push_permitted(alloc, project, *decision, held, &mut views)?;
    }
    Ok(views)
}

/// These by group and name. Of equal ones the first stays first.
fn in_order(views: Vec<JobView>) -> Result<Items<JobView>, NoMemory>
    ensures { (jobs : List ProjectJob) → views.items ≡ map job_view jobs →
        IfOk result (λ sorted. sorted ≡ job_views jobs) }
{
    let mut sorted = views;
    sorted.sort_by(|one, other| view_cmp(one, other))?;
    Ok(Items::of(sorted))
}

/// The jobs of a project that the caller may read, by group and name.
pub(crate) fn job_views(
    alloc: Global,
    access: &Access<'_>,
    project: &Project,
) -> Result<Items<JobView>, NoMemory>
    requires { AreNumbered access.now.policies }
    ensures { IfOk result (λ views. views ≡ job_views (readable_jobs access.now project.now)) }
{
    let jobs = project.jobs.as_slice();
    let decisions = job_reads(alloc, access, jobs)?;
    let name = project.name.as_str();
    in_order(permitted_views(alloc, name, decisions.as_slice(), jobs)?)
}
