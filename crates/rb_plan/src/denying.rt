//! Whether the caller may run each job that is referred to.
ghost use Rattle.rb_plan.specs.Access.{job_run};
ghost use Rattle.rb_plan.specs.Resolved.{label, resolved_act, resolved_job};
ghost use Rattle.rb_plan.specs.References.{act_visits, denied_reference, first_denied};
ghost use Rattle.rb_plan.specs.Walked.{TellsRefusal, RefusesReference, deeper, all_visits};
ghost use Rattle.rb_plan.specs.Worlds.{referred_job};
ghost use Rattle.std.specs.Prelude.{◌++◌, ◌∷◌, []};

use crate::access::is_allowed;
use crate::finding::referred_job;
use crate::job_access::JobAccess;
use crate::paths::path_below;
use crate::refusal::{Refusal, VerdictErr};
use crate::walking::LEVELS;
use crate::world::{HeldJob, Project};
use rb_causes::{Items, Text};
use rb_job::{JobAct, JobStep};
use std::alloc::Global;

/// Refuses the first referenced job of these steps that may not be run.
#[cycle(deny)]
fn deny_steps(
    alloc: Global,
    access: &JobAccess<'_>,
    project: &Project,
    levels: u32,
    path: &[Text],
    steps: &[JobStep],
) -> Result<(), VerdictErr>
    ensures { TellsRefusal (first_denied (job_run access.now)
        (all_visits (deeper levels project.now) project.now path.now steps.now)) result }
{
    for step in steps {
        deny_act(alloc, access, project, levels, path, &step.act)?;
    }
    Ok(())
}

#[cycle(deny)]
fn deny_act(
    alloc: Global,
    access: &JobAccess<'_>,
    project: &Project,
    levels: u32,
    path: &[Text],
    act: &JobAct,
) -> Result<(), VerdictErr>
    ensures { TellsRefusal (first_denied (job_run access.now) (act_visits path.now
        (resolved_act (deeper levels project.now) project.now path.now act.now))) result }
{
    match act {
        JobAct::Exec(_) => Ok(()),
        JobAct::Script { text: _, args: _ } => Ok(()),
        JobAct::Refer {
            group,
            name,
            args: _,
        } => deny_reference(
            alloc,
            access,
            project,
            levels,
            path,
            group.as_str(),
            name.as_str(),
        ),
    }
}

#[cycle(deny)]
fn deny_reference(
    alloc: Global,
    access: &JobAccess<'_>,
    project: &Project,
    levels: u32,
    path: &[Text],
    group: &str,
    name: &str,
) -> Result<(), VerdictErr>
    ensures { RefusesReference (first_denied (job_run access.now)) (deeper levels project.now)
        (path.now ++ label group.now name.now ∷ [])
        (referred_job project.now group.now name.now) result }
{
    let Some(held) = referred_job(project, group, name) else {
        return Ok(());
    };
    if levels == 0 {
        return Ok(());
    }
    let below = path_below(alloc, path, group, name)?;
    let decision = access.job_run(alloc, held)?;
    if !is_allowed(decision) {
        return Err(VerdictErr::Refused(Refusal::ReferenceDenied {
            path: below,
            decision,
        }));
    }
    let steps = held.job.steps.as_slice();
    deny_steps(alloc, access, project, levels - 1, below.as_slice(), steps)
}

/// Refuses the first job to which an asked job refers, in walk order, that may not be run.
pub(crate) fn deny_references(
    alloc: Global,
    access: &JobAccess<'_>,
    project: &Project,
    held: &HeldJob,
) -> Result<(), VerdictErr>
    ensures { TellsRefusal
        (denied_reference (job_run access.now) (resolved_job project.now held.now))
        result }
{
    let here = Items::new(alloc);
    let steps = held.job.steps.as_slice();
    deny_steps(alloc, access, project, LEVELS, here.as_slice(), steps)
}
