//! The walk over the references of a job: whether each can be resolved, and whether there are too
//! many commands.
ghost use Rattle.rb_plan.specs.Resolved.{label, resolved_act, resolved_job};
ghost use Rattle.rb_plan.specs.References.{command, act_visits, handler_visits, bad_reference, bad};
ghost use Rattle.rb_plan.specs.Walked.{walked, Walks, WalksReference, TellsRefusal, deeper, step_visits, all_visits};
ghost use Rattle.rb_plan.specs.Worlds.{referred_job};
ghost use Rattle.std.specs.Prelude.{◌≡◌, ◌++◌, ◌∷◌, [], None, Some, Ok, Err};

use crate::copying::copy_texts;
use crate::finding::referred_job;
use crate::paths::path_below;
use crate::refusal::{RefCause, Refusal, VerdictErr};
use crate::world::{HeldJob, Project};
use rb_causes::{Items, NoMemory, Text};
use rb_job::{JobAct, JobStep};
use std::alloc::Global;

fn bad(path: Items<Text>, cause: RefCause) -> VerdictErr
    ensures { result ≡ VerdictErr.Refused (bad path cause) }
{
    VerdictErr::Refused(Refusal::BadReference { path, cause })
}

/// One more command, where one is left.
fn count(alloc: Global, path: &[Text], left: u32) -> Result<u32, VerdictErr>
    ensures { Walks (walked left (command path.now ∷ [])) result }
{
    if left == 0 {
        return Err(too_many(alloc, path));
    }
    Ok(left - 1)
}

fn too_many(alloc: Global, path: &[Text]) -> VerdictErr
    ensures { Walks (Err (bad path.now RefCause.TooMany)) (Err result) }
{
    match copy_texts(alloc, path) {
        Ok(path) => bad(path, RefCause::TooMany),
        Err(NoMemory) => VerdictErr::NoMemory,
    }
}

fn walk_handler(
    alloc: Global,
    path: &[Text],
    handler: &Option<JobAct>,
    left: u32,
) -> Result<u32, VerdictErr>
    ensures { Walks (walked left (handler_visits path.now handler.now)) result }
{
    match handler {
        None => Ok(left),
        Some(_) => count(alloc, path, left),
    }
}

/// How many commands may still come behind these steps, before which so many were left.
#[cycle(walk)]
fn walk_steps(
    alloc: Global,
    project: &Project,
    levels: u32,
    path: &[Text],
    steps: &[JobStep],
    left: u32,
) -> Result<u32, VerdictErr>
    ensures { Walks (walked left
        (all_visits (deeper levels project.now) project.now path.now steps.now)) result }
{
    let mut rest = left;
    for step in steps {
        rest = walk_step(alloc, project, levels, path, step, rest)?;
    }
    Ok(rest)
}

#[cycle(walk)]
fn walk_step(
    alloc: Global,
    project: &Project,
    levels: u32,
    path: &[Text],
    step: &JobStep,
    left: u32,
) -> Result<u32, VerdictErr>
    ensures { Walks (walked left
        (step_visits (deeper levels project.now) project.now path.now step.now)) result }
{
    let rest = walk_act(alloc, project, levels, path, &step.act, left)?;
    walk_handler(alloc, path, &step.handler, rest)
}

#[cycle(walk)]
fn walk_act(
    alloc: Global,
    project: &Project,
    levels: u32,
    path: &[Text],
    act: &JobAct,
    left: u32,
) -> Result<u32, VerdictErr>
    ensures { Walks (walked left (act_visits path.now
        (resolved_act (deeper levels project.now) project.now path.now act.now))) result }
{
    match act {
        JobAct::Exec(_) => count(alloc, path, left),
        JobAct::Script { text: _, args: _ } => count(alloc, path, left),
        JobAct::Refer {
            group,
            name,
            args: _,
        } => walk_reference(
            alloc,
            project,
            levels,
            path,
            group.as_str(),
            name.as_str(),
            left,
        ),
    }
}

#[cycle(walk)]
fn walk_reference(
    alloc: Global,
    project: &Project,
    levels: u32,
    path: &[Text],
    group: &str,
    name: &str,
    left: u32,
) -> Result<u32, VerdictErr>
    ensures { WalksReference (deeper levels project.now)
        (path.now ++ label group.now name.now ∷ [])
        (referred_job project.now group.now name.now) left result }
{
    let below = path_below(alloc, path, group, name)?;
    match referred_job(project, group, name) {
        None => Err(bad(below, RefCause::NotFound)),
        Some(held) => {
            if levels == 0 {
                return Err(bad(below, RefCause::TooDeep));
            }
            let steps = held.job.steps.as_slice();
            walk_steps(alloc, project, levels - 1, below.as_slice(), steps, left)
        }
    }
}

/// The levels of references below a job's own steps.
pub(crate) const LEVELS: u32 = 8;

const MOST_COMMANDS: u32 = 1_000;

/// Refuses the first reference of an asked job that cannot be resolved, and the first command past
/// 1,000.
pub(crate) fn check_references(
    alloc: Global,
    project: &Project,
    held: &HeldJob,
) -> Result<(), VerdictErr>
    ensures { TellsRefusal (bad_reference (resolved_job project.now held.now)) result }
{
    let here = Items::new(alloc);
    let steps = held.job.steps.as_slice();
    walk_steps(
        alloc,
        project,
        LEVELS,
        here.as_slice(),
        steps,
        MOST_COMMANDS,
    )?;
    Ok(())
}
