//! The verdict on a run that is asked for.
ghost use Rattle.rb_acl.specs.Numbering.{AreNumbered};
ghost use Rattle.rb_job.specs.Sound.{is_sound_job};
ghost use Rattle.rb_marks.specs.Units.{outline};
ghost use Rattle.rb_marks.specs.View.{step_tree};
ghost use Rattle.rb_plan.specs.Acceptance.{acceptance};
ghost use Rattle.rb_plan.specs.Access.{job_run};
ghost use Rattle.rb_plan.specs.Inlined.{option_in_steps, refused_option, slots};
ghost use Rattle.rb_plan.specs.Resolved.{resolved_job};
ghost use Rattle.rb_acl.specs.declared.policy.Decision.{Decision};
ghost use Rattle.rb_acl.specs.Deciding.{is_allowed};
ghost use Rattle.rb_node.specs.declared.node.Node.{Node};
ghost use Rattle.rb_plan.specs.Judging.{IsInlined, Judges, asked_for, asked_site, assembled, job_rules, node_rules};
ghost use Rattle.rb_plan.specs.Refusals.{already_running, denied_job, disabled, none_selected, too_large};
ghost use Rattle.rb_plan.specs.Sorting.{AreSorted};
ghost use Rattle.rb_plan.specs.Sound.{IsSoundWorld, is_sound_project};
ghost use Rattle.rb_plan.specs.Verdict.{Verdicts, first_refusal, job_outline};
ghost use Rattle.rb_plan.specs.Targets.{targets};
ghost use Rattle.rb_plan.specs.Walked.{TellsRefusal};
ghost use Rattle.std.specs.Prelude.{◌≡◌, ◌≤◌, [], true, List, IfErr, IfOk, length, map};

use crate::accepted::{Accepted, Command, Dropped};
use crate::access::{Access, is_allowed};
use crate::denying::deny_references;
use crate::finding::{job_found, running_of};
use crate::inlining::{Site, inline_steps, settled};
use crate::job_access::JobAccess;
use crate::refusal::{Refusal, VerdictErr};
use crate::sorting::{SortedNodes, sorted_nodes};
use crate::targeting::{target_bound, target_tiers, targets};
use crate::walking::{LEVELS, check_references};
use crate::world::{HeldJob, Project, RunAsk, World};
use rb_acl::{Caller, Context};
use rb_causes::{Items, NoMemory, Prop, Text};
use rb_job::Job;
use rb_marks::{Plan, Seq, Step};
use rb_node::Node;
use std::alloc::Global;

/// The steps of a job with their slots, and the commands of these.
#[derive(Drop)]
pub(crate) struct InlinedJob {
    pub(crate) steps: Vec<Step>,
    pub(crate) commands: Vec<Command>,
}

/// Refuses where the caller may not run the job.
fn check_job_run(alloc: Global, access: &JobAccess<'_>, held: &HeldJob) -> Result<(), VerdictErr>
    ensures { TellsRefusal (denied_job (job_run access.now held.now)) result }
{
    let decision = access.job_run(alloc, held)?;
    if is_allowed(decision) {
        return Ok(());
    }
    Err(VerdictErr::Refused(Refusal::JobDenied(decision)))
}

fn check_enabled(job: &Job) -> Result<(), VerdictErr>
    ensures { TellsRefusal (disabled job.now) result }
{
    if job.enabled {
        return Ok(());
    }
    Err(VerdictErr::Refused(Refusal::Disabled))
}

/// Refuses where the job runs already and may not run twice at once.
fn check_running(job: &Job, running: Option<u64>) -> Result<(), VerdictErr>
    ensures { TellsRefusal (already_running job.now running) result }
{
    if job.multiple {
        return Ok(());
    }
    match running {
        None => Ok(()),
        Some(execution) => Err(VerdictErr::Refused(Refusal::AlreadyRunning(execution))),
    }
}

/// The rules on the job and on those that it refers to.
fn check_jobs(
    alloc: Global,
    world: &World,
    access: &Access<'_>,
    project: &Project,
    held: &HeldJob,
) -> Result<(), VerdictErr>
    requires { AreNumbered access.now.policies }
    ensures { TellsRefusal
        (first_refusal (job_rules world.now access.now project.now held.now)) result }
{
    let jobs = JobAccess::of(alloc, access)?;
    check_job_run(alloc, &jobs, held)?;
    check_references(alloc, project, held)?;
    deny_references(alloc, &jobs, project, held)?;
    check_enabled(&held.job)?;
    check_running(&held.job, running_of(world, held.id.as_str()))
}

/// The asked job with its settled values, or the first option that is refused.
fn asked_site<'a>(
    alloc: Global,
    project: &'a Project,
    caller: &'a Caller,
    held: &'a HeldJob,
    given: &[Prop],
) -> Result<Site<'a>, VerdictErr>
    ensures refused { TellsRefusal (refused_option [] held.now.job.options given.now) result }
    ensures site { IfOk result (λ site.
        site ≡ asked_site project.now caller.now held.now given.now) }
{
    let here: Items<Text> = Items::new(alloc);
    let values = settled(alloc, here.as_slice(), held.job.options.as_slice(), given)?;
    Ok(Site {
        held,
        values,
        project: project.name.as_str(),
        user: caller.user.as_str(),
    })
}

/// The job with the steps of those that it refers to, or the first of their options that is
/// refused.
fn inline_job<'a>(
    alloc: Global,
    project: &'a Project,
    held: &HeldJob,
    site: &Site<'a>,
) -> Result<InlinedJob, VerdictErr>
    requires { slots (resolved_job project.now held.now) ≤ 1000 }
    ensures refused { TellsRefusal
        (option_in_steps site.now (resolved_job project.now held.now)) result }
    ensures inlined { IfOk result (IsInlined project.now held.now site.now) }
{
    let here: Items<Text> = Items::new(alloc);
    let here = here.as_slice();
    let asked = held.job.steps.as_slice();
    let mut commands = Vec::new(alloc);
    let steps = inline_steps(alloc, project, LEVELS, site, here, asked, &mut commands)?;
    Ok(InlinedJob { steps, commands })
}

/// The rules on the nodes that are selected.
fn check_nodes(alloc: Global, job: &Job, sorted: &SortedNodes) -> Result<(), VerdictErr>
    ensures { (decide : Node → Decision) (chosen : List Node) → AreSorted decide chosen sorted.now →
        TellsRefusal (first_refusal (node_rules job.now decide chosen)) result }
{
    match sorted.runnable.as_slice() {
        [_, ..] => Ok(()),
        [] => match sorted.dropped.as_slice() {
            [first, ..] => Err(none_allowed(alloc, first)?),
            [] => check_selected(job),
        },
    }
}

/// The refusal where no node may be run on: it tells the first that is selected.
fn none_allowed(alloc: Global, first: &Dropped) -> Result<VerdictErr, VerdictErr>
    ensures ok { IfOk result (λ e. e ≡ VerdictErr.Refused
        (Refusal.NoNodeAllowed first.now.node first.now.decision)) }
    ensures err { IfErr result (λ e. e ≡ VerdictErr.NoMemory) }
{
    Ok(VerdictErr::Refused(Refusal::NoNodeAllowed {
        node: first.node.copy(alloc)?,
        decision: first.decision,
    }))
}

/// Refuses where no node is selected and that is no success.
fn check_selected(job: &Job) -> Result<(), VerdictErr>
    ensures { TellsRefusal (none_selected job.now []) result }
{
    if job.success_on_empty {
        return Ok(());
    }
    Err(VerdictErr::Refused(Refusal::NoNodeSelected))
}

/// A run has at most so many leaves.
const MOST_LEAVES: u64 = 100_000;

fn check_leaves(nodes: u64, slots: u64) -> Result<(), VerdictErr>
    requires nodes { nodes ≤ 10000 }
    requires slots { slots ≤ 1000 }
    ensures { TellsRefusal (too_large nodes slots) result }
{
    let leaves = nodes * slots;
    if leaves <= MOST_LEAVES {
        return Ok(());
    }
    Err(VerdictErr::Refused(Refusal::TooLarge(leaves)))
}

/// The plan of a job with these nodes and steps.
fn plan_of(
    alloc: Global,
    job: &Job,
    nodes: &[Node],
    steps: Vec<Step>,
    slots: u32,
) -> Result<Plan, NoMemory>
    requires job { is_sound_job job.now ≡ true }
    requires nodes { length nodes.now ≤ 10000 }
    ensures { IfOk result (λ plan. outline plan
        ≡ job_outline job.now nodes.now (map step_tree steps.items) slots) }
{
    Ok(Plan {
        strategy: job.strategy,
        tiers: target_tiers(alloc, job, nodes)?,
        seq: Seq {
            keepgoing: job.keepgoing,
            steps,
        },
        slots,
        keep_nodes: job.keep_nodes,
        bound: target_bound(job, nodes),
    })
}

/// The rule on the leaves; and the run that no rule refuses.
fn accept(
    alloc: Global,
    project: &Project,
    held: &HeldJob,
    draw: u64,
    values: Items<Prop>,
    inlined: InlinedJob,
    sorted: SortedNodes,
) -> Result<Accepted, VerdictErr>
    requires job { is_sound_job held.now.job ≡ true }
    requires nodes { length sorted.runnable.items ≤ 10000 }
    requires commands { length inlined.commands.items ≤ 1000 }
    ensures refused { TellsRefusal (too_large
        (length (targets held.now.job draw sorted.runnable.items))
        (length inlined.commands.items)) result }
    ensures accepted { IfOk result (λ accepted. acceptance accepted
        ≡ assembled project.now held.now draw values inlined sorted) }
{
    let nodes = targets(alloc, &held.job, draw, sorted.runnable)?;
    let commands = inlined.commands;
    check_leaves(nodes.len() as u64, commands.len() as u64)?;
    let slots = commands.len() as u32;
    Ok(Accepted {
        project: project.name.copy(alloc)?,
        job: held.id.copy(alloc)?,
        plan: plan_of(alloc, &held.job, nodes.as_slice(), inlined.steps, slots)?,
        nodes: Items::of(nodes),
        commands: Items::of(commands),
        values,
        dropped: sorted.dropped,
    })
}

/// The verdict on a job that is held.
fn judge(
    alloc: Global,
    world: &World,
    caller: &Caller,
    ask: &RunAsk,
    draw: u64,
    project: &Project,
    held: &HeldJob,
) -> Result<Accepted, VerdictErr>
    requires numbered { AreNumbered world.now.policies }
    requires project { is_sound_project project.now ≡ true }
    requires job { is_sound_job held.now.job ≡ true }
    ensures { Judges (asked_for world.now caller.now ask.now draw project.now held.now) result }
{
    let context = Context::Project(project.name.copy(alloc)?);
    let access = Access {
        policies: &world.policies,
        caller,
        context: &context,
    };
    check_jobs(alloc, world, &access, project, held)?;
    let site = asked_site(alloc, project, caller, held, ask.given.as_slice())?;
    let inlined = inline_job(alloc, project, held, &site)?;
    let nodes = project.inventory.nodes.as_slice();
    let sorted = sorted_nodes(alloc, &access, ask, &held.job, nodes)?;
    check_nodes(alloc, &held.job, &sorted)?;
    accept(
        alloc,
        project,
        held,
        draw,
        site.into_values(),
        inlined,
        sorted,
    )
}

/// The verdict on a run that is asked for: the first refusal whose rule holds, or the run with its
/// plan. `draw` is the number by which a subset of the nodes is drawn.
pub fn verdict(
    alloc: Global,
    world: &World,
    caller: &Caller,
    ask: &RunAsk,
    draw: u64,
) -> Result<Accepted, VerdictErr>
    requires sound { IsSoundWorld world.now }
    requires numbered { AreNumbered world.now.policies }
    ensures { Verdicts world.now caller.now ask.now draw result }
{
    match job_found(world, ask.job.as_str()) {
        Some(found) => judge(alloc, world, caller, ask, draw, found.project, found.held),
        None => Err(VerdictErr::Refused(Refusal::NoJob)),
    }
}
