ghost use Rattle.rb_acl.specs.declared.policy.Policies.{Policies};
ghost use Rattle.rb_top.specs.Access.{script_policies};
ghost use Rattle.rb_top.specs.Table.{Tells};
ghost use Rattle.rb_top.specs.Drill.{all_runs, one_run, authorized, drops, refused, accepted, is_success};
ghost use Rattle.rb_top.specs.Played.{PlaysTo};
ghost use Rattle.rb_causes.specs.Spawners.{ShownRuns};
ghost use Rattle.rb_top.specs.Names.{HasPlaces, ids_of};
ghost use Rattle.rb_top.specs.Reading.{job_at, RunsHaveSteps, has_steps, IsNumbered, is_numbered_job};
ghost use Rattle.std.specs.List.{list_all};
ghost use Rattle.std.specs.Prelude.{◌≡◌, ◌<◌, ◌^◌, ℕ, List, true, length};

use crate::access::{NodeDecision, allowed_nodes, decisions_on, is_allowed};
use crate::access_table::AccessTable;
use crate::job_places::JobPlaces;
use crate::output::{print_over, print_run, print_verdict};
use crate::plan::drill_plan;
use crate::script::{DrillJob, DrillRun, Script};
use crate::starting::play_starts;
use rb_causes::{Sink, Spawner, Text, Trouble};
use rb_flow::{Flow, Status};
use std::alloc::Global;

/// Runs the script's runs one after another.
pub(crate) fn run_all<S: Spawner, O: Sink>(
    alloc: Global,
    script: &Script,
    spawner: &mut S,
    out: &mut O,
) -> Result<(), Trouble>
    requires steps { RunsHaveSteps script.now }
    requires numbered { IsNumbered script.now }
    ensures { let runs = all_runs (script_policies script.now) script.now.jobs 1 script.now.runs in
        PlaysTo runs (λ done next. next)
        (S.shown spawner.old) (S.shown spawner.new) (O.shown out.old) (O.shown out.new) result }
{
    // With no run nothing is printed, so nothing may take memory either.
    if script.runs.is_empty() {
        return Ok(());
    }
    let access = AccessTable::of(alloc, script.access.as_slice())?;
    let places = JobPlaces::of(alloc, script.jobs.as_slice())?;
    for (index, run) in script.runs.as_slice().iter().enumerate() {
        run_one(
            alloc,
            script.jobs.as_slice(),
            &places,
            &access,
            index + 1,
            run,
            spawner,
            out,
        )?;
    }
    Ok(())
}

// One run, of a job that has a step. What memory its decisions take is taken before its first line.
fn run_one<S: Spawner, O: Sink>(
    alloc: Global,
    jobs: &[DrillJob],
    places: &JobPlaces,
    access: &AccessTable,
    number: usize,
    run: &DrillRun,
    spawner: &mut S,
    out: &mut O,
) -> Result<(), Trouble>
    requires steps { has_steps (job_at jobs.now run.now.job) ≡ true }
    requires jobs { list_all is_numbered_job jobs.now ≡ true }
    requires places { HasPlaces places.now (ids_of jobs.now) }
    ensures { (policies : Policies) → Tells policies access.now →
        let runs = one_run policies number run.now (job_at jobs.now run.now.job) in
        PlaysTo runs (λ done next. next)
        (S.shown spawner.old) (S.shown spawner.new) (O.shown out.old) (O.shown out.new) result }
{
    let Some(job) = places.job_at(jobs, &run.job) else {
        return Ok(());
    };
    let decisions = decisions_on(alloc, access, &run.user, job.nodes.as_slice())?;
    let allowed = allowed_nodes(alloc, decisions.as_slice())?;
    print_run(alloc, out, number, run)?;
    authorize(
        alloc,
        number,
        job,
        decisions.as_slice(),
        allowed.as_slice(),
        spawner,
        out,
    )
}

// Refuses a run whose user may run none of the job's nodes, else drops those that may not be run
// and goes on.
fn authorize<S: Spawner, O: Sink>(
    alloc: Global,
    number: usize,
    job: &DrillJob,
    decisions: &[NodeDecision],
    allowed: &[Text],
    spawner: &mut S,
    out: &mut O,
) -> Result<(), Trouble>
    requires steps { 0 < length job.now.steps }
    requires numbered { (length allowed.now < 2 ^ 32) × (length job.now.steps < 2 ^ 32) }
    ensures { (user : List ℕ)
        → PlaysTo (authorized number user job.now decisions.now allowed.now) (λ done next. next)
        (S.shown spawner.old) (S.shown spawner.new) (O.shown out.old) (O.shown out.new) result }
{
    if allowed.is_empty() {
        return refuse(alloc, number, decisions, out);
    }
    print_drops(alloc, number, decisions, out)?;
    run_job(alloc, number, allowed, job, spawner, out)
}

// Prints the refusal, which speaks of the first node.
fn refuse<O: Sink>(
    alloc: Global,
    number: usize,
    decisions: &[NodeDecision],
    out: &mut O,
) -> Result<(), Trouble>
    ensures { (spawner : ShownRuns)
        → PlaysTo (refused number decisions.now) (λ done next. next)
        spawner spawner (O.shown out.old) (O.shown out.new) result }
{
    let [first, ..] = decisions else {
        return Ok(());
    };
    print_verdict(alloc, out, number, "refused", &first.node, first.decision)
}

// Prints a line for each node that the user may not run.
fn print_drops<O: Sink>(
    alloc: Global,
    number: usize,
    decisions: &[NodeDecision],
    out: &mut O,
) -> Result<(), Trouble>
    ensures { (spawner : ShownRuns)
        → PlaysTo (drops number decisions.now) (λ done next. next)
        spawner spawner (O.shown out.old) (O.shown out.new) result }
{
    for decided in decisions {
        if is_allowed(decided.decision) {
            continue;
        }
        print_verdict(alloc, out, number, "drops", &decided.node, decided.decision)?;
    }
    Ok(())
}

// Runs the job on these nodes, and tells how that ended.
fn run_job<S: Spawner, O: Sink>(
    alloc: Global,
    number: usize,
    nodes: &[Text],
    job: &DrillJob,
    spawner: &mut S,
    out: &mut O,
) -> Result<(), Trouble>
    requires steps { 0 < length job.now.steps }
    requires numbered { (length nodes.now < 2 ^ 32) × (length job.now.steps < 2 ^ 32) }
    ensures { (user : List ℕ)
        → PlaysTo (accepted number user nodes.now job.now) (λ done next. next)
        (S.shown spawner.old) (S.shown spawner.new) (O.shown out.old) (O.shown out.new) result }
{
    let plan = drill_plan(alloc, nodes, job)?;
    let mut flow = Flow::open(alloc, plan)?;
    play_starts(alloc, nodes, job, &mut flow, spawner, out)?;
    print_over(alloc, out, number, is_success(flow.status()))
}

fn is_success(status: Status) -> bool
    ensures { result ≡ is_success status }
{
    matches!(status, Status::Succeeded)
}
