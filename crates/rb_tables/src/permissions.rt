//! Who may do what, and how a denial is told.
ghost use Rattle.rb_acl.specs.Naming.{IsNamed};
ghost use Rattle.rb_acl.specs.Numbering.{AreNumbered};
ghost use Rattle.rb_causes.specs.declared.row.Row.{Row};
ghost use Rattle.rb_log.specs.Executions.{Execution};
ghost use Rattle.rb_log.specs.LogState.{log_state};
ghost use Rattle.rb_log.specs.Moves.{job_thing, kind_resource, node_thing, permitted, permitted_on_kind, reason_of};
ghost use Rattle.rb_log.specs.Readings.{decision_text};
ghost use Rattle.rb_log.specs.Runs.{may_act_on};
ghost use Rattle.rb_plan.specs.Access.{job_decision};
ghost use Rattle.rb_tables.specs.Changes.{Keeps};
ghost use Rattle.rb_tables.specs.Rights.{may_act};
ghost use Rattle.rb_tables.specs.Tables.{IsTabled};
ghost use Rattle.rb_tables.specs.Worlds.{held_among};
ghost use Rattle.std.specs.Prelude.{◌≡◌, ◌++◌, IfOk, List};

use crate::tables::Tables;
use rb_acl::{Caller, Context, Decision, Policies, Resource, clause_text};
use rb_causes::{Items, NoMemory, Prop, Text};
use rb_job::Job;
use rb_log::{Answer, Reason};
use rb_plan::{Access, HeldJob, Project, World, found_among, is_allowed};
use std::alloc::Global;
use std::marker::Model;
use std::string::String;

/// How the clause of a decision is told.
pub fn decision_text(
    alloc: Global,
    policies: &Policies,
    decision: Decision,
) -> Result<Text, NoMemory>
    requires { IsNamed policies.now decision }
    ensures { IfOk result (λ text. text ≡ decision_text policies.now decision) }
{
    match decision {
        Decision::Allowed(clause) => clause_text(alloc, policies, &clause),
        Decision::Denied(clause) => clause_text(alloc, policies, &clause),
        Decision::NoneAllows => Text::of(alloc, "none allows"),
    }
}

/// A decision with the action and the thing on which it is made.
pub fn reason_of(
    alloc: Global,
    policies: &Policies,
    decision: Decision,
    action: &str,
    thing: Text,
) -> Result<Reason, NoMemory>
    requires { IsNamed policies.now decision }
    ensures { IfOk result (λ reason.
        reason ≡ reason_of policies.now decision action.now thing) }
{
    let clause = decision_text(alloc, policies, decision)?;
    let action = Text::of(alloc, action)?;
    Ok(Reason {
        decision,
        action,
        thing,
        clause,
    })
}

/// A word and what it is said of.
pub fn named_thing(alloc: Global, word: &str, name: &str) -> Result<Text, NoMemory>
    ensures { IfOk result (λ text. text ≡ word.now ++ name.now) }
{
    let mut text = String::from_str(alloc, word)?;
    text.push_str(name)?;
    Ok(Text::from_string(text))
}

/// How a job is called in a denial.
pub fn job_thing(alloc: Global, job: &Job) -> Result<Text, NoMemory>
    ensures { IfOk result (λ text. text ≡ job_thing job.now) }
{
    let mut text = String::from_str(alloc, "job ")?;
    text.push_str(job.group.as_str())?;
    text.push_str("/")?;
    text.push_str(job.name.as_str())?;
    Ok(Text::from_string(text))
}

/// How a node is called in a denial.
pub fn node_thing(alloc: Global, name: &str) -> Result<Text, NoMemory>
    ensures { IfOk result (λ text. text ≡ node_thing name.now) }
{
    named_thing(alloc, "node ", name)
}

/// Refuses where the decision does not allow.
pub fn permitted(
    alloc: Global,
    policies: &Policies,
    decision: Decision,
    action: &str,
    thing: Text,
) -> Result<(), Answer>
    requires { IsNamed policies.now decision }
    ensures { Keeps (permitted policies.now decision action.now thing) result }
{
    if is_allowed(decision) {
        return Ok(());
    }
    Err(Answer::Denied(reason_of(alloc, policies, decision, action, thing)?))
}

/// What all things of a kind show to policies.
fn kind_resource(alloc: Global, kind: &str) -> Result<Resource, NoMemory>
    ensures { IfOk result (λ resource. resource ≡ kind_resource kind.now) }
{
    let key = Text::of(alloc, "kind")?;
    let text = Text::of(alloc, kind)?;
    let mut props = Items::new(alloc);
    props.push(Prop { key, text })?;
    Ok(Resource {
        type_name: Text::of(alloc, "resource")?,
        props,
        tags: Items::new(alloc),
    })
}

/// Refuses where the caller may not do this on all things of a kind.
pub fn permitted_on_kind(
    alloc: Global,
    access: &Access<'_>,
    action: &str,
    kind: &str,
) -> Result<(), Answer>
    requires { AreNumbered access.now.policies }
    ensures { Keeps (permitted_on_kind access.now action.now kind.now) result }
{
    let resource = kind_resource(alloc, kind)?;
    let decision = access.decision_on(alloc, action, &resource)?;
    let thing = named_thing(alloc, "kind ", kind)?;
    permitted(alloc, access.policies, decision, action, thing)
}

/// Refuses where the caller may not do this on the job.
pub fn permitted_on_job(
    alloc: Global,
    access: &Access<'_>,
    action: &str,
    held: &HeldJob,
) -> Result<(), Answer>
    requires { AreNumbered access.now.policies }
    ensures { Keeps (permitted access.now.policies
        (job_decision access.now action.now held.now) action.now (job_thing held.now.job)) result }
{
    let decision = access.job_decision(alloc, action, held)?;
    let thing = job_thing(alloc, &held.job)?;
    permitted(alloc, access.policies, decision, action, thing)
}

/// A job in a project.
#[derive(Drop)]
pub struct ProjectJob<'a> {
    pub project: &'a Project,
    pub held: &'a HeldJob,
}

impl<'a> Model for ProjectJob<'a> {
    ghost use Rattle.rb_log.specs.World.{ProjectJob as LoggedJob};

    ghost Value = { LoggedJob };

    ghost view = { λ p. record { project = p.project.now.name; held = p.held.now } };
}

/// The job under this id in the first project that holds one.
pub fn held_under<'a>(projects: &'a [Project], id: &str) -> Option<ProjectJob<'a>>
    ensures { result ≡ held_among id.now projects.now }
{
    match found_among(projects, id) {
        None => None,
        Some(found) => Some(ProjectJob {
            project: found.project,
            held: found.held,
        }),
    }
}

/// Refuses where the caller may not do this on the job with this id.
fn may_act(
    alloc: Global,
    world: &World,
    caller: &Caller,
    action: &str,
    job: &str,
) -> Result<(), Answer>
    requires { AreNumbered world.now.policies }
    ensures { Keeps (may_act world.now caller.now action.now job.now) result }
{
    match held_under(world.projects.as_slice(), job) {
        None => Err(Answer::NoExecution),
        Some(found) => {
            let context = Context::Project(found.project.name.copy(alloc)?);
            let access = Access {
                policies: &world.policies,
                caller,
                context: &context,
            };
            permitted_on_job(alloc, &access, action, found.held)
        }
    }
}

impl Tables {
    /// Refuses where the caller may not do this on an execution of the job with this id.
    pub fn may_act_on(
        &self,
        alloc: Global,
        caller: &Caller,
        action: &str,
        job: &str,
    ) -> Result<(), Answer>
        requires { AreNumbered self.now.world.policies }
        ensures { (past : List Row) (e : Execution) → IsTabled self.now past →
            e.accepted.job ≡ job.now →
            Keeps (may_act_on (log_state past) caller.now action.now e) result }
    {
        may_act(alloc, &self.world, caller, action, job)
    }
}
