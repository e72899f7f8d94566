//! Why a run is refused.
ghost use Rattle.rb_acl.specs.Naming.{IsNamed};
ghost use Rattle.rb_acl.specs.Numbering.{AreNumbered};
ghost use Rattle.rb_log.specs.Runs.{last_of};
ghost use Rattle.rb_plan.specs.Access.{run_action};
ghost use Rattle.rb_plan.specs.Worlds.{job_found};
ghost use Rattle.rb_runs.specs.Refusing.{job_reason, node_reason, reference_reason, refusal_reason, HasNamedDecision};
ghost use Rattle.std.specs.Option.{option_and_then};
ghost use Rattle.std.specs.Prelude.{◌≡◌, IfOk};

use crate::finding::node_named;
use rb_acl::{Caller, Context, Decision};
use rb_causes::{NoMemory, Text};
use rb_log::Reason;
use rb_node::Node;
use rb_plan::{Access, Found, Refusal, World, found_among, is_allowed};
use rb_tables::permissions::{job_thing, named_thing, node_thing, reason_of};
use std::alloc::Global;

/// Why the caller may not run the job.
fn job_reason(
    alloc: Global,
    world: &World,
    id: &str,
    decision: Decision,
) -> Result<Option<Reason>, NoMemory>
    requires { IsNamed world.now.policies decision }
    ensures { IfOk result (λ reason. reason ≡ job_reason world.now id.now decision) }
{
    match found_among(world.projects.as_slice(), id) {
        None => Ok(None),
        Some(found) => {
            let thing = job_thing(alloc, &found.held.job)?;
            let reason = reason_of(alloc, &world.policies, decision, "run", thing)?;
            Ok(Some(reason))
        }
    }
}

/// The last of a path.
fn last_of(path: &[Text]) -> &str
    ensures { result.now ≡ last_of path.now }
{
    match path.last() {
        None => "",
        Some(last) => last.as_str(),
    }
}

/// Why the caller may not run the job at the end of a path of references.
fn reference_reason(
    alloc: Global,
    world: &World,
    path: &[Text],
    decision: Decision,
) -> Result<Reason, NoMemory>
    requires { IsNamed world.now.policies decision }
    ensures { IfOk result (λ reason. reason ≡ reference_reason world.now path.now decision) }
{
    let thing = named_thing(alloc, "job ", last_of(path))?;
    reason_of(alloc, &world.policies, decision, "run", thing)
}

/// The action on which a node is refused: it is to be read before it is run.
fn run_action(alloc: Global, access: &Access<'_>, node: &Node) -> Result<&'static str, NoMemory>
    requires { AreNumbered access.now.policies }
    ensures { IfOk result (λ action. action.now ≡ run_action access.now node.now) }
{
    let read = access.node_decision(alloc, "read", node)?;
    Ok(if is_allowed(read) { "run" } else { "read" })
}

/// Why the caller may not run on the node of this name.
fn node_reason(
    alloc: Global,
    world: &World,
    caller: &Caller,
    name: &str,
    decision: Decision,
    found: &Found<'_>,
) -> Result<Option<Reason>, NoMemory>
    requires numbered { AreNumbered world.now.policies }
    requires named { IsNamed world.now.policies decision }
    ensures { IfOk result (λ reason.
        reason ≡ node_reason world.now caller.now name.now decision found.now) }
{
    let context = Context::Project(found.project.name.copy(alloc)?);
    let access = Access {
        policies: &world.policies,
        caller,
        context: &context,
    };
    match node_named(found.project.inventory.nodes.as_slice(), name) {
        None => Ok(None),
        Some(node) => {
            let action = run_action(alloc, &access, node)?;
            let thing = node_thing(alloc, node.name.as_str())?;
            let reason = reason_of(alloc, &world.policies, decision, action, thing)?;
            Ok(Some(reason))
        }
    }
}

/// Why the caller may run on none of the nodes, of which this is the first.
fn nodes_reason(
    alloc: Global,
    world: &World,
    caller: &Caller,
    id: &str,
    name: &str,
    decision: Decision,
) -> Result<Option<Reason>, NoMemory>
    requires numbered { AreNumbered world.now.policies }
    requires named { IsNamed world.now.policies decision }
    ensures { IfOk result (λ reason. reason ≡ option_and_then
        (node_reason world.now caller.now name.now decision) (job_found world.now id.now)) }
{
    match found_among(world.projects.as_slice(), id) {
        None => Ok(None),
        Some(found) => node_reason(alloc, world, caller, name, decision, &found),
    }
}

/// The reason of a refusal that holds a decision, to run the job of this id.
pub(crate) fn refusal_reason(
    alloc: Global,
    world: &World,
    caller: &Caller,
    id: &str,
    refusal: &Refusal,
) -> Result<Option<Reason>, NoMemory>
    requires numbered { AreNumbered world.now.policies }
    requires named { HasNamedDecision world.now.policies refusal.now }
    ensures { IfOk result (λ reason.
        reason ≡ refusal_reason world.now caller.now id.now refusal.now) }
{
    match refusal {
        Refusal::JobDenied(decision) => job_reason(alloc, world, id, *decision),
        Refusal::ReferenceDenied { path, decision } => {
            let reason = reference_reason(alloc, world, path.as_slice(), *decision)?;
            Ok(Some(reason))
        }
        Refusal::NoNodeAllowed { node, decision } => {
            nodes_reason(alloc, world, caller, id, node.as_str(), *decision)
        }
        Refusal::NoJob => Ok(None),
        Refusal::BadReference { .. } => Ok(None),
        Refusal::Disabled => Ok(None),
        Refusal::AlreadyRunning(_) => Ok(None),
        Refusal::BadOption { .. } => Ok(None),
        Refusal::NoNodeSelected => Ok(None),
        Refusal::TooLarge(_) => Ok(None),
    }
}
