//! The selected nodes, sorted into those that may be run on and those that may not.
ghost use Rattle.rb_acl.specs.Numbering.{AreNumbered};
ghost use Rattle.rb_acl.specs.Deciding.{is_allowed};
ghost use Rattle.rb_acl.specs.declared.policy.Decision.{Decision};
ghost use Rattle.rb_node.specs.declared.node.Node.{Node};
ghost use Rattle.rb_plan.specs.Access.{node_run};
ghost use Rattle.rb_plan.specs.Deciding.{IsIndexFor};
ghost use Rattle.rb_plan.specs.Sorting.{AreSorted};
ghost use Rattle.rb_plan.specs.Targets.{chosen_nodes, runnable, dropped};
ghost use Rattle.std.specs.Prelude.{◌≡◌, ◌++◌, ◌∷◌, [], IfOk, OnOk, codes, map, unwrap_or};

use crate::accepted::Dropped;
use crate::access::{Access, is_allowed};
use crate::copying::copy_node;
use crate::world::RunAsk;
use rb_acl::{CallerIndex, Decision};
use rb_causes::{Items, NoMemory};
use rb_job::Job;
use rb_node::{Filter, Node};
use std::alloc::Global;

/// Selected nodes: those that may be run on, and those that may not.
#[derive(Drop)]
pub(crate) struct SortedNodes {
    pub(crate) runnable: Vec<Node>,
    pub(crate) dropped: Items<Dropped>,
}

impl SortedNodes {
    fn new(alloc: Global) -> SortedNodes
        ensures runnable { result.runnable.items ≡ [] }
        ensures dropped { result.dropped ≡ [] }
    {
        SortedNodes {
            runnable: Vec::new(alloc),
            dropped: Items::new(alloc),
        }
    }
}

/// The filter of the ask, or where it has none that of the job.
fn filter_of<'a>(ask: &'a RunAsk, job: &'a Job) -> &'a Filter
    ensures { result.now ≡ unwrap_or ask.now.filter job.now.filter }
{
    match &ask.filter {
        Some(filter) => filter,
        None => &job.filter,
    }
}

/// The nodes that are selected.
fn chosen_nodes<'a>(
    alloc: Global,
    ask: &RunAsk,
    job: &Job,
    nodes: &'a [Node],
) -> Result<Vec<&'a Node>, NoMemory>
    ensures { IfOk result (λ picked.
        map (λ node. node.now) picked.items ≡ chosen_nodes ask.now job.now nodes.now) }
{
    filter_of(ask, job).chosen(alloc, nodes, job.exclude_first)
}

/// The nodes that are selected, sorted by whether they may be run on.
pub(crate) fn sorted_nodes(
    alloc: Global,
    access: &Access<'_>,
    ask: &RunAsk,
    job: &Job,
    nodes: &[Node],
) -> Result<SortedNodes, NoMemory>
    requires { AreNumbered access.now.policies }
    ensures { IfOk result
        (AreSorted (node_run access.now) (chosen_nodes ask.now job.now nodes.now)) }
{
    let picked = chosen_nodes(alloc, ask, job, nodes)?;
    if picked.is_empty() {
        return Ok(SortedNodes::new(alloc));
    }
    let index = access.index(alloc, "node")?;
    sort_each(alloc, access, &index, picked.as_slice())
}

/// These selected nodes, sorted by whether they may be run on.
fn sort_each(
    alloc: Global,
    access: &Access<'_>,
    index: &CallerIndex,
    picked: &[&Node],
) -> Result<SortedNodes, NoMemory>
    requires { IsIndexFor access.now (codes "node") index.now }
    ensures { IfOk result (AreSorted (node_run access.now) (map (λ node. node.now) picked.now)) }
{
    let decisions = access.node_runs_by(alloc, index, picked)?;
    let mut sorted = SortedNodes::new(alloc);
    for (i, node) in picked.iter().enumerate() {
        sort_node(alloc, decisions[i], &mut sorted, *node)?;
    }
    Ok(sorted)
}

/// Puts a selected node among those that may be run on, or among the others, as this decides.
fn sort_node(
    alloc: Global,
    decision: Decision,
    sorted: &mut SortedNodes,
    node: &Node,
) -> Result<(), NoMemory>
    ensures runnable { (decide : Node → Decision) → decision ≡ decide node.now →
        OnOk result (sorted.new.runnable.items
        ≡ sorted.old.runnable.items ++ runnable decide (node.now ∷ [])) }
    ensures dropped { (decide : Node → Decision) → decision ≡ decide node.now →
        OnOk result (sorted.new.dropped ≡ sorted.old.dropped ++ dropped decide (node.now ∷ [])) }
{
    if is_allowed(decision) {
        sorted.runnable.push(copy_node(alloc, node)?)?;
    } else {
        let name = node.name.copy(alloc)?;
        sorted.dropped.push(Dropped {
            node: name,
            decision,
        })?;
    }
    Ok(())
}
