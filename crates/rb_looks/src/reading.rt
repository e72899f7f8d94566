//! The decisions on reading many jobs, or many nodes: on all of them at once, so that each pattern
//! of the policies is built once.
ghost use Rattle.rb_acl.specs.Numbering.{AreNumbered};
ghost use Rattle.rb_plan.specs.Access.{job_decision, job_resource, node_decision, node_resource};
ghost use Rattle.std.specs.Prelude.{◌≡◌, codes, map, IfOk};

use rb_acl::{CallerIndex, Decision, Resource};
use rb_causes::NoMemory;
use rb_node::Node;
use rb_plan::{Access, HeldJob, job_resource, node_resource};
use std::alloc::Global;

fn job_resources(alloc: Global, jobs: &[HeldJob]) -> Result<Vec<Resource>, NoMemory>
    ensures { IfOk result (λ resources. resources.items ≡ map job_resource jobs.now) }
{
    let mut resources = Vec::with_capacity(alloc, jobs.len())?;
    for held in jobs {
        resources.push(job_resource(alloc, held)?)?;
    }
    Ok(resources)
}

fn node_resources(alloc: Global, nodes: &[Node]) -> Result<Vec<Resource>, NoMemory>
    ensures { IfOk result (λ resources. resources.items ≡ map node_resource nodes.now) }
{
    let mut resources = Vec::with_capacity(alloc, nodes.len())?;
    for node in nodes {
        resources.push(node_resource(alloc, node)?)?;
    }
    Ok(resources)
}

/// The decisions on reading each of the jobs.
pub(crate) fn job_reads(
    alloc: Global,
    access: &Access<'_>,
    jobs: &[HeldJob],
) -> Result<Vec<Decision>, NoMemory>
    requires { AreNumbered access.now.policies }
    ensures { IfOk result (λ decisions.
        decisions.items ≡ map (job_decision access.now (codes "read")) jobs.now) }
{
    let policies = access.policies;
    let index = CallerIndex::build(alloc, policies, access.caller, access.context, "job")?;
    let resources = job_resources(alloc, jobs)?;
    index.decide_each(alloc, policies, resources.as_slice(), "read")
}

/// The decisions on reading each of the nodes.
pub(crate) fn node_reads(
    alloc: Global,
    access: &Access<'_>,
    nodes: &[Node],
) -> Result<Vec<Decision>, NoMemory>
    requires { AreNumbered access.now.policies }
    ensures { IfOk result (λ decisions.
        decisions.items ≡ map (node_decision access.now (codes "read")) nodes.now) }
{
    let policies = access.policies;
    let index = CallerIndex::build(alloc, policies, access.caller, access.context, "node")?;
    let resources = node_resources(alloc, nodes)?;
    index.decide_each(alloc, policies, resources.as_slice(), "read")
}
