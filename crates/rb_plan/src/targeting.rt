//! The nodes of a run, of those that may be run on: their order, their tiers and their bound.
ghost use Rattle.rb_job.specs.Sound.{is_sound_job};
ghost use Rattle.rb_plan.specs.Targets.{percent_of, target_bound, target_tiers, targets};
ghost use Rattle.std.specs.Prelude.{◌≡◌, ◌≤◌, true, IfOk, length, map, option_map};

use rb_causes::{Items, NoMemory};
use rb_job::{Job, Orchestrator};
use rb_node::Node;
use rb_orch::{bound, pick_subset, rank, tiers};
use std::alloc::Global;

/// The attribute by which the nodes of a job are ranked.
fn rank_key(job: &Job) -> Option<&str>
    ensures { option_map (λ key. key.now) result ≡ job.now.rank_by }
{
    match &job.rank_by {
        Some(key) => Some(key.as_str()),
        None => None,
    }
}

/// The nodes of a run in their order, of those that may be run on.
pub(crate) fn targets(
    alloc: Global,
    job: &Job,
    draw: u64,
    nodes: Vec<Node>,
) -> Result<Vec<Node>, NoMemory>
    ensures { IfOk result (λ taken. taken.items ≡ targets job.now draw nodes.items) }
{
    let ranked = rank(nodes, rank_key(job), job.rank_down)?;
    match job.orchestrator {
        Orchestrator::Subset(count) => pick_subset(alloc, ranked, count, draw),
        Orchestrator::Plain => Ok(ranked),
        Orchestrator::RankTiered => Ok(ranked),
        Orchestrator::MaxPercentage(_) => Ok(ranked),
    }
}

/// The tier of each of these nodes: by rank value where the job is run in tiers, else 0.
pub(crate) fn target_tiers(alloc: Global, job: &Job, nodes: &[Node]) -> Result<Items<u32>, NoMemory>
    requires { length nodes.now ≤ 10000 }
    ensures { IfOk result (λ numbers.
        numbers ≡ target_tiers job.now.orchestrator job.now.rank_by nodes.now) }
{
    match job.orchestrator {
        Orchestrator::RankTiered => Ok(Items::of(tiers(alloc, nodes, rank_key(job))?)),
        Orchestrator::Plain => one_tier(alloc, nodes),
        Orchestrator::Subset(_) => one_tier(alloc, nodes),
        Orchestrator::MaxPercentage(_) => one_tier(alloc, nodes),
    }
}

fn one_tier(alloc: Global, nodes: &[Node]) -> Result<Items<u32>, NoMemory>
    ensures { IfOk result (λ numbers. numbers ≡ map (λ node. 0) nodes.now) }
{
    let mut numbers = Items::new(alloc);
    for _node in nodes {
        numbers.push(0)?;
    }
    Ok(numbers)
}

/// The share of the nodes that may be in work at once.
fn percent_of(orchestrator: Orchestrator) -> Option<u32>
    ensures { result ≡ percent_of orchestrator }
{
    match orchestrator {
        Orchestrator::MaxPercentage(percent) => Some(percent),
        Orchestrator::Plain => None,
        Orchestrator::Subset(_) => None,
        Orchestrator::RankTiered => None,
    }
}

/// How many of these nodes may be in work at once.
pub(crate) fn target_bound(job: &Job, nodes: &[Node]) -> u32
    requires job { is_sound_job job.now ≡ true }
    requires nodes { length nodes.now ≤ 10000 }
    ensures { result ≡ target_bound job.now nodes.now }
{
    bound(
        job.threads,
        percent_of(job.orchestrator),
        nodes.len() as u64,
    )
}
