//! The state of an execution as it is shown.
ghost use Rattle.rb_log.specs.Executions.{Execution as LoggedExecution};
ghost use Rattle.rb_log.specs.Looks.{execution_state, node_states, node_steps, withdrawal_clause};
ghost use Rattle.rb_tables.specs.Progress.{HasTiers, IsProgress};
ghost use Rattle.rb_tables.specs.Tables.{IsOf};
ghost use Rattle.std.specs.Option.{option_copied};
ghost use Rattle.std.specs.Prelude.{◌≡◌, ◌<◌, find, length, nat_eq, IfOk};

use rb_causes::{Items, NoMemory, Text};
use rb_log::{NodeState, Shown};
use rb_marks::StepResult;
use rb_tables::execution::{Execution, WithdrawnNode};
use rb_tables::progress::Progress;
use std::alloc::Global;

/// The results of the top-level steps on the node at this place.
fn node_steps(alloc: Global, progress: &Progress, node: u32) -> Result<Items<StepResult>, NoMemory>
    requires { (l : LoggedExecution) × IsProgress progress.now l
        × (node < length l.accepted.plan.tiers) }
    ensures { (l : LoggedExecution) → IsProgress progress.now l →
        node < length l.accepted.plan.tiers →
        IfOk result (λ results. results ≡ node_steps l node) }
{
    let mut results = Items::new(alloc);
    for step in 0..progress.steps() {
        results.push(progress.result(node, step))?;
    }
    Ok(results)
}

/// The one at this place of the nodes that were withdrawn.
fn withdrawn_at(withdrawn: &[WithdrawnNode], place: u32) -> Option<&WithdrawnNode>
    ensures { option_copied result ≡ find (λ w. nat_eq w.node place) withdrawn.now }
{
    withdrawn.iter().find(|one| one.node == place)
}

/// The text of the clause by which the node at this place was withdrawn, if it was.
fn withdrawal_clause(
    alloc: Global,
    execution: &Execution,
    place: u32,
) -> Result<Option<Text>, NoMemory>
    ensures { (l : LoggedExecution) → IsOf execution.now l →
        IfOk result (λ clause. clause ≡ withdrawal_clause l place) }
{
    match withdrawn_at(execution.withdrawn.as_slice(), place) {
        None => Ok(None),
        Some(found) => Ok(Some(found.clause.copy(alloc)?)),
    }
}

/// The state of the node at this place.
fn node_state(
    alloc: Global,
    execution: &Execution,
    place: u32,
    name: &Text,
) -> Result<NodeState, NoMemory>
    requires { (l : LoggedExecution) × IsOf execution.now l
        × (place < length l.accepted.plan.tiers) }
    ensures { (l : LoggedExecution) → IsOf execution.now l →
        place < length l.accepted.plan.tiers →
        IfOk result (λ state. state ≡ record {
          clause = withdrawal_clause l place;
          node = name.now;
          steps = node_steps l place;
        }) }
{
    let clause = withdrawal_clause(alloc, execution, place)?;
    let node = name.copy(alloc)?;
    let steps = node_steps(alloc, &execution.progress, place)?;
    Ok(NodeState {
        clause,
        node,
        steps,
    })
}

/// The states of the nodes.
fn node_states(alloc: Global, execution: &Execution) -> Result<Items<NodeState>, NoMemory>
    requires { (l : LoggedExecution) × IsOf execution.now l × HasTiers l }
    ensures { (l : LoggedExecution) → IsOf execution.now l → HasTiers l →
        IfOk result (λ states. states ≡ node_states l 0 l.accepted.nodes) }
{
    let mut states = Items::new(alloc);
    for name in execution.nodes.as_slice() {
        let place = states.len() as u32;
        states.push(node_state(alloc, execution, place, name)?)?;
    }
    Ok(states)
}

/// The state of an execution.
pub(crate) fn execution_state(alloc: Global, execution: &Execution) -> Result<Shown, NoMemory>
    requires { (l : LoggedExecution) × IsOf execution.now l × HasTiers l }
    ensures { (l : LoggedExecution) → IsOf execution.now l → HasTiers l →
        IfOk result (λ shown. shown ≡ execution_state l) }
{
    Ok(Shown::State {
        id: execution.number,
        nodes: node_states(alloc, execution)?,
        status: execution.progress.status(),
    })
}
