ghost use Rattle.rb_flow.specs.Kept.{slot_group, first_holding};
ghost use Rattle.rb_flow.specs.Cursors.{HasPassed};
ghost use Rattle.rb_flow.specs.Leaves.{result_in};
ghost use Rattle.rb_marks.specs.Units.{outline, steps_hold, unit_steps};
ghost use Rattle.rb_marks.specs.Results.{steps_result};
ghost use Rattle.rb_marks.specs.Units.{node_units, units_of};
ghost use Rattle.rb_marks.specs.First.{next_in_steps};
ghost use Rattle.rb_marks.specs.View.{branches_of, step_tree};
ghost use Rattle.std.specs.Prelude.{◌≡◌, ◌++◌, ◌<◌, ◌^◌, false, map, take, drop, length, OnOk, IfOk};

use crate::cursor::{self, Cursor};
use crate::results::{next_in_steps, step_holds, steps_hold, steps_result};
use rb_causes::NoMemory;
use rb_marks::{Plan, Step, StepResult, Strategy, WorkUnit};
use std::alloc::Global;

/// Adds a unit of this step for each node.
fn push_units(units: &mut Vec<WorkUnit>, step: u32, tiers: &[u32]) -> Result<(), NoMemory>
    requires { length tiers.now < 2 ^ 32 }
    ensures { OnOk result (units.new.items ≡ units.old.items ++ node_units step 0 tiers.now) }
{
    for (node, tier) in tiers.iter().enumerate() {
        units.push(WorkUnit {
            step,
            node: node as u32,
            tier: *tier,
        })?;
    }
    Ok(())
}

/// The units of a plan, by step and then node.
pub(crate) fn make_units(alloc: Global, plan: &Plan) -> Result<Vec<WorkUnit>, NoMemory>
    requires nodes { length (outline plan.now).tiers < 2 ^ 32 }
    requires steps { length (outline plan.now).steps < 2 ^ 32 }
    ensures { IfOk result (λ v. v.items ≡ units_of (outline plan.now)) }
{
    let tiers = plan.tiers.as_slice();
    let mut units = Vec::new(alloc);
    if plan.strategy == Strategy::NodeFirst {
        push_units(&mut units, 0, tiers)?;
        return Ok(units);
    }
    for (step, _) in plan.seq.steps.as_slice().iter().enumerate() {
        push_units(&mut units, step as u32, tiers)?;
    }
    Ok(units)
}

/// The one step with this number, or none.
fn steps_at(steps: &[Step], step: u32) -> &[Step]
    ensures { map step_tree result.now ≡ take 1 (drop step (map step_tree steps.now)) }
{
    let at = step as usize;
    if at < steps.len() {
        &steps[at..at + 1]
    } else {
        &steps[..0]
    }
}

fn unit_steps(plan: &Plan, unit: WorkUnit) -> &[Step]
    ensures { map step_tree result.now ≡ unit_steps (outline plan.now) unit }
{
    match plan.strategy {
        Strategy::NodeFirst => plan.seq.steps.as_slice(),
        Strategy::Sequential => steps_at(plan.seq.steps.as_slice(), unit.step),
        Strategy::Parallel => steps_at(plan.seq.steps.as_slice(), unit.step),
    }
}

/// The cursor of a unit moved behind steps that let it go on, by the row of its node.
pub(crate) fn advance(plan: &Plan, row: &[StepResult], unit: WorkUnit, cursor: Cursor) -> Cursor
    requires { HasPassed (outline plan.now) (result_in row.now) unit cursor }
    ensures { HasPassed (outline plan.now) (result_in row.now) unit result }
{
    cursor::advance(row, plan.seq.keepgoing, unit_steps(plan, unit), cursor)
}

/// What has become of a unit, by the row of its node and the unit's cursor.
pub(crate) fn result_of(
    plan: &Plan,
    row: &[StepResult],
    unit: WorkUnit,
    cursor: Cursor,
) -> StepResult
    requires { HasPassed (outline plan.now) (result_in row.now) unit cursor }
    ensures { result ≡ steps_result (result_in row.now) (outline plan.now).keepgoing false
        (branches_of (unit_steps (outline plan.now) unit)) }
{
    let steps = unit_steps(plan, unit);
    steps_result(
        row,
        plan.seq.keepgoing,
        cursor.bad,
        cursor::steps_from(steps, cursor.at),
    )
}

/// What has become of a top-level step on a node, by the row of the node.
pub(crate) fn step_at(plan: &Plan, row: &[StepResult], step: u32) -> StepResult
    ensures { result ≡ steps_result (result_in row.now) (outline plan.now).keepgoing false
        (branches_of (take 1 (drop step (outline plan.now).steps))) }
{
    steps_result(
        row,
        plan.seq.keepgoing,
        false,
        steps_at(plan.seq.steps.as_slice(), step),
    )
}

/// The first slot that a unit waits for, by the row of its node and the unit's cursor.
pub(crate) fn next_slot(
    plan: &Plan,
    row: &[StepResult],
    unit: WorkUnit,
    cursor: Cursor,
) -> Option<u32>
    requires { HasPassed (outline plan.now) (result_in row.now) unit cursor }
    ensures { result ≡ next_in_steps (result_in row.now) (outline plan.now).keepgoing
        (branches_of (unit_steps (outline plan.now) unit)) }
{
    let steps = unit_steps(plan, unit);
    next_in_steps(
        row,
        plan.seq.keepgoing,
        cursor::steps_from(steps, cursor.at),
    )
}

/// Whether the slot is one of the unit's steps.
pub(crate) fn unit_holds(plan: &Plan, unit: WorkUnit, slot: u32) -> bool
    ensures { result ≡ steps_hold (branches_of (unit_steps (outline plan.now) unit)) slot }
{
    steps_hold(unit_steps(plan, unit), slot)
}

/// The group of a slot: 0 for a plan node by node, else the first top-level step that holds it, and
/// their number where none does.
pub(crate) fn group_of(plan: &Plan, slot: u32) -> usize
    ensures { result ≡ slot_group (outline plan.now) slot }
{
    if plan.strategy == Strategy::NodeFirst {
        return 0;
    }
    first_holding(plan.seq.steps.as_slice(), slot)
}

/// The first of these steps that holds the slot; their number where none does.
fn first_holding(steps: &[Step], slot: u32) -> usize
    ensures { result ≡ first_holding (map step_tree steps.now) slot }
{
    for (at, step) in steps.iter().enumerate() {
        if step_holds(step, slot) {
            return at;
        }
    }
    steps.len()
}
