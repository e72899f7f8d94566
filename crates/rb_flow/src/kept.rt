ghost use Rattle.rb_flow.specs.Kept.{IsKept, IsReady, HasBegun, HasWithdrawn, Finishes, first_leaf_by, opens_by, status_by, row_for, slot_group, idle_state, unit_place, StaysPassed};
ghost use Rattle.rb_flow.specs.Tally.{group_count};
ghost use Rattle.rb_flow.specs.Leaves.{result_in};
ghost use Rattle.rb_marks.specs.Results.{steps_result};
ghost use Rattle.rb_marks.specs.Sound.{IsSound};
ghost use Rattle.rb_marks.specs.Units.{Outline, outline, units_of};
ghost use Rattle.rb_marks.specs.View.{branches_of};
ghost use Rattle.std.specs.Prelude.{◌≡◌, ◌<◌, ◌^◌, false, [], length, map, take, drop, get_or, set, IfOk};

use crate::choosing::first_unit;
use crate::cursor::{Cursor, first_cursors};
use crate::leaves::Leaves;
use crate::tally::Tally;
use crate::unit_state::UnitState;
use crate::working::{advance, group_of, make_units, next_slot, result_of, step_at, unit_holds};
use rb_causes::{Ending, NoMemory};
use rb_marks::{Leaf, Plan, Status, StepResult, Strategy, WorkUnit};
use std::alloc::Global;

/// What is kept beside the marks, so that they need not be gone through at each question.
#[derive(Drop)]
pub(crate) struct FlowCache {
    pub tally: Tally,
    pub leaves: Leaves,
    /// How far each unit has come, as the units lie in the tally.
    pub cursors: Vec<Cursor>,
    /// Whether the run was aborted or lost.
    pub stopped: bool,
    pub lost: bool,
}

/// How many groups of units the plan has.
fn group_count(plan: &Plan) -> usize
    ensures { result ≡ group_count (outline plan.now) }
{
    match plan.strategy {
        Strategy::NodeFirst => 1,
        Strategy::Sequential => plan.seq.steps.len(),
        Strategy::Parallel => plan.seq.steps.len(),
    }
}

/// That nothing of any unit has begun.
fn idle_states(alloc: Global, plan: &Plan) -> Result<Vec<UnitState>, NoMemory>
    requires nodes { length (outline plan.now).tiers < 2 ^ 32 }
    requires steps { length (outline plan.now).steps < 2 ^ 32 }
    ensures { IfOk result (λ states.
        states.items ≡ map idle_state (units_of (outline plan.now))) }
{
    let units = make_units(alloc, plan)?;
    let mut states = Vec::with_capacity(alloc, units.len())?;
    for unit in &units {
        states.push(UnitState {
            unit: *unit,
            outcome: StepResult::Undone,
            opened: false,
            running: false,
            withdrawn: false,
        })?;
    }
    Ok(states)
}

fn put_cursor(cursors: &mut Vec<Cursor>, place: usize, cursor: Cursor)
    requires { place < length cursors.old.items }
    ensures { cursors.new.items ≡ set cursors.old.items place cursor }
{
    cursors[place] = cursor;
}

impl FlowCache {
    /// What is kept before the first mark.
    pub(crate) fn make(alloc: Global, plan: &Plan) -> Result<FlowCache, NoMemory>
        requires { IsSound (outline plan.now) }
        ensures { IfOk result (λ kept. IsKept (outline plan.now) [] kept) }
    {
        let states = idle_states(alloc, plan)?;
        let cursors = first_cursors(alloc, states.len())?;
        let tally = Tally::make(alloc, plan.tiers.len(), group_count(plan), states)?;
        let leaves = Leaves::make(alloc, plan)?;
        Ok(FlowCache {
            tally,
            leaves,
            cursors,
            stopped: false,
            lost: false,
        })
    }

    /// How far the unit has come.
    fn cursor_of(&self, unit: WorkUnit) -> Cursor
        requires { unit_place self.now.tally.nodes unit < length self.now.cursors.items }
        ensures { result
            ≡ get_or self.now.cursors.items (unit_place self.now.tally.nodes unit) result }
    {
        self.cursors[unit.step as usize * self.tally.nodes + unit.node as usize]
    }

    /// The leaf that may start next.
    pub(crate) fn first_leaf(&self, plan: &Plan) -> Option<Leaf>
        requires { IsReady (outline plan.now) self.now }
        ensures { result ≡ first_leaf_by (outline plan.now) self.now }
    {
        if self.stopped {
            return None;
        }
        let unit = first_unit(plan, &self.tally)?;
        let row = self.leaves.row(self.tally.nodes, unit.node);
        let slot = next_slot(plan, row, unit, self.cursor_of(unit))?;
        Some(Leaf {
            node: unit.node,
            slot,
        })
    }

    /// The leaf has begun.
    pub(crate) fn begin(&mut self, plan: &Plan, leaf: Leaf)
        requires ready { IsReady (outline plan.now) self.old }
        requires group { slot_group (outline plan.now) leaf.slot
            < length self.old.tally.groups.items }
        requires node { leaf.node < self.old.tally.nodes }
        ensures { HasBegun (outline plan.now) leaf self.old self.new }
    {
        let group = group_of(plan, leaf.slot);
        let state = self.tally.state_at(group, leaf.node);
        self.tally.put(
            group,
            UnitState {
                opened: true,
                running: true,
                ..state
            },
        );
    }

    /// The leaf has ended so.
    pub(crate) fn finish(&mut self, plan: &Plan, leaf: Leaf, ending: Ending)
        requires ready { IsReady (outline plan.now) self.old }
        requires group { slot_group (outline plan.now) leaf.slot
            < length self.old.tally.groups.items }
        requires node { leaf.node < self.old.tally.nodes }
        requires slot { leaf.slot < self.old.leaves.slots }
        requires passed { StaysPassed (outline plan.now) leaf ending self.old }
        ensures { Finishes (outline plan.now) leaf ending self.old self.new }
    {
        self.leaves.settle(self.tally.nodes, leaf, ending);
        let group = group_of(plan, leaf.slot);
        let place = group * self.tally.nodes + leaf.node as usize;
        let state = self.tally.state_at(group, leaf.node);
        let row = self.leaves.row(self.tally.nodes, leaf.node);
        let cursor = advance(plan, row, state.unit, self.cursors[place]);
        let outcome = result_of(plan, row, state.unit, cursor);
        put_cursor(&mut self.cursors, place, cursor);
        self.tally.put(
            group,
            UnitState {
                outcome,
                opened: true,
                running: false,
                ..state
            },
        );
    }

    /// Whether no unit of the leaf is opened.
    pub(crate) fn opens(&self, plan: &Plan, leaf: Leaf) -> bool
        requires ready { IsReady (outline plan.now) self.now }
        requires sound { IsSound (outline plan.now) }
        ensures { result ≡ opens_by (outline plan.now) self.now leaf }
    {
        let group = group_of(plan, leaf.slot);
        if group >= self.tally.groups.len() || leaf.node as usize >= self.tally.nodes {
            return true;
        }
        let state = self.tally.state_at(group, leaf.node);
        !(unit_holds(plan, state.unit, leaf.slot) && state.opened)
    }

    /// The node is withdrawn.
    pub(crate) fn withdraw(&mut self, node: u32)
        requires ready { (p : Outline) × IsReady p self.old }
        requires node { node < self.old.tally.nodes }
        ensures { HasWithdrawn node self.old self.new }
    {
        self.tally.withdraw(node);
    }

    /// What has become of the run so far.
    pub(crate) fn status(&self, plan: &Plan) -> Status
        requires { IsReady (outline plan.now) self.now }
        ensures { result ≡ status_by (outline plan.now) self.now }
    {
        if self.lost {
            Status::Incomplete
        } else if self.tally.is_running() || self.first_leaf(plan).is_some() {
            Status::Running
        } else if self.stopped {
            Status::Aborted
        } else if self.tally.all_good() {
            Status::Succeeded
        } else {
            Status::Failed
        }
    }

    /// What has become of a top-level step on a node.
    pub(crate) fn result(&self, plan: &Plan, node: u32, step: u32) -> StepResult
        requires ready { IsReady (outline plan.now) self.now }
        requires node { node < self.now.tally.nodes }
        ensures { result ≡ steps_result (result_in (row_for self.now node))
            (outline plan.now).keepgoing false
            (branches_of (take 1 (drop step (outline plan.now).steps))) }
    {
        step_at(plan, self.leaves.row(self.tally.nodes, node), step)
    }
}
