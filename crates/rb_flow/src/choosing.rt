ghost use Rattle.rb_flow.specs.Choice.{first_by, fits};
ghost use Rattle.rb_flow.specs.Order.{IsFirstPlace, may_go_on, may_enter, bars_group, has_next, is_sequential, can_run, is_held, is_lower, enters, lesser_place};
ghost use Rattle.rb_flow.specs.Tally.{IsTally, IsTallyOf};
ghost use Rattle.rb_marks.specs.Units.{outline};
ghost use Rattle.std.specs.Prelude.{◌≡◌, ◌<◌, ◌≤◌, ℕ, length, get_or};

use crate::group_state::GroupState;
use crate::tally::Tally;
use crate::unit_state::UnitState;
use rb_marks::{Plan, Strategy, WorkUnit};

/// The first unit that may go on, or open, where nothing stops the run.
pub(crate) fn first_unit(plan: &Plan, tally: &Tally) -> Option<WorkUnit>
    requires is { IsTally tally.now }
    requires of { IsTallyOf (outline plan.now) tally.now }
    ensures { result
        ≡ first_by (outline plan.now) tally.now.states.items tally.now.states.items }
{
    let place = lesser_place(first_going(plan, tally), first_entering(plan, tally))?;
    Some(tally.states[place].unit)
}

/// The lesser place.
fn lesser_place(a: Option<usize>, b: Option<usize>) -> Option<usize>
    ensures { result ≡ lesser_place a b }
{
    match a {
        None => b,
        Some(x) => match b {
            None => Some(x),
            Some(y) => Some(x.min(y)),
        },
    }
}

/// The first place of a unit in work that may go on.
fn first_going(plan: &Plan, tally: &Tally) -> Option<usize>
    requires is { IsTally tally.now }
    requires of { IsTallyOf (outline plan.now) tally.now }
    ensures { IsFirstPlace
        (may_go_on (outline plan.now) tally.now.states.items) tally.now.states.items result }
{
    for place in tally.places.as_slice() {
        if can_run(plan, tally, tally.states[*place]) {
            return Some(*place);
        }
    }
    None
}

/// Whether no leaf of the unit is open, and there may be one.
fn can_run(plan: &Plan, tally: &Tally, state: UnitState) -> bool
    requires is { IsTally tally.now }
    requires nodes { tally.now.nodes ≡ length (outline plan.now).tiers }
    requires node { state.unit.node < tally.now.nodes }
    ensures { result ≡ can_run (outline plan.now) tally.now.states.items state }
{
    !state.running && fits(plan, tally, state.unit.node)
}

/// Whether with this node there are no more nodes in work than may be.
fn fits(plan: &Plan, tally: &Tally, node: u32) -> bool
    requires is { IsTally tally.now }
    requires nodes { tally.now.nodes ≡ length (outline plan.now).tiers }
    requires node { node < tally.now.nodes }
    ensures { result ≡ fits (outline plan.now) tally.now.states.items node }
{
    let bound = plan.bound as usize;
    if tally.works[node as usize] == 0 {
        tally.busy < bound
    } else {
        tally.busy <= bound
    }
}

/// The first place of a unit that may open.
fn first_entering(plan: &Plan, tally: &Tally) -> Option<usize>
    requires is { IsTally tally.now }
    requires of { IsTallyOf (outline plan.now) tally.now }
    ensures { IsFirstPlace
        (may_enter (outline plan.now) tally.now.states.items) tally.now.states.items result }
{
    let mut at = 0;
    let mut start = 0;
    for state in tally.groups.as_slice() {
        let end = start + tally.nodes;
        at = first_from(tally.places.as_slice(), at, start);
        if has_next(plan, tally, *state) {
            if enters(plan, tally, at, end, tally.states[start + state.lead]) {
                return Some(start + state.lead);
            }
            // All of the later steps wait for this one.
            if is_sequential(plan.strategy) {
                return None;
            }
        }
        start = end;
    }
    None
}

/// From this index on the first of the places that is not below the limit.
fn first_from(places: &[usize], from: usize, limit: usize) -> usize
    requires { from ≤ length places.now }
    ensures within { result ≤ length places.now }
    ensures below { (j : ℕ) → from ≤ j → j < result → get_or places.now j 0 < limit }
    ensures above { result < length places.now → limit ≤ get_or places.now result 0 }
{
    for at in from..places.len() {
        if places[at] >= limit {
            return at;
        }
    }
    places.len()
}

/// Whether the first unit of the group that is not opened is there, and not barred.
fn has_next(plan: &Plan, tally: &Tally, group: GroupState) -> bool
    ensures { result ≡ has_next (outline plan.now) tally.now group }
{
    group.lead < tally.nodes && !bars_group(plan, tally, group)
}

/// Whether the units of the group that are not opened are barred.
fn bars_group(plan: &Plan, tally: &Tally, group: GroupState) -> bool
    ensures { result ≡ bars_group (outline plan.now) tally.now group }
{
    group.bad > 0 && !plan.keep_nodes || tally.bad > group.bad && !plan.seq.keepgoing
}

fn is_sequential(strategy: Strategy) -> bool
    ensures { result ≡ is_sequential strategy }
{
    match strategy {
        Strategy::NodeFirst => false,
        Strategy::Sequential => true,
        Strategy::Parallel => false,
    }
}

/// Whether the first unit of its group that is not opened, where that is not barred, may open.
fn enters(plan: &Plan, tally: &Tally, at: usize, end: usize, state: UnitState) -> bool
    requires is { IsTally tally.now }
    requires nodes { tally.now.nodes ≡ length (outline plan.now).tiers }
    requires node { state.unit.node < tally.now.nodes }
    ensures { result ≡ enters (outline plan.now) tally.now at end state }
{
    can_run(plan, tally, state) && !is_held(plan, tally, at, end, state.unit.tier)
}

/// Whether what is in work holds up a unit of this tier, whose group ends before this place.
fn is_held(plan: &Plan, tally: &Tally, at: usize, end: usize, tier: u32) -> bool
    requires { IsTally tally.now }
    ensures { result ≡ is_held (outline plan.now) tally.now at end tier }
{
    is_sequential(plan.strategy) && at > 0 || is_lower(tally, at, end, tier)
}

/// Whether the place of a unit in work at this index lies before the end, and its unit is of a
/// lower tier.
fn is_lower(tally: &Tally, at: usize, end: usize, tier: u32) -> bool
    requires { IsTally tally.now }
    ensures { result ≡ is_lower tally.now at end tier }
{
    if at >= tally.places.len() {
        return false;
    }
    let place = tally.places[at];
    if place >= end {
        return false;
    }
    tally.states[place].unit.tier < tier
}
