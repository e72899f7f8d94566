ghost use Rattle.rb_flow.specs.Tally.{is_in_work, places_from, works_from, busy_count};
ghost use Rattle.rb_flow.specs.Tally.{is_passed, leading, group_of};
ghost use Rattle.rb_marks.specs.Units.{is_bad};
ghost use Rattle.rb_marks.specs.First.{is_good};
ghost use Rattle.std.specs.List.{prefix_len};
ghost use Rattle.std.specs.List.Sorted.{IsNonDecreasing};
ghost use Rattle.std.specs.Prelude.{◌≡◌, ◌+◌, ◌<◌, ◌≤◌, ◌^◌, true, false, cond, nat_lt};
ghost use Rattle.std.specs.Prelude.{length, get_or, set, vec_capacity};

use crate::group_state::GroupState;
use crate::unit_state::{UnitState, is_in_work, is_passed};
use rb_marks::StepResult;

/// Whether it has come to a bad end.
pub(crate) fn is_bad(outcome: StepResult) -> bool
    ensures { result ≡ is_bad outcome }
{
    match outcome {
        StepResult::Undone => false,
        StepResult::Good => false,
        StepResult::Bad => true,
    }
}

/// Whether it has come to a good end.
pub(crate) fn is_good(outcome: StepResult) -> bool
    ensures { result ≡ is_good outcome }
{
    match outcome {
        StepResult::Undone => false,
        StepResult::Good => true,
        StepResult::Bad => false,
    }
}

/// The count, where one unit was or was not counted, and now is or is not to be.
pub(crate) fn recount(count: usize, was: bool, is: bool) -> usize
    requires counted { cond was 1 0 ≤ count }
    requires fits { count < 2 ^ 63 }
    ensures { result + cond was 1 0 ≡ count + cond is 1 0 }
{
    count + usize::from(is) - usize::from(was)
}

/// How many of these places lie below this one.
fn rank(places: &[usize], place: usize) -> usize
    requires { IsNonDecreasing places.now }
    ensures { result ≡ prefix_len (λ p. nat_lt p place) places.now }
{
    places.partition_point(|p| *p < place)
}

/// Puts the place of a unit that is in work now among the places.
fn enter(places: &mut Vec<usize>, states: &[UnitState], place: usize, old: UnitState)
    requires place { place < length states.now }
    requires was { is_in_work old ≡ false }
    requires is { is_in_work (get_or states.now place old) ≡ true }
    requires places { places.old.items ≡ places_from 0 (set states.now place old) }
    requires room { length states.now ≤ vec_capacity places.old }
    ensures places { places.new.items ≡ places_from 0 states.now }
    ensures room { length states.now ≤ vec_capacity places.new }
{
    let at = rank(places.as_slice(), place);
    // It does not fail: there is room for the place of each unit.
    let _ = places.insert(at, place);
}

/// Takes the place of a unit that is in work no more out of the places.
fn leave(places: &mut Vec<usize>, states: &[UnitState], place: usize, old: UnitState)
    requires place { place < length states.now }
    requires was { is_in_work old ≡ true }
    requires is { is_in_work (get_or states.now place old) ≡ false }
    requires places { places.old.items ≡ places_from 0 (set states.now place old) }
    requires room { length states.now ≤ vec_capacity places.old }
    ensures places { places.new.items ≡ places_from 0 states.now }
    ensures room { length states.now ≤ vec_capacity places.new }
{
    let at = rank(places.as_slice(), place);
    places.remove(at);
}

/// Puts right where units are in work; it was right with the old one at the place.
pub(crate) fn put_place(places: &mut Vec<usize>, states: &[UnitState], place: usize, old: UnitState)
    requires place { place < length states.now }
    requires places { places.old.items ≡ places_from 0 (set states.now place old) }
    requires room { length states.now ≤ vec_capacity places.old }
    ensures places { places.new.items ≡ places_from 0 states.now }
    ensures room { length states.now ≤ vec_capacity places.new }
{
    let is = is_in_work(&states[place]);
    if is == is_in_work(&old) {
        return;
    }
    if is {
        enter(places, states, place, old);
    } else {
        leave(places, states, place, old);
    }
}

/// Puts right how many units of each node are in work, and returns how many nodes have one; both
/// were right with the old one at the place.
pub(crate) fn put_work(
    works: &mut Vec<usize>,
    busy: usize,
    states: &[UnitState],
    place: usize,
    old: UnitState,
) -> usize
    requires place { place < length states.now }
    requires unit { (get_or states.now place old).unit ≡ old.unit }
    requires node { old.unit.node < length works.old.items }
    requires works { works.old.items
        ≡ works_from (set states.now place old) 0 (length works.old.items) }
    requires busy { busy ≡ busy_count works.old.items }
    ensures works { works.new.items ≡ works_from states.now 0 (length works.old.items) }
    ensures busy { result ≡ busy_count works.new.items }
{
    let node = old.unit.node as usize;
    let before = works[node];
    let now = recount(before, is_in_work(&old), is_in_work(&states[place]));
    works[node] = now;
    recount(busy, before > 0, now > 0)
}

/// How many of the first units are passed; so many are, at least.
fn advance(units: &[UnitState], lead: usize) -> usize
    requires { lead ≤ leading units.now }
    ensures { result ≡ leading units.now }
{
    let mut lead = lead;
    while lead < units.len() && is_passed(&units[lead]) {
        lead += 1;
    }
    lead
}

/// What is counted of a group, by what was counted with the old one at the place.
pub(crate) fn put_group(
    group: GroupState,
    units: &[UnitState],
    place: usize,
    old: UnitState,
) -> GroupState
    requires place { place < length units.now }
    requires passed { is_passed old ≡ true → is_passed (get_or units.now place old) ≡ true }
    requires group { group ≡ group_of (set units.now place old) }
    ensures { result ≡ group_of units.now }
{
    GroupState {
        lead: advance(units, group.lead),
        bad: recount(group.bad, is_bad(old.outcome), is_bad(units[place].outcome)),
    }
}
