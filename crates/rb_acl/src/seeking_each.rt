//! The first of some places whose rule decides, for each of many resources: place by place, so that
//! each pattern of a rule is built once for all.
ghost use Rattle.rb_acl.specs.Columns.{earlier_of_each, decided_of_each};
ghost use Rattle.rb_acl.specs.Deciding.{decided};
ghost use Rattle.rb_acl.specs.Seeking.{place_decides, earlier_clause, earliest};
ghost use Rattle.std.specs.Prelude.{◌≡◌, None, IfOk, map};

use crate::columns::{answers_of_each, same_of_each};
use crate::effect::Effect;
use crate::policy::{Clause, Decision, Policies, Resource};
use crate::seeking::{comes_before_found, rule_at};
use rb_causes::NoMemory;
use std::alloc::Global;

/// For each resource the earliest of the places whose rule has this effect on the action.
pub fn earliest_of_each(
    alloc: Global,
    effect: Effect,
    policies: &Policies,
    resources: &[Resource],
    action: &str,
    places: &[Clause],
) -> Result<Vec<Option<Clause>>, NoMemory>
    ensures { IfOk result (λ found. found.items ≡ map (λ resource. earliest
        (place_decides effect policies.now resource action.now) None places.now) resources.now) }
{
    let mut found = none_of_each(alloc, resources)?;
    for place in places {
        let marks = place_decides_each(alloc, effect, policies, resources, action, place)?;
        found = earlier_of_each(alloc, place, found.as_slice(), marks.as_slice())?;
    }
    Ok(found)
}

/// For each resource whether the rule at this place has this effect on the action.
fn place_decides_each(
    alloc: Global,
    effect: Effect,
    policies: &Policies,
    resources: &[Resource],
    action: &str,
    place: &Clause,
) -> Result<Vec<bool>, NoMemory>
    ensures { IfOk result (λ marks. marks.items ≡ map (λ resource.
        place_decides effect policies.now resource action.now place.now) resources.now) }
{
    match rule_at(policies, place) {
        None => same_of_each(alloc, false, resources),
        Some(rule) => answers_of_each(alloc, resources, action, effect, rule),
    }
}

/// Nothing is found for any.
fn none_of_each(alloc: Global, resources: &[Resource]) -> Result<Vec<Option<Clause>>, NoMemory>
    ensures { IfOk result (λ found. found.items ≡ map (λ resource. None) resources.now) }
{
    Ok(resources.iter().map(|_| None).collect(alloc)?)
}

/// The earlier of what is found and this place, where it is marked.
fn earlier_marked(place: &Clause, found: Option<Clause>, mark: bool) -> Option<Clause>
    ensures { result ≡ earlier_clause (λ place. mark) found place.now }
{
    if comes_before_found(place, found) && mark {
        return Some(*place);
    }
    found
}

/// For each the earlier of what is found and this place, where it is marked.
fn earlier_of_each(
    alloc: Global,
    place: &Clause,
    found: &[Option<Clause>],
    marks: &[bool],
) -> Result<Vec<Option<Clause>>, NoMemory>
    ensures { IfOk result (λ first.
        first.items ≡ earlier_of_each place.now found.now marks.now) }
{
    Ok(
        found
            .iter()
            .zip(marks.iter())
            .map(|(first, mark)| earlier_marked(place, *first, *mark))
            .collect(alloc)?,
    )
}

/// The decision by the first place that denies and the first that allows.
fn decided(denied: Option<Clause>, allowed: Option<Clause>) -> Decision
    ensures { result ≡ decided denied allowed }
{
    match denied {
        Some(clause) => Decision::Denied(clause),
        None => match allowed {
            Some(clause) => Decision::Allowed(clause),
            None => Decision::NoneAllows,
        },
    }
}

/// So for each.
pub fn decided_of_each(
    alloc: Global,
    denied: &[Option<Clause>],
    allowed: &[Option<Clause>],
) -> Result<Vec<Decision>, NoMemory>
    ensures { IfOk result (λ decisions.
        decisions.items ≡ decided_of_each denied.now allowed.now) }
{
    Ok(
        denied
            .iter()
            .zip(allowed.iter())
            .map(|(d, a)| decided(*d, *a))
            .collect(alloc)?,
    )
}
