//! The first of some places whose rule decides.
ghost use Rattle.rb_acl.specs.Plain.{are_plain};
ghost use Rattle.rb_acl.specs.Seeking.{rule_at, place_decides, is_earlier, comes_before_found, earlier_clause, earliest};
ghost use Rattle.std.specs.Option.{option_copied};
ghost use Rattle.std.specs.Prelude.{◌≡◌, true, IfOk, IsOk, map};

use crate::applying::rule_answers;
use crate::effect::Effect;
use crate::keyed::Keyed;
use crate::policy::{Clause, Policies, Resource, Rule};
use rb_causes::NoMemory;
use std::alloc::Global;

/// What is sought: a rule that has this effect on the action, on this resource.
#[derive(Drop)]
pub struct Sought<'a> {
    pub effect: Effect,
    pub policies: &'a Policies,
    pub resource: &'a Resource,
    pub action: &'a str,
}

/// The rule at a place.
pub fn rule_at<'a>(policies: &'a Policies, place: &Clause) -> Option<&'a Rule>
    ensures { option_copied result ≡ rule_at policies.now place.now }
{
    let policy = policies.docs.as_slice().get(place.doc as usize)?;
    let rules = policy.types.as_slice().get(place.type_index as usize)?;
    rules.rules.as_slice().get(place.rule as usize)
}

fn decides(alloc: Global, sought: &Sought, place: &Clause) -> Result<bool, NoMemory>
    ensures found { IfOk result (λ yes. yes ≡ place_decides sought.now.effect
        sought.now.policies.now sought.now.resource.now sought.now.action.now place.now) }
    ensures memory { are_plain sought.now.policies.now ≡ true → IsOk result }
{
    match rule_at(sought.policies, place) {
        None => Ok(false),
        Some(rule) => { rule_answers(alloc, sought.resource, sought.action, sought.effect, rule) }
    }
}

fn is_earlier(a: &Clause, b: &Clause) -> bool
    ensures { result ≡ is_earlier a.now b.now }
{
    a.doc < b.doc
        || (a.doc == b.doc
            && (a.type_index < b.type_index || (a.type_index == b.type_index && a.rule < b.rule)))
}

/// Whether nothing is found yet, or something later.
pub fn comes_before_found(place: &Clause, found: Option<Clause>) -> bool
    ensures { result ≡ comes_before_found place.now found }
{
    match found {
        None => true,
        Some(found) => is_earlier(place, &found),
    }
}

/// The earlier of what is found and this place, where its rule decides.
fn earlier_clause(
    alloc: Global,
    sought: &Sought,
    found: Option<Clause>,
    place: &Clause,
) -> Result<Option<Clause>, NoMemory>
    ensures found { IfOk result (λ first. first ≡ earlier_clause (place_decides sought.now.effect
        sought.now.policies.now sought.now.resource.now sought.now.action.now) found place.now) }
    ensures memory { are_plain sought.now.policies.now ≡ true → IsOk result }
{
    if comes_before_found(place, found) && decides(alloc, sought, place)? {
        return Ok(Some(*place));
    }
    Ok(found)
}

/// The earliest of what is found and the places whose rule decides.
pub fn earliest(
    alloc: Global,
    sought: &Sought,
    found: Option<Clause>,
    places: &[Clause],
) -> Result<Option<Clause>, NoMemory>
    ensures found { IfOk result (λ first. first ≡ earliest (place_decides sought.now.effect
        sought.now.policies.now sought.now.resource.now sought.now.action.now)
        found places.now) }
    ensures memory { are_plain sought.now.policies.now ≡ true → IsOk result }
{
    let mut first = found;
    for place in places {
        first = earlier_clause(alloc, sought, first, place)?;
    }
    Ok(first)
}

/// So of places under a text.
pub fn earliest_under(
    alloc: Global,
    sought: &Sought,
    found: Option<Clause>,
    keyed: &[Keyed],
) -> Result<Option<Clause>, NoMemory>
    ensures found { IfOk result (λ first. first ≡ earliest (place_decides sought.now.effect
        sought.now.policies.now sought.now.resource.now sought.now.action.now)
        found (map (λ k. k.place) keyed.now)) }
    ensures memory { are_plain sought.now.policies.now ≡ true → IsOk result }
{
    let mut first = found;
    for k in keyed {
        first = earlier_clause(alloc, sought, first, &k.place)?;
    }
    Ok(first)
}
