//! Rules' tests of many resources: test by test, so that each pattern is built once for all.
ghost use Rattle.rb_acl.specs.Applying.{property_text, test_holds, names_action, listed_actions};
ghost use Rattle.rb_text.specs.Matching.{matches_whole};
ghost use Rattle.std.specs.List.{list_all};
ghost use Rattle.std.specs.Prelude.{◌≡◌, ◌&&◌, ◌∷◌, [], IfOk, map};

use crate::applying::{actions_of, is_named};
use crate::effect::Effect;
use crate::joining::joined;
use crate::policy::{Resource, Rule, Test};
use crate::testing::{is_tags, prop_text};
use rb_causes::{NoMemory, Text};
use rb_text::{Pattern, both_true};
use std::alloc::Global;
use std::slice;

/// For each resource whether the rule names the action for this effect, and its tests hold.
pub fn answers_of_each(
    alloc: Global,
    resources: &[Resource],
    action: &str,
    effect: Effect,
    rule: &Rule,
) -> Result<Vec<bool>, NoMemory>
    ensures { IfOk result (λ marks. marks.items ≡ map
        (λ resource. names_action (listed_actions effect rule.now) action.now
        && list_all (test_holds resource) rule.now.tests) resources.now) }
{
    if !is_named(actions_of(rule, effect), action) {
        return same_of_each(alloc, false, resources);
    }
    tests_hold_of_each(alloc, rule.tests.as_slice(), resources)
}

/// For each resource whether all these tests hold.
fn tests_hold_of_each(
    alloc: Global,
    tests: &[Test],
    resources: &[Resource],
) -> Result<Vec<bool>, NoMemory>
    ensures { IfOk result (λ marks. marks.items
        ≡ map (λ resource. list_all (test_holds resource) tests.now) resources.now) }
{
    let mut marks = same_of_each(alloc, true, resources)?;
    for test in tests {
        let others = test_holds_of_each(alloc, test, resources)?;
        marks = both_true(alloc, marks.as_slice(), others.as_slice())?;
    }
    Ok(marks)
}

/// For each resource whether the test holds.
fn test_holds_of_each(
    alloc: Global,
    test: &Test,
    resources: &[Resource],
) -> Result<Vec<bool>, NoMemory>
    ensures { IfOk result (λ marks. marks.items
        ≡ map (λ resource. test_holds resource test.now) resources.now) }
{
    match test {
        Test::Match { key, patterns } => {
            patterns_match_each(alloc, key.as_str(), patterns.as_slice(), resources)
        }
        Test::Equals { .. } => holds_one_by_one(alloc, test, resources),
        Test::Contains { .. } => holds_one_by_one(alloc, test, resources),
        Test::Subset { .. } => holds_one_by_one(alloc, test, resources),
    }
}

/// The same, resource by resource.
fn holds_one_by_one(
    alloc: Global,
    test: &Test,
    resources: &[Resource],
) -> Result<Vec<bool>, NoMemory>
    ensures { IfOk result (λ marks. marks.items
        ≡ map (λ resource. test_holds resource test.now) resources.now) }
{
    let mut marks = Vec::with_capacity(alloc, resources.len())?;
    for resource in resources {
        marks.push(test.holds(alloc, resource)?)?;
    }
    Ok(marks)
}

/// For each resource whether each of the patterns matches the whole text of its property.
fn patterns_match_each(
    alloc: Global,
    key: &str,
    patterns: &[Pattern],
    resources: &[Resource],
) -> Result<Vec<bool>, NoMemory>
    ensures { IfOk result (λ marks. marks.items ≡ map (λ resource. list_all
        (λ pattern. matches_whole pattern (property_text resource key.now)) patterns.now)
        resources.now) }
{
    let texts = property_texts(alloc, key, resources)?;
    let lists = lists_of_one(alloc, texts.as_slice())?;
    let mut marks = same_of_each(alloc, true, resources)?;
    for pattern in patterns {
        let others = pattern.whole_of_each(alloc, lists.as_slice())?;
        marks = both_true(alloc, marks.as_slice(), others.as_slice())?;
    }
    Ok(marks)
}

/// The text of the property of each resource.
fn property_texts(alloc: Global, key: &str, resources: &[Resource]) -> Result<Vec<Text>, NoMemory>
    ensures { IfOk result (λ texts. texts.items
        ≡ map (λ resource. property_text resource key.now) resources.now) }
{
    let mut texts = Vec::with_capacity(alloc, resources.len())?;
    for resource in resources {
        texts.push(property_text(alloc, resource, key)?)?;
    }
    Ok(texts)
}

fn property_text(alloc: Global, resource: &Resource, key: &str) -> Result<Text, NoMemory>
    ensures { IfOk result (λ text. text ≡ property_text resource.now key.now) }
{
    if is_tags(key) {
        return joined(alloc, resource.tags.as_slice());
    }
    Text::of(alloc, prop_text(resource.props.as_slice(), key))
}

/// A list of each of the texts alone.
fn lists_of_one<'a>(alloc: Global, texts: &'a [Text]) -> Result<Vec<&'a [Text]>, NoMemory>
    ensures { IfOk result (λ lists.
        map (λ list. list.now) lists.items ≡ map (λ text. text ∷ []) texts.now) }
{
    let mut lists = Vec::with_capacity(alloc, texts.len())?;
    for text in texts {
        lists.push(slice::from_ref(text))?;
    }
    Ok(lists)
}

/// This mark for each.
pub fn same_of_each(
    alloc: Global,
    mark: bool,
    resources: &[Resource],
) -> Result<Vec<bool>, NoMemory>
    ensures { IfOk result (λ marks. marks.items ≡ map (λ resource. mark) resources.now) }
{
    Ok(resources.iter().map(|_| mark).collect(alloc)?)
}
