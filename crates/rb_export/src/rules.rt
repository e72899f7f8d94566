//! The rules of a policy.
ghost use Rattle.rb_canon.specs.Values.{quoted, list_of, map_of};
ghost use Rattle.rb_canon.specs.Views.{canon_tree, field_view};
ghost use Rattle.rb_export.specs.Groups.{count_of_name, groups_by};
ghost use Rattle.rb_export.specs.Policies.{texts_value, test_key, test_entry, tests_entry, tests_entries, actions_entries, rule_entries, rule_value, type_entry};
ghost use Rattle.std.specs.Prelude.{◌≡◌, ◌<◌, ◌++◌, ◌∷◌, [], length, map, IfOk, OnOk, IfSome, MatchOption};

use crate::values::{text_value, texts_value, under};
use rb_acl::{Pattern, Rule, Test, TypeRules};
use rb_canon::{Canon, Field, Key, list, map};
use rb_causes::{NoMemory, Text};
use std::alloc::Global;

fn patterns_value(alloc: Global, patterns: &[Pattern]) -> Result<Canon, NoMemory>
    ensures { IfOk result (λ value. canon_tree value ≡ texts_value patterns.now) }
{
    let mut items = Vec::new(alloc);
    for pattern in patterns {
        items.push(text_value(alloc, pattern.text())?)?;
    }
    Ok(list(items))
}

/// A value under a quoted key.
fn property_field(alloc: Global, key: &Text, value: Canon) -> Result<Field, NoMemory>
    ensures { IfOk result (λ field. field_view field ≡ (quoted key.now, canon_tree value)) }
{
    Ok(Field::of(Key::Quoted(key.copy(alloc)?), value))
}

fn test_key(test: &Test) -> &'static str
    ensures { result.now ≡ test_key test.now }
{
    match test {
        Test::Match { .. } => "match",
        Test::Equals { .. } => "equals",
        Test::Contains { .. } => "contains",
        Test::Subset { .. } => "subset",
    }
}

/// A property with its texts.
fn test_field(alloc: Global, test: &Test) -> Result<Field, NoMemory>
    ensures { IfOk result (λ field. field_view field ≡ test_entry test.now) }
{
    match test {
        Test::Match { key, patterns } => {
            property_field(alloc, key, patterns_value(alloc, patterns.as_slice())?)
        }
        Test::Equals { key, texts } => {
            property_field(alloc, key, texts_value(alloc, texts.as_slice())?)
        }
        Test::Contains { key, texts } => {
            property_field(alloc, key, texts_value(alloc, texts.as_slice())?)
        }
        Test::Subset { key, texts } => {
            property_field(alloc, key, texts_value(alloc, texts.as_slice())?)
        }
    }
}

/// How many at the front stand under this key.
fn count_of_key(tests: &[Test], key: &str) -> usize
    ensures { result ≡ count_of_name test_key key.now tests.now }
{
    let mut count = 0;
    for test in tests {
        if test_key(test) != key {
            return count;
        }
        count += 1;
    }
    count
}

/// The tests at the front that stand under one key, and those behind them.
fn first_group(tests: &[Test]) -> Option<(&'static str, &[Test], &[Test])>
    ensures parts { MatchOption result (tests.now ≡ []) (λ parts. groups_by test_key tests.now
        ≡ (parts.0.now, parts.1.now) ∷ groups_by test_key parts.2.now) }
    ensures shorter { IfSome result (λ parts. length parts.2.now < length tests.now) }
{
    if tests.is_empty() {
        return None;
    }
    let key = test_key(&tests[0]);
    let (group, behind) = tests.split_at(count_of_key(tests, key));
    Some((key, group, behind))
}

fn properties_value(alloc: Global, tests: &[Test]) -> Result<Canon, NoMemory>
    ensures { IfOk result (λ value. canon_tree value ≡ map_of (map test_entry tests.now)) }
{
    let mut fields = Vec::new(alloc);
    for test in tests {
        fields.push(test_field(alloc, test)?)?;
    }
    Ok(map(fields))
}

/// The tests of one kind.
fn tests_field(alloc: Global, key: &str, tests: &[Test]) -> Result<Field, NoMemory>
    ensures { IfOk result (λ field. field_view field ≡ tests_entry (key.now, tests.now)) }
{
    under(alloc, key, properties_value(alloc, tests)?)
}

/// Adds the tests, neighbours of one kind in one map.
fn push_tests(alloc: Global, fields: &mut Vec<Field>, tests: &[Test]) -> Result<(), NoMemory>
    ensures { OnOk result (map field_view fields.new.items
        ≡ map field_view fields.old.items ++ tests_entries tests.now) }
{
    let mut rest = tests;
    while let Some((key, group, behind)) = first_group(rest) {
        fields.push(tests_field(alloc, key, group)?)?;
        rest = behind;
    }
    Ok(())
}

/// Adds actions under their key, where there are some.
fn push_actions(
    alloc: Global,
    fields: &mut Vec<Field>,
    key: &str,
    actions: &[Text],
) -> Result<(), NoMemory>
    ensures { OnOk result (map field_view fields.new.items
        ≡ map field_view fields.old.items ++ actions_entries key.now actions.now) }
{
    if actions.is_empty() {
        return Ok(());
    }
    fields.push(under(alloc, key, texts_value(alloc, actions)?)?)?;
    Ok(())
}

fn rule_fields(alloc: Global, rule: &Rule) -> Result<Vec<Field>, NoMemory>
    ensures { IfOk result (λ fields. map field_view fields.items ≡ rule_entries rule.now) }
{
    let mut fields = Vec::new(alloc);
    push_actions(alloc, &mut fields, "allow", rule.allow.as_slice())?;
    push_actions(alloc, &mut fields, "deny", rule.deny.as_slice())?;
    push_tests(alloc, &mut fields, rule.tests.as_slice())?;
    Ok(fields)
}

fn rule_value(alloc: Global, rule: &Rule) -> Result<Canon, NoMemory>
    ensures { IfOk result (λ value. canon_tree value ≡ rule_value rule.now) }
{
    Ok(map(rule_fields(alloc, rule)?))
}

fn rules_value(alloc: Global, rules: &[Rule]) -> Result<Canon, NoMemory>
    ensures { IfOk result (λ value. canon_tree value ≡ list_of (map rule_value rules.now)) }
{
    let mut items = Vec::new(alloc);
    for rule in rules {
        items.push(rule_value(alloc, rule)?)?;
    }
    Ok(list(items))
}

fn type_field(alloc: Global, types: &TypeRules) -> Result<Field, NoMemory>
    ensures { IfOk result (λ field. field_view field ≡ type_entry types.now) }
{
    property_field(
        alloc,
        &types.name,
        rules_value(alloc, types.rules.as_slice())?,
    )
}

/// The types with their rules.
pub(crate) fn types_value(alloc: Global, types: &[TypeRules]) -> Result<Canon, NoMemory>
    ensures { IfOk result (λ value. canon_tree value ≡ map_of (map type_entry types.now)) }
{
    let mut fields = Vec::new(alloc);
    for t in types {
        fields.push(type_field(alloc, t)?)?;
    }
    Ok(map(fields))
}
