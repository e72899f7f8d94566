//! The rules of a policy.
ghost use Rattle.rb_acl_doc.specs.Patterns.{test_patterns, rule_patterns, type_patterns, EndsOn};
ghost use Rattle.rb_acl_doc.specs.Policies.{test_of, tests_in, rule_with, rule_of, type_of};
ghost use Rattle.rb_yaml.specs.Tree.{yaml_tree, pair_tree};
ghost use Rattle.std.specs.List.{flat_map};
ghost use Rattle.std.specs.Prelude.{◌≡◌, ◌++◌, [], map, IfOk, OnOk};

use crate::test_kind::{TestKind, kind_of_test};
use crate::texts::{texts_at, texts_in_value};
use rb_acl::{Pattern, Rule, Test, TypeRules};
use rb_causes::{Items, Text};
use rb_text::{PatternErr, Room};
use rb_values::{entries_in, items_in, key_of, value_of};
use rb_yaml::{Pair, Yaml};
use std::alloc::Global;

fn patterns_of(alloc: Global, room: &mut Room, texts: &[Text]) -> Result<Items<Pattern>, PatternErr>
    ensures value { IfOk result (λ patterns. patterns ≡ texts.now) }
    ensures patterns { EndsOn texts.now result }
{
    let mut patterns = Items::new(alloc);
    for text in texts {
        patterns.push(Pattern::build_in(alloc, text.as_str(), room)?)?;
    }
    Ok(patterns)
}

/// The test of a property.
fn test_of(
    alloc: Global,
    room: &mut Room,
    kind: TestKind,
    property: &Pair,
) -> Result<Test, PatternErr>
    ensures value { IfOk result (λ test. test ≡ test_of kind (pair_tree property.now)) }
    ensures patterns { EndsOn (test_patterns (test_of kind (pair_tree property.now))) result }
{
    let key = Text::of(alloc, key_of(property))?;
    let texts = texts_in_value(alloc, value_of(property))?;
    match kind {
        TestKind::Match => {
            let patterns = patterns_of(alloc, room, texts.as_slice())?;
            Ok(Test::Match { key, patterns })
        }
        TestKind::Equals => Ok(Test::Equals { key, texts }),
        TestKind::Contains => Ok(Test::Contains { key, texts }),
        TestKind::Subset => Ok(Test::Subset { key, texts }),
    }
}

/// Adds the tests of these properties.
fn push_tests(
    alloc: Global,
    room: &mut Room,
    tests: &mut Items<Test>,
    kind: TestKind,
    properties: &[Pair],
) -> Result<(), PatternErr>
    ensures value { OnOk result
        (tests.new ≡ tests.old ++ map (test_of kind) (map pair_tree properties.now)) }
    ensures patterns { EndsOn
        (flat_map test_patterns (map (test_of kind) (map pair_tree properties.now))) result }
{
    for property in properties {
        tests.push(test_of(alloc, room, kind, property)?)?;
    }
    Ok(())
}

/// Adds the tests of an entry of a rule.
fn push_entry(
    alloc: Global,
    room: &mut Room,
    tests: &mut Items<Test>,
    entry: &Pair,
) -> Result<(), PatternErr>
    ensures value { OnOk result (tests.new ≡ tests.old ++ tests_in (pair_tree entry.now)) }
    ensures patterns { EndsOn (flat_map test_patterns (tests_in (pair_tree entry.now))) result }
{
    match kind_of_test(key_of(entry)) {
        None => Ok(()),
        Some(kind) => match entries_in(value_of(entry)) {
            None => Ok(()),
            Some(properties) => push_tests(alloc, room, tests, kind, properties),
        },
    }
}

/// The tests of a rule, as written.
fn tests_of(alloc: Global, room: &mut Room, entries: &[Pair]) -> Result<Items<Test>, PatternErr>
    ensures value { IfOk result (λ tests. tests ≡ flat_map tests_in (map pair_tree entries.now)) }
    ensures patterns { EndsOn
        (flat_map test_patterns (flat_map tests_in (map pair_tree entries.now))) result }
{
    let mut tests = Items::new(alloc);
    for entry in entries {
        push_entry(alloc, room, &mut tests, entry)?;
    }
    Ok(tests)
}

fn rule_with(alloc: Global, room: &mut Room, entries: &[Pair]) -> Result<Rule, PatternErr>
    ensures value { IfOk result (λ rule. rule ≡ rule_with (map pair_tree entries.now)) }
    ensures patterns { EndsOn (rule_patterns (rule_with (map pair_tree entries.now))) result }
{
    let allow = texts_at(alloc, entries, "allow")?;
    let deny = texts_at(alloc, entries, "deny")?;
    let tests = tests_of(alloc, room, entries)?;
    Ok(Rule { allow, deny, tests })
}

/// A rule without anything in it, as which a value that is no map counts.
fn empty_rule(alloc: Global) -> Rule
    ensures { result ≡ rule_with [] }
{
    Rule {
        allow: Items::new(alloc),
        deny: Items::new(alloc),
        tests: Items::new(alloc),
    }
}

fn rule_of(alloc: Global, room: &mut Room, value: &Yaml) -> Result<Rule, PatternErr>
    ensures value { IfOk result (λ rule. rule ≡ rule_of (yaml_tree value.now)) }
    ensures patterns { EndsOn (rule_patterns (rule_of (yaml_tree value.now))) result }
{
    match entries_in(value) {
        None => Ok(empty_rule(alloc)),
        Some(entries) => rule_with(alloc, room, entries),
    }
}

fn rules_of(alloc: Global, room: &mut Room, values: &[Yaml]) -> Result<Items<Rule>, PatternErr>
    ensures value { IfOk result (λ rules. rules ≡ map rule_of (map yaml_tree values.now)) }
    ensures patterns { EndsOn
        (flat_map rule_patterns (map rule_of (map yaml_tree values.now))) result }
{
    let mut rules = Items::new(alloc);
    for value in values {
        rules.push(rule_of(alloc, room, value)?)?;
    }
    Ok(rules)
}

/// A type with its rules.
fn type_of(alloc: Global, room: &mut Room, entry: &Pair) -> Result<TypeRules, PatternErr>
    ensures value { IfOk result (λ rules. rules ≡ type_of (pair_tree entry.now)) }
    ensures patterns { EndsOn (type_patterns (type_of (pair_tree entry.now))) result }
{
    let name = Text::of(alloc, key_of(entry))?;
    let rules = match items_in(value_of(entry)) {
        None => Items::new(alloc),
        Some(values) => rules_of(alloc, room, values)?,
    };
    Ok(TypeRules { name, rules })
}

/// The types of a policy, as written.
pub(crate) fn types_of(
    alloc: Global,
    room: &mut Room,
    entries: &[Pair],
) -> Result<Items<TypeRules>, PatternErr>
    ensures value { IfOk result (λ types. types ≡ map type_of (map pair_tree entries.now)) }
    ensures patterns { EndsOn
        (flat_map type_patterns (map type_of (map pair_tree entries.now))) result }
{
    let mut types = Items::new(alloc);
    for entry in entries {
        types.push(type_of(alloc, room, entry)?)?;
    }
    Ok(types)
}
