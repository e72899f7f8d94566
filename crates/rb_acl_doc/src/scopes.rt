//! Where a policy holds, and whom it speaks of.
ghost use Rattle.rb_acl_doc.specs.Patterns.{value_patterns, scope_patterns, by_patterns, EndsOn};
ghost use Rattle.rb_acl_doc.specs.Policies.{scope_of, somebody_named, names_in, by_of};
ghost use Rattle.rb_text.specs.Values.{value_of};
ghost use Rattle.rb_yaml.specs.Tree.{pair_tree};
ghost use Rattle.std.specs.List.{flat_map};
ghost use Rattle.std.specs.Prelude.{◌≡◌, ◌++◌, map, IfOk, OnOk};

use crate::texts::{text_or_empty, texts_in_value};
use rb_acl::{ByRule, Scope, Value};
use rb_causes::{Items, Text};
use rb_text::{PatternErr, Room};
use rb_values::{has_key, key_of, value_of};
use rb_yaml::Pair;
use std::alloc::Global;

/// The value of a text.
fn read_value(alloc: Global, room: &mut Room, text: &str) -> Result<Value, PatternErr>
    ensures value { IfOk result (λ v. v ≡ value_of text.now) }
    ensures patterns { EndsOn (value_patterns (value_of text.now)) result }
{
    Value::read_in(alloc, text, room)
}

/// A project where one is given, else the application.
pub(crate) fn scope_of(
    alloc: Global,
    room: &mut Room,
    entries: &[Pair],
) -> Result<Scope, PatternErr>
    ensures value { IfOk result (λ scope. scope ≡ scope_of (map pair_tree entries.now)) }
    ensures patterns { EndsOn (scope_patterns (scope_of (map pair_tree entries.now))) result }
{
    if has_key(entries, "project") {
        let value = read_value(alloc, room, text_or_empty(entries, "project"))?;
        return Ok(Scope::Project(value));
    }
    let value = read_value(alloc, room, text_or_empty(entries, "application"))?;
    Ok(Scope::Application(value))
}

/// A user or a group, as its key says.
fn somebody_named(
    alloc: Global,
    room: &mut Room,
    key: &str,
    text: &str,
) -> Result<ByRule, PatternErr>
    ensures value { IfOk result (λ by. by ≡ somebody_named key.now text.now) }
    ensures patterns { EndsOn (by_patterns (somebody_named key.now text.now)) result }
{
    let value = read_value(alloc, room, text)?;
    if key == "username" {
        return Ok(ByRule::User(value));
    }
    Ok(ByRule::Group(value))
}

/// Adds the users or groups of these texts.
fn push_names(
    alloc: Global,
    room: &mut Room,
    by: &mut Items<ByRule>,
    key: &str,
    texts: &[Text],
) -> Result<(), PatternErr>
    ensures value { OnOk result (by.new ≡ by.old ++ map (somebody_named key.now) texts.now) }
    ensures patterns { EndsOn
        (flat_map by_patterns (map (somebody_named key.now) texts.now)) result }
{
    for text in texts {
        by.push(somebody_named(alloc, room, key, text.as_str())?)?;
    }
    Ok(())
}

/// Adds the users or groups of an entry.
fn push_entry(
    alloc: Global,
    room: &mut Room,
    by: &mut Items<ByRule>,
    entry: &Pair,
) -> Result<(), PatternErr>
    ensures value { OnOk result (by.new ≡ by.old ++ names_in (pair_tree entry.now)) }
    ensures patterns { EndsOn (flat_map by_patterns (names_in (pair_tree entry.now))) result }
{
    let texts = texts_in_value(alloc, value_of(entry))?;
    push_names(alloc, room, by, key_of(entry), texts.as_slice())
}

/// The users and groups, as written.
pub(crate) fn by_of(
    alloc: Global,
    room: &mut Room,
    entries: &[Pair],
) -> Result<Items<ByRule>, PatternErr>
    ensures value { IfOk result (λ by. by ≡ by_of (map pair_tree entries.now)) }
    ensures patterns { EndsOn (flat_map by_patterns (by_of (map pair_tree entries.now))) result }
{
    let mut by = Items::new(alloc);
    for entry in entries {
        push_entry(alloc, room, &mut by, entry)?;
    }
    Ok(by)
}
