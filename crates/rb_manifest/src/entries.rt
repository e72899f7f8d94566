//! A list of entries: the keys and the form of each, and their names.
ghost use Rattle.rb_manifest.specs.Forms.{are_formed, entry_names, is_entry_formed, is_formed_map, is_key_formed, is_known, is_list_with, is_text_with};
ghost use Rattle.rb_manifest.specs.Keys.{entry_key, project_form, token_form, zone_form};
ghost use Rattle.rb_manifest.specs.Rules.{form_of, test_of};
ghost use Rattle.rb_values.specs.Values.{entries_in, items_in, map_entries, text_at, value_at};
ghost use Rattle.rb_yaml.specs.Tree.{pair_tree, yaml_tree};
ghost use Rattle.std.specs.List.{list_all, list_any};
ghost use Rattle.std.specs.Prelude.{◌≡◌, [], IfOk, bytes_eq, false, map, true, unwrap_or};

use crate::entry_kind::EntryKind;
use crate::text_rule::{TextRule, is_list_with, is_text_with};
use rb_causes::{Items, NoMemory, Text};
use rb_values::{entries_in, items_in, key_of, map_entries, sequence_items, text_at, value_at};
use rb_yaml::{Pair, Yaml};
use std::alloc::Global;

/// Whether the entry has a key of its kind.
pub(crate) fn is_known(kind: EntryKind, entry: &Pair) -> bool
    ensures { result ≡ is_known (form_of kind).keys (pair_tree entry.now) }
{
    match kind {
        EntryKind::Tokens => is_token_key(key_of(entry)),
        EntryKind::Zones => is_zone_key(key_of(entry)),
        EntryKind::Projects => is_project_key(key_of(entry)),
    }
}

fn is_token_key(key: &str) -> bool
    ensures { result ≡ list_any (λ k. bytes_eq k.name key.now) token_form.keys }
{
    "token" == key || "user" == key || "groups" == key
}

fn is_zone_key(key: &str) -> bool
    ensures { result ≡ list_any (λ k. bytes_eq k.name key.now) zone_form.keys }
{
    "name" == key || "rule" == key
}

fn is_project_key(key: &str) -> bool
    ensures { result ≡ list_any (λ k. bytes_eq k.name key.now) project_form.keys }
{
    "name" == key || "nodes" == key || "jobs" == key
}

/// Whether a text that the rule lets stand is under a key.
fn has_text(entries: &[Pair], key: &str, rule: TextRule) -> bool
    ensures { result ≡ is_key_formed (entry_key key.now (is_text_with (test_of rule)) true)
        (value_at (map pair_tree entries.now) key.now) }
{
    match value_at(entries, key) {
        None => false,
        Some(value) => is_text_with(rule, value),
    }
}

/// Whether such a text is under a key, or nothing.
fn may_have_text(entries: &[Pair], key: &str, rule: TextRule) -> bool
    ensures { result ≡ is_key_formed (entry_key key.now (is_text_with (test_of rule)) false)
        (value_at (map pair_tree entries.now) key.now) }
{
    match value_at(entries, key) {
        None => true,
        Some(value) => is_text_with(rule, value),
    }
}

/// Whether a sequence of such texts is under a key, or nothing.
fn may_have_list(entries: &[Pair], key: &str, rule: TextRule) -> bool
    ensures { result ≡ is_key_formed (entry_key key.now (is_list_with (test_of rule)) false)
        (value_at (map pair_tree entries.now) key.now) }
{
    match value_at(entries, key) {
        None => true,
        Some(value) => is_list_with(rule, value),
    }
}

fn is_token(entries: &[Pair]) -> bool
    ensures { result ≡ is_entry_formed token_form.keys (map pair_tree entries.now) }
{
    has_text(entries, "token", TextRule::Any)
        && has_text(entries, "user", TextRule::Clean)
        && may_have_list(entries, "groups", TextRule::Clean)
}

fn is_zone(entries: &[Pair]) -> bool
    ensures { result ≡ is_entry_formed zone_form.keys (map pair_tree entries.now) }
{
    has_text(entries, "name", TextRule::Any) && has_text(entries, "rule", TextRule::Any)
}

fn is_project(entries: &[Pair]) -> bool
    ensures { result ≡ is_entry_formed project_form.keys (map pair_tree entries.now) }
{
    has_text(entries, "name", TextRule::Any)
        && may_have_text(entries, "nodes", TextRule::Any)
        && may_have_list(entries, "jobs", TextRule::Any)
}

/// Whether each key of the entry is there where it is needed, and has its form.
fn is_entry_formed(kind: EntryKind, entries: &[Pair]) -> bool
    ensures { result ≡ is_entry_formed (form_of kind).keys (map pair_tree entries.now) }
{
    match kind {
        EntryKind::Tokens => is_token(entries),
        EntryKind::Zones => is_zone(entries),
        EntryKind::Projects => is_project(entries),
    }
}

fn is_formed(kind: EntryKind, item: &Yaml) -> bool
    ensures { result ≡ is_formed_map (form_of kind).keys (entries_in (yaml_tree item.now)) }
{
    match entries_in(item) {
        None => false,
        Some(entries) => is_entry_formed(kind, entries),
    }
}

fn all_formed(kind: EntryKind, items: &[Yaml]) -> bool
    ensures { result ≡ list_all (λ item. is_formed_map (form_of kind).keys (entries_in item))
        (map yaml_tree items.now) }
{
    for item in items {
        if !is_formed(kind, item) {
            return false;
        }
    }
    true
}

/// Whether the value is a sequence of entries of this kind.
pub(crate) fn are_formed(kind: EntryKind, value: &Yaml) -> bool
    ensures { result ≡ are_formed (form_of kind) (items_in (yaml_tree value.now)) }
{
    match items_in(value) {
        None => false,
        Some(items) => all_formed(kind, items),
    }
}

/// Under which key the name of an entry stands.
fn name_key(kind: EntryKind) -> &'static str
    ensures { result.now ≡ (form_of kind).name_key }
{
    match kind {
        EntryKind::Tokens => "token",
        EntryKind::Zones => "name",
        EntryKind::Projects => "name",
    }
}

fn name_of(alloc: Global, kind: EntryKind, item: &Yaml) -> Result<Text, NoMemory>
    ensures { IfOk result (λ name. name
        ≡ unwrap_or (text_at (map_entries (yaml_tree item.now)) (form_of kind).name_key) []) }
{
    match text_at(map_entries(item), name_key(kind)) {
        None => Text::of(alloc, ""),
        Some(name) => name.copy(alloc),
    }
}

fn item_names(alloc: Global, kind: EntryKind, items: &[Yaml]) -> Result<Items<Text>, NoMemory>
    ensures { IfOk result (λ names. names
        ≡ map (λ item. unwrap_or (text_at (map_entries item) (form_of kind).name_key) [])
        (map yaml_tree items.now)) }
{
    let mut names = Items::new(alloc);
    for item in items {
        names.push(name_of(alloc, kind, item)?)?;
    }
    Ok(names)
}

/// The names of the entries.
pub(crate) fn entry_names(
    alloc: Global,
    kind: EntryKind,
    value: &Yaml,
) -> Result<Items<Text>, NoMemory>
    ensures { IfOk result (λ names. names ≡ entry_names (form_of kind) (yaml_tree value.now)) }
{
    item_names(alloc, kind, sequence_items(value))
}
