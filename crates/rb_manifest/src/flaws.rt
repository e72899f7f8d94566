//! What is wrong with a manifest first: a function for each kind of flaw.
ghost use Rattle.rb_manifest.specs.Forms.{are_formed, bad_names, entry_flaws, entry_names, form_flaws, is_list_with, is_text_with, number_flaws, repeated, unknown_of};
ghost use Rattle.rb_manifest.specs.Keys.{file_flaws, flaws_under, manifest_flaws, manifest_keys, root_flaws};
ghost use Rattle.rb_manifest.specs.Rules.{form_of, test_of};
ghost use Rattle.rb_values.specs.Values.{entries_in, items_in, map_entries};
ghost use Rattle.rb_yaml.specs.Tree.{docs_tree, pair_tree, yaml_tree};
ghost use Rattle.std.specs.List.{flat_map};
ghost use Rattle.std.specs.Prelude.{◌≡◌, ◌++◌, [], IfOk, Some, map, slice_get, true};

use crate::entries::{are_formed, entry_names, is_known};
use crate::entry_kind::EntryKind;
use crate::manifest_err::ManifestFault;
use crate::names::is_name;
use crate::text_rule::{TextRule, is_list_with, is_text_with};
use crate::values::item_texts;
use rb_causes::{NoMemory, SeenTexts, Text};
use rb_values::{entries_in, key_of, map_entries, sequence_items, value_of};
use rb_yaml::{Doc, Pair, Yaml};
use std::alloc::Global;

/// A flaw, if there is one, where memory sufficed to tell it.
type FoundFlaw = Result<Option<ManifestFault>, NoMemory>;

/// How many policy files, zones and projects there may be, and how many tokens.
const MOST_FILES: usize = 64;

const MOST_ZONES: usize = 64;

const MOST_PROJECTS: usize = 64;

const MOST_TOKENS: usize = 1_000;

fn bad_shape(alloc: Global, key: &str) -> FoundFlaw
    ensures { IfOk result (λ flaw. flaw ≡ Some (ManifestFault.BadShape key.now)) }
{
    Ok(Some(ManifestFault::BadShape(Text::of(alloc, key)?)))
}

fn out_of_profile(alloc: Global, key: &str) -> FoundFlaw
    ensures { IfOk result (λ flaw. flaw ≡ Some (ManifestFault.OutOfProfile key.now)) }
{
    Ok(Some(ManifestFault::OutOfProfile(Text::of(alloc, key)?)))
}

/// The first key of an entry that is no such key.
fn unknown_in(alloc: Global, kind: EntryKind, entries: &[Pair]) -> FoundFlaw
    ensures { IfOk result (λ flaw. flaw ≡ slice_get (unknown_of (form_of kind).keys
        (map pair_tree entries.now)) 0) }
{
    for entry in entries {
        if !is_known(kind, entry) {
            return out_of_profile(alloc, key_of(entry));
        }
    }
    Ok(None)
}

/// The first such key of all entries.
fn unknown_key(alloc: Global, kind: EntryKind, items: &[Yaml]) -> FoundFlaw
    ensures { IfOk result (λ flaw. flaw ≡ slice_get
        (flat_map (λ item. unknown_of (form_of kind).keys (map_entries item))
        (map yaml_tree items.now)) 0) }
{
    for item in items {
        let flaw = unknown_in(alloc, kind, map_entries(item))?;
        if flaw.is_some() {
            return Ok(flaw);
        }
    }
    Ok(None)
}

/// The first of the names that is none.
fn bad_name(alloc: Global, names: &[Text]) -> FoundFlaw
    ensures { IfOk result (λ flaw. flaw ≡ slice_get (bad_names true names.now) 0) }
{
    for name in names {
        if !is_name(name.as_str()) {
            return Ok(Some(ManifestFault::BadName(name.copy(alloc)?)));
        }
    }
    Ok(None)
}

/// The first of the names that is none, where the entries have to have one.
fn bad_entry_name(alloc: Global, kind: EntryKind, names: &[Text]) -> FoundFlaw
    ensures { IfOk result (λ flaw. flaw
        ≡ slice_get (bad_names (form_of kind).is_strict names.now) 0) }
{
    match kind {
        EntryKind::Tokens => bad_name(alloc, names),
        EntryKind::Zones => Ok(None),
        EntryKind::Projects => bad_name(alloc, names),
    }
}

/// The first of the names that stands before itself.
fn repeated(alloc: Global, names: &[Text]) -> FoundFlaw
    ensures { IfOk result (λ flaw. flaw ≡ slice_get (map ManifestFault.Twice
        (repeated [] names.now)) 0) }
{
    let mut seen = SeenTexts::new(alloc);
    for name in names {
        if seen.holds(name.as_str()) {
            return Ok(Some(ManifestFault::Twice(name.copy(alloc)?)));
        }
        seen.note(alloc, name.as_str())?;
    }
    Ok(None)
}

/// That there are too many of the names, or that one stands there twice.
fn number_flaw(alloc: Global, key: &str, most: usize, names: &[Text]) -> FoundFlaw
    ensures { IfOk result (λ flaw. flaw ≡ slice_get (number_flaws key.now most names.now) 0) }
{
    if most < names.len() {
        return Ok(Some(ManifestFault::TooMany(Text::of(alloc, key)?)));
    }
    repeated(alloc, names)
}

/// Of a text.
fn text_flaw(alloc: Global, key: &str, rule: TextRule, value: &Yaml) -> FoundFlaw
    ensures { IfOk result (λ flaw. flaw ≡ slice_get
        (form_flaws (is_text_with (test_of rule)) key.now (yaml_tree value.now)) 0) }
{
    if is_text_with(rule, value) {
        return Ok(None);
    }
    bad_shape(alloc, key)
}

/// Of a sequence of texts.
fn list_flaw(alloc: Global, key: &str, rule: TextRule, value: &Yaml) -> FoundFlaw
    ensures { IfOk result (λ flaw. flaw ≡ slice_get
        (form_flaws (is_list_with (test_of rule)) key.now (yaml_tree value.now)) 0) }
{
    if is_list_with(rule, value) {
        return Ok(None);
    }
    bad_shape(alloc, key)
}

/// Of a sequence of entries.
fn entries_flaw(alloc: Global, key: &str, kind: EntryKind, value: &Yaml) -> FoundFlaw
    ensures { IfOk result (λ flaw. flaw ≡ slice_get
        (form_flaws (λ v. are_formed (form_of kind) (items_in v)) key.now
        (yaml_tree value.now)) 0) }
{
    if are_formed(kind, value) {
        return Ok(None);
    }
    bad_shape(alloc, key)
}

fn most_entries(kind: EntryKind) -> usize
    ensures { result ≡ (form_of kind).most }
{
    match kind {
        EntryKind::Tokens => MOST_TOKENS,
        EntryKind::Zones => MOST_ZONES,
        EntryKind::Projects => MOST_PROJECTS,
    }
}

/// Of the names of a list of entries.
fn names_flaw(alloc: Global, key: &str, kind: EntryKind, value: &Yaml) -> FoundFlaw
    ensures { IfOk result (λ flaw. flaw ≡ slice_get
        (bad_names (form_of kind).is_strict (entry_names (form_of kind) (yaml_tree value.now))
        ++ number_flaws key.now (form_of kind).most
        (entry_names (form_of kind) (yaml_tree value.now))) 0) }
{
    let names = entry_names(alloc, kind, value)?;
    match bad_entry_name(alloc, kind, names.as_slice())? {
        Some(flaw) => Ok(Some(flaw)),
        None => number_flaw(alloc, key, most_entries(kind), names.as_slice()),
    }
}

/// Of the form and the names of a list of entries.
fn formed_flaw(alloc: Global, key: &str, kind: EntryKind, value: &Yaml) -> FoundFlaw
    ensures { IfOk result (λ flaw. flaw ≡ slice_get
        (form_flaws (λ v. are_formed (form_of kind) (items_in v)) key.now (yaml_tree value.now)
        ++ (bad_names (form_of kind).is_strict (entry_names (form_of kind) (yaml_tree value.now))
        ++ number_flaws key.now (form_of kind).most
        (entry_names (form_of kind) (yaml_tree value.now)))) 0) }
{
    match entries_flaw(alloc, key, kind, value)? {
        Some(flaw) => Ok(Some(flaw)),
        None => names_flaw(alloc, key, kind, value),
    }
}

/// Of a list of entries.
fn entry_flaw(alloc: Global, key: &str, kind: EntryKind, value: &Yaml) -> FoundFlaw
    ensures { IfOk result (λ flaw. flaw ≡ slice_get
        (entry_flaws (form_of kind) key.now (yaml_tree value.now)) 0) }
{
    match unknown_key(alloc, kind, sequence_items(value))? {
        Some(flaw) => Ok(Some(flaw)),
        None => formed_flaw(alloc, key, kind, value),
    }
}

/// Of a list of files.
fn file_flaw(alloc: Global, key: &str, value: &Yaml) -> FoundFlaw
    ensures { IfOk result (λ flaw. flaw ≡ slice_get (file_flaws key.now (yaml_tree value.now)) 0) }
{
    match list_flaw(alloc, key, TextRule::Any, value)? {
        Some(flaw) => Ok(Some(flaw)),
        None => {
            let names = item_texts(alloc, sequence_items(value))?;
            number_flaw(alloc, key, MOST_FILES, names.as_slice())
        }
    }
}

/// Of what stands under a key of the manifest.
fn key_flaw(alloc: Global, entry: &Pair) -> FoundFlaw
    ensures { IfOk result (λ flaw. flaw ≡ slice_get
        (flaws_under manifest_keys (pair_tree entry.now)) 0) }
{
    let value = value_of(entry);
    match key_of(entry) {
        "owner" => text_flaw(alloc, "owner", TextRule::Clean, value),
        "owner-groups" => list_flaw(alloc, "owner-groups", TextRule::Clean, value),
        "tokens" => entry_flaw(alloc, "tokens", EntryKind::Tokens, value),
        "zones" => entry_flaw(alloc, "zones", EntryKind::Zones, value),
        "policies" => file_flaw(alloc, "policies", value),
        "projects" => entry_flaw(alloc, "projects", EntryKind::Projects, value),
        "inline" => text_flaw(alloc, "inline", TextRule::Decimal, value),
        key => out_of_profile(alloc, key),
    }
}

/// Of all keys, as written.
fn keys_flaw(alloc: Global, entries: &[Pair]) -> FoundFlaw
    ensures { IfOk result (λ flaw. flaw ≡ slice_get
        (flat_map (flaws_under manifest_keys) (map pair_tree entries.now)) 0) }
{
    for entry in entries {
        let flaw = key_flaw(alloc, entry)?;
        if flaw.is_some() {
            return Ok(flaw);
        }
    }
    Ok(None)
}

fn root_flaw(alloc: Global, root: &Yaml) -> FoundFlaw
    ensures { IfOk result (λ flaw. flaw ≡ slice_get
        (root_flaws (entries_in (yaml_tree root.now))) 0) }
{
    match entries_in(root) {
        None => bad_shape(alloc, "manifest"),
        Some(entries) => keys_flaw(alloc, entries),
    }
}

/// The first flaw of a manifest.
pub(crate) fn manifest_flaw(alloc: Global, docs: &[Doc]) -> FoundFlaw
    ensures { IfOk result (λ flaw. flaw ≡ slice_get (manifest_flaws (docs_tree docs.now)) 0) }
{
    match docs {
        [] => Ok(None),
        [doc] => root_flaw(alloc, &doc.root),
        _ => bad_shape(alloc, "manifest"),
    }
}
