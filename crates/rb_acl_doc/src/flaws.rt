//! What is wrong with a document, but for its patterns: a function for each form of its keys.
ghost use Rattle.rb_acl_doc.specs.Forms.{one_text, texts, list_of, any_keys, in_entry};
ghost use Rattle.rb_acl_doc.specs.Keys.{has_filled, an_action, rule_keys, rule_form, is_one_context, one_context, context_keys, context_form, names_somebody, somebody, by_keys, somebody_form, all_parts, document_keys, flaws_of};
ghost use Rattle.rb_acl_doc.specs.Telling.{foremost_kind};
ghost use Rattle.rb_acl_doc.specs.Texts.{texts_in_value, texts_at};
ghost use Rattle.rb_causes.specs.Texts.{is_empty};
ghost use Rattle.rb_values.specs.Values.{scalar_or_empty};
ghost use Rattle.rb_yaml.specs.Tree.{yaml_tree, pair_tree};
ghost use Rattle.std.specs.List.{flat_map};
ghost use Rattle.std.specs.Prelude.{◌≡◌, ℕ, List, Some, not, map, IfOk};

use crate::fault::AclKind;
use crate::telling::sooner;
use crate::texts::holds_texts;
use rb_causes::{NoMemory, Text};
use rb_values::{entries_in, has_key, is_text, items_in, key_of, text_in, value_at, value_of};
use rb_yaml::{Pair, Yaml};
use std::alloc::Global;

/// A flaw, if there is one, where memory sufficed to tell its key.
type FoundFlaw = Result<Option<AclKind>, NoMemory>;

fn bad_shape(alloc: Global, key: &str) -> FoundFlaw
    ensures { IfOk result (λ flaw. flaw ≡ Some (AclKind.BadShape key.now)) }
{
    Ok(Some(AclKind::BadShape(Text::of(alloc, key)?)))
}

fn unknown_key(alloc: Global, key: &str) -> FoundFlaw
    ensures { IfOk result (λ flaw. flaw ≡ Some (AclKind.UnknownKey key.now)) }
{
    Ok(Some(AclKind::UnknownKey(Text::of(alloc, key)?)))
}

fn text_flaw(alloc: Global, key: &str, value: &Yaml) -> FoundFlaw
    ensures { IfOk result (λ flaw. flaw ≡ foremost_kind (one_text key.now (yaml_tree value.now))) }
{
    if is_text(value) {
        return Ok(None);
    }
    bad_shape(alloc, key)
}

fn texts_flaw(alloc: Global, key: &str, value: &Yaml) -> FoundFlaw
    ensures { IfOk result (λ flaw. flaw ≡ foremost_kind (texts key.now (yaml_tree value.now))) }
{
    if holds_texts(value) {
        return Ok(None);
    }
    bad_shape(alloc, key)
}

/// Of a map from properties to texts.
fn test_flaw(alloc: Global, key: &str, value: &Yaml) -> FoundFlaw
    ensures { IfOk result
        (λ flaw. flaw ≡ foremost_kind (any_keys texts key.now (yaml_tree value.now))) }
{
    match entries_in(value) {
        None => bad_shape(alloc, key),
        Some(properties) => properties_flaw(alloc, properties),
    }
}

fn properties_flaw(alloc: Global, properties: &[Pair]) -> FoundFlaw
    ensures { IfOk result (λ flaw.
        flaw ≡ foremost_kind (flat_map (λ e. texts e.0 e.1) (map pair_tree properties.now))) }
{
    let mut flaw = None;
    for entry in properties {
        flaw = sooner(flaw, texts_flaw(alloc, key_of(entry), value_of(entry))?);
    }
    Ok(flaw)
}

fn rule_entry_flaw(alloc: Global, entry: &Pair) -> FoundFlaw
    ensures { IfOk result
        (λ flaw. flaw ≡ foremost_kind (in_entry rule_keys (pair_tree entry.now))) }
{
    match key_of(entry) {
        "allow" => texts_flaw(alloc, "allow", value_of(entry)),
        "deny" => texts_flaw(alloc, "deny", value_of(entry)),
        "match" => test_flaw(alloc, "match", value_of(entry)),
        "equals" => test_flaw(alloc, "equals", value_of(entry)),
        "contains" => test_flaw(alloc, "contains", value_of(entry)),
        "subset" => test_flaw(alloc, "subset", value_of(entry)),
        key => unknown_key(alloc, key),
    }
}

fn rule_entries_flaw(alloc: Global, entries: &[Pair]) -> FoundFlaw
    ensures { IfOk result (λ flaw.
        flaw ≡ foremost_kind (flat_map (in_entry rule_keys) (map pair_tree entries.now))) }
{
    let mut flaw = None;
    for entry in entries {
        flaw = sooner(flaw, rule_entry_flaw(alloc, entry)?);
    }
    Ok(flaw)
}

/// Whether the value has a text that is not empty.
fn has_filled(value: &Yaml) -> bool
    ensures { result ≡ has_filled (texts_in_value (yaml_tree value.now)) }
{
    match text_in(value) {
        Some(text) => !text.as_str().is_empty(),
        None => match items_in(value) {
            None => false,
            Some(items) => one_filled(items),
        },
    }
}

fn one_filled(items: &[Yaml]) -> bool
    ensures { result ≡ has_filled (map scalar_or_empty (map yaml_tree items.now)) }
{
    for item in items {
        if is_filled(item) {
            return true;
        }
    }
    false
}

fn is_filled(item: &Yaml) -> bool
    ensures { result ≡ not (is_empty (scalar_or_empty (yaml_tree item.now))) }
{
    match text_in(item) {
        None => false,
        Some(text) => !text.as_str().is_empty(),
    }
}

fn has_filled_under(entries: &[Pair], key: &str) -> bool
    ensures { result ≡ has_filled (texts_at (map pair_tree entries.now) key.now) }
{
    match value_at(entries, key) {
        None => false,
        Some(value) => has_filled(value),
    }
}

fn action_flaw(entries: &[Pair]) -> Option<AclKind>
    ensures { (key : List ℕ) → result ≡ foremost_kind (an_action key (map pair_tree entries.now)) }
{
    if has_filled_under(entries, "allow") || has_filled_under(entries, "deny") {
        return None;
    }
    Some(AclKind::NoAction)
}

fn rule_flaw(alloc: Global, key: &str, value: &Yaml) -> FoundFlaw
    ensures { IfOk result (λ flaw. flaw ≡ foremost_kind (rule_form key.now (yaml_tree value.now))) }
{
    match entries_in(value) {
        None => bad_shape(alloc, key),
        Some(entries) => {
            let flaw = rule_entries_flaw(alloc, entries)?;
            Ok(sooner(flaw, action_flaw(entries)))
        }
    }
}

fn rules_flaw(alloc: Global, key: &str, value: &Yaml) -> FoundFlaw
    ensures { IfOk result (λ flaw.
        flaw ≡ foremost_kind (list_of rule_form key.now (yaml_tree value.now))) }
{
    match items_in(value) {
        None => bad_shape(alloc, key),
        Some(rules) => all_rules_flaw(alloc, key, rules),
    }
}

fn all_rules_flaw(alloc: Global, key: &str, rules: &[Yaml]) -> FoundFlaw
    ensures { IfOk result (λ flaw.
        flaw ≡ foremost_kind (flat_map (rule_form key.now) (map yaml_tree rules.now))) }
{
    let mut flaw = None;
    for rule in rules {
        flaw = sooner(flaw, rule_flaw(alloc, key, rule)?);
    }
    Ok(flaw)
}

/// Of a map from types to rules.
fn types_flaw(alloc: Global, key: &str, value: &Yaml) -> FoundFlaw
    ensures { IfOk result (λ flaw.
        flaw ≡ foremost_kind (any_keys (list_of rule_form) key.now (yaml_tree value.now))) }
{
    match entries_in(value) {
        None => bad_shape(alloc, key),
        Some(types) => all_types_flaw(alloc, types),
    }
}

fn all_types_flaw(alloc: Global, types: &[Pair]) -> FoundFlaw
    ensures { IfOk result (λ flaw.
        flaw ≡ foremost_kind
        (flat_map (λ e. list_of rule_form e.0 e.1) (map pair_tree types.now))) }
{
    let mut flaw = None;
    for entry in types {
        flaw = sooner(flaw, rules_flaw(alloc, key_of(entry), value_of(entry))?);
    }
    Ok(flaw)
}

fn context_entry_flaw(alloc: Global, entry: &Pair) -> FoundFlaw
    ensures { IfOk result
        (λ flaw. flaw ≡ foremost_kind (in_entry context_keys (pair_tree entry.now))) }
{
    match key_of(entry) {
        "project" => text_flaw(alloc, "project", value_of(entry)),
        "application" => text_flaw(alloc, "application", value_of(entry)),
        key => unknown_key(alloc, key),
    }
}

fn context_entries_flaw(alloc: Global, entries: &[Pair]) -> FoundFlaw
    ensures { IfOk result (λ flaw.
        flaw ≡ foremost_kind (flat_map (in_entry context_keys) (map pair_tree entries.now))) }
{
    let mut flaw = None;
    for entry in entries {
        flaw = sooner(flaw, context_entry_flaw(alloc, entry)?);
    }
    Ok(flaw)
}

fn is_one_context(entries: &[Pair]) -> bool
    ensures { result ≡ is_one_context (map pair_tree entries.now) }
{
    has_key(entries, "project") != has_key(entries, "application")
}

fn one_context_flaw(alloc: Global, key: &str, entries: &[Pair]) -> FoundFlaw
    ensures { IfOk result (λ flaw.
        flaw ≡ foremost_kind (one_context key.now (map pair_tree entries.now))) }
{
    if is_one_context(entries) {
        return Ok(None);
    }
    bad_shape(alloc, key)
}

fn context_flaw(alloc: Global, key: &str, value: &Yaml) -> FoundFlaw
    ensures { IfOk result
        (λ flaw. flaw ≡ foremost_kind (context_form key.now (yaml_tree value.now))) }
{
    match entries_in(value) {
        None => bad_shape(alloc, key),
        Some(entries) => {
            let flaw = context_entries_flaw(alloc, entries)?;
            Ok(sooner(flaw, one_context_flaw(alloc, key, entries)?))
        }
    }
}

fn by_entry_flaw(alloc: Global, entry: &Pair) -> FoundFlaw
    ensures { IfOk result (λ flaw. flaw ≡ foremost_kind (in_entry by_keys (pair_tree entry.now))) }
{
    match key_of(entry) {
        "username" => texts_flaw(alloc, "username", value_of(entry)),
        "group" => texts_flaw(alloc, "group", value_of(entry)),
        key => unknown_key(alloc, key),
    }
}

fn by_entries_flaw(alloc: Global, entries: &[Pair]) -> FoundFlaw
    ensures { IfOk result (λ flaw.
        flaw ≡ foremost_kind (flat_map (in_entry by_keys) (map pair_tree entries.now))) }
{
    let mut flaw = None;
    for entry in entries {
        flaw = sooner(flaw, by_entry_flaw(alloc, entry)?);
    }
    Ok(flaw)
}

fn names_somebody(entries: &[Pair]) -> bool
    ensures { result ≡ names_somebody (map pair_tree entries.now) }
{
    has_key(entries, "username") || has_key(entries, "group")
}

fn somebody_flaw(alloc: Global, key: &str, entries: &[Pair]) -> FoundFlaw
    ensures { IfOk result
        (λ flaw. flaw ≡ foremost_kind (somebody key.now (map pair_tree entries.now))) }
{
    if names_somebody(entries) {
        return Ok(None);
    }
    bad_shape(alloc, key)
}

fn by_flaw(alloc: Global, key: &str, value: &Yaml) -> FoundFlaw
    ensures { IfOk result
        (λ flaw. flaw ≡ foremost_kind (somebody_form key.now (yaml_tree value.now))) }
{
    match entries_in(value) {
        None => bad_shape(alloc, key),
        Some(entries) => {
            let flaw = by_entries_flaw(alloc, entries)?;
            Ok(sooner(flaw, somebody_flaw(alloc, key, entries)?))
        }
    }
}

fn document_entry_flaw(alloc: Global, entry: &Pair) -> FoundFlaw
    ensures { IfOk result
        (λ flaw. flaw ≡ foremost_kind (in_entry document_keys (pair_tree entry.now))) }
{
    match key_of(entry) {
        "description" => Ok(None),
        "context" => context_flaw(alloc, "context", value_of(entry)),
        "for" => types_flaw(alloc, "for", value_of(entry)),
        "by" => by_flaw(alloc, "by", value_of(entry)),
        key => unknown_key(alloc, key),
    }
}

fn document_entries_flaw(alloc: Global, entries: &[Pair]) -> FoundFlaw
    ensures { IfOk result (λ flaw.
        flaw ≡ foremost_kind (flat_map (in_entry document_keys) (map pair_tree entries.now))) }
{
    let mut flaw = None;
    for entry in entries {
        flaw = sooner(flaw, document_entry_flaw(alloc, entry)?);
    }
    Ok(flaw)
}

/// The first part of a document that is missing.
fn missing_flaw(entries: &[Pair]) -> Option<AclKind>
    ensures { (key : List ℕ) → result ≡ foremost_kind (all_parts key (map pair_tree entries.now)) }
{
    if !has_key(entries, "context") {
        return Some(AclKind::MissingContext);
    }
    if !has_key(entries, "by") {
        return Some(AclKind::MissingBy);
    }
    if !has_key(entries, "for") {
        return Some(AclKind::MissingFor);
    }
    None
}

/// The flaw of a document that is told, where no pattern is refused.
pub(crate) fn document_flaw(alloc: Global, doc: &Yaml) -> FoundFlaw
    ensures { IfOk result (λ flaw. flaw ≡ foremost_kind (flaws_of (yaml_tree doc.now))) }
{
    match entries_in(doc) {
        None => bad_shape(alloc, "document"),
        Some(entries) => {
            let flaw = document_entries_flaw(alloc, entries)?;
            Ok(sooner(flaw, missing_flaw(entries)))
        }
    }
}
