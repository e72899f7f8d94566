//! What may stand in a chain document.
ghost use Rattle.rb_chain.specs.Forms.{is_run, is_run_entry, is_undo, is_undo_entry};
ghost use Rattle.rb_chain.specs.Forms.{items_under, run_items};
ghost use Rattle.rb_yaml.specs.Tree.{docs_tree, pair_tree, yaml_tree};
ghost use Rattle.std.specs.List.{list_all};
ghost use Rattle.std.specs.Option.{option_copied};
ghost use Rattle.std.specs.Prelude.{◌≡◌, map, option_map};

use rb_values::{entries_in, has_key, is_text, items_in, key_of, map_entries, value_of};
use rb_yaml::{Doc, Pair, Yaml};

/// Whether the key with its value may stand in an undo.
fn is_undo_entry(entry: &Pair) -> bool
    ensures { result ≡ is_undo_entry (pair_tree entry.now) }
{
    let key = key_of(entry);
    (key == "job" || key == "args") && is_text(value_of(entry))
}

fn are_undo_entries(entries: &[Pair]) -> bool
    ensures { result ≡ list_all is_undo_entry (map pair_tree entries.now) }
{
    for entry in entries {
        if !is_undo_entry(entry) {
            return false;
        }
    }
    true
}

fn is_undo(value: &Yaml) -> bool
    ensures { result ≡ is_undo (yaml_tree value.now) }
{
    match entries_in(value) {
        None => false,
        Some(entries) => are_undo_entries(entries) && has_key(entries, "job"),
    }
}

/// Whether the key with its value may stand in a run.
fn is_run_entry(entry: &Pair) -> bool
    ensures { result ≡ is_run_entry (pair_tree entry.now) }
{
    is_undo_entry(entry) || (key_of(entry) == "undo" && is_undo(value_of(entry)))
}

fn are_run_entries(entries: &[Pair]) -> bool
    ensures { result ≡ list_all is_run_entry (map pair_tree entries.now) }
{
    for entry in entries {
        if !is_run_entry(entry) {
            return false;
        }
    }
    true
}

/// Whether the value has the form of a run.
pub(crate) fn is_run(value: &Yaml) -> bool
    ensures { result ≡ is_run (yaml_tree value.now) }
{
    match entries_in(value) {
        None => false,
        Some(entries) => are_run_entries(entries) && has_key(entries, "job"),
    }
}

/// The items under `runs`, where that is the one key.
fn items_under(entries: &[Pair]) -> Option<&[Yaml]>
    ensures { option_map (map yaml_tree) (option_copied result)
        ≡ items_under (map pair_tree entries.now) }
{
    match entries {
        [] => None,
        [entry] => {
            if key_of(entry) == "runs" {
                return items_in(value_of(entry));
            }
            None
        }
        _ => None,
    }
}

/// The items of the one document, where it is a map with `runs` alone.
pub(crate) fn run_items(docs: &[Doc]) -> Option<&[Yaml]>
    ensures { option_map (map yaml_tree) (option_copied result) ≡ run_items (docs_tree docs.now) }
{
    match docs {
        [] => None,
        [doc] => items_under(map_entries(&doc.root)),
        _ => None,
    }
}
