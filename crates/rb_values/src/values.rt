//! The values of a document as texts, lists and maps.
ghost use Rattle.rb_values.specs.Values.{text_in, items_in, entries_in, is_text, sequence_items, map_entries};
ghost use Rattle.rb_yaml.specs.Tree.{yaml_tree, pair_tree};
ghost use Rattle.std.specs.List.{list_all};
ghost use Rattle.std.specs.Option.{option_copied};
ghost use Rattle.std.specs.Prelude.{◌≡◌, map, option_map};

use rb_causes::Text;
use rb_yaml::{Pair, Yaml};

/// The text that the value is.
pub fn text_in(value: &Yaml) -> Option<&Text>
    ensures { option_copied result ≡ text_in (yaml_tree value.now) }
{
    match value {
        Yaml::Scalar { line: _, text } => Some(text),
        Yaml::Seq { line: _, items: _ } => None,
        Yaml::Map {
            line: _,
            entries: _,
        } => None,
    }
}

/// The items of a sequence.
pub fn items_in(value: &Yaml) -> Option<&[Yaml]>
    ensures { option_map (map yaml_tree) (option_copied result) ≡ items_in (yaml_tree value.now) }
{
    match value {
        Yaml::Scalar { line: _, text: _ } => None,
        Yaml::Seq { line: _, items } => Some(items.as_slice()),
        Yaml::Map {
            line: _,
            entries: _,
        } => None,
    }
}

/// The entries of a map.
pub fn entries_in(value: &Yaml) -> Option<&[Pair]>
    ensures { option_map (map pair_tree) (option_copied result) ≡ entries_in (yaml_tree value.now) }
{
    match value {
        Yaml::Scalar { line: _, text: _ } => None,
        Yaml::Seq { line: _, items: _ } => None,
        Yaml::Map { line: _, entries } => Some(entries.as_slice()),
    }
}

/// Whether the value is a text.
pub fn is_text(value: &Yaml) -> bool
    ensures { result ≡ is_text (yaml_tree value.now) }
{
    text_in(value).is_some()
}

/// Whether the values are texts.
pub fn are_texts(values: &[Yaml]) -> bool
    ensures { result ≡ list_all is_text (map yaml_tree values.now) }
{
    for value in values {
        if !is_text(value) {
            return false;
        }
    }
    true
}

/// The items of a sequence, and none of another value.
pub fn sequence_items(value: &Yaml) -> &[Yaml]
    ensures { map yaml_tree result.now ≡ sequence_items (yaml_tree value.now) }
{
    match items_in(value) {
        None => &[],
        Some(items) => items,
    }
}

/// The entries of a map, and none of another value.
pub fn map_entries(value: &Yaml) -> &[Pair]
    ensures { map pair_tree result.now ≡ map_entries (yaml_tree value.now) }
{
    match entries_in(value) {
        None => &[],
        Some(entries) => entries,
    }
}

/// The key of an entry.
pub fn key_of(entry: &Pair) -> &str
    ensures { result.now ≡ (pair_tree entry.now).0 }
{
    entry.key.as_str()
}

/// The value of an entry.
pub fn value_of(entry: &Pair) -> &Yaml
    ensures { yaml_tree result.now ≡ (pair_tree entry.now).1 }
{
    &entry.value
}
