//! What stands under a key of a map.
ghost use Rattle.rb_values.specs.Values.{value_at, has_key, text_at, items_at, entries_at};
ghost use Rattle.rb_yaml.specs.Tree.{yaml_tree, pair_tree};
ghost use Rattle.std.specs.Option.{option_copied};
ghost use Rattle.std.specs.Prelude.{◌≡◌, map, option_map};

use crate::values::{key_of, map_entries, sequence_items, text_in, value_of};
use rb_causes::Text;
use rb_yaml::{Pair, Yaml};

/// The value under a key.
pub fn value_at<'a>(entries: &'a [Pair], key: &str) -> Option<&'a Yaml>
    ensures { option_map yaml_tree (option_copied result) ≡
        value_at (map pair_tree entries.now) key.now }
{
    for entry in entries {
        if key_of(entry) == key {
            return Some(value_of(entry));
        }
    }
    None
}

/// Whether a value stands under a key.
pub fn has_key(entries: &[Pair], key: &str) -> bool
    ensures { result ≡ has_key (map pair_tree entries.now) key.now }
{
    value_at(entries, key).is_some()
}

/// The text under a key.
pub fn text_at<'a>(entries: &'a [Pair], key: &str) -> Option<&'a Text>
    ensures { option_copied result ≡ text_at (map pair_tree entries.now) key.now }
{
    match value_at(entries, key) {
        None => None,
        Some(value) => text_in(value),
    }
}

/// The items of the sequence under a key, and none of another value.
pub fn items_at<'a>(entries: &'a [Pair], key: &str) -> &'a [Yaml]
    ensures { map yaml_tree result.now ≡ items_at (map pair_tree entries.now) key.now }
{
    match value_at(entries, key) {
        None => &[],
        Some(value) => sequence_items(value),
    }
}

/// The entries of the map under a key, and none of another value.
pub fn entries_at<'a>(entries: &'a [Pair], key: &str) -> &'a [Pair]
    ensures { map pair_tree result.now ≡ entries_at (map pair_tree entries.now) key.now }
{
    match value_at(entries, key) {
        None => &[],
        Some(value) => map_entries(value),
    }
}
