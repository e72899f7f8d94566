//! The tags of a node.
ghost use Rattle.rb_causes.specs.Texts.{is_empty, is_tags};
ghost use Rattle.rb_inventory.specs.Tags.{listed_tags, written_tags};
ghost use Rattle.rb_yaml.specs.Tree.{yaml_tree};
ghost use Rattle.std.specs.Prelude.{◌≡◌, [], ◌∷◌, ◌++◌, not, IfOk, OnOk, map, filter};

use rb_causes::{Items, NoMemory, Text, comma_items, trimmed};
use rb_values::{items_in, text_in};
use rb_yaml::Yaml;
use std::alloc::Global;

/// The key under which a node's tags stand.
pub(crate) fn is_tags(key: &str) -> bool
    ensures { result ≡ is_tags key.now }
{
    key == "tags"
}

/// Adds a text that is not empty.
fn push_filled(alloc: Global, texts: &mut Items<Text>, text: &str) -> Result<(), NoMemory>
    ensures { OnOk result
        (texts.new ≡ texts.old ++ filter (λ t. not (is_empty t)) (text.now ∷ [])) }
{
    if text.is_empty() {
        return Ok(());
    }
    texts.push(Text::of(alloc, text)?)
}

/// The tags of a list, trimmed and without empty ones; None where an item is no text.
fn listed_tags(alloc: Global, items: &[Yaml]) -> Result<Option<Items<Text>>, NoMemory>
    ensures { IfOk result (λ tags. tags ≡ listed_tags (map yaml_tree items.now)) }
{
    let mut tags = Items::new(alloc);
    for item in items {
        match text_in(item) {
            None => return Ok(None),
            Some(text) => push_filled(alloc, &mut tags, trimmed(text.as_str()))?,
        }
    }
    Ok(Some(tags))
}

/// The tags that a value writes; None where it is neither a text nor a list of texts.
pub(crate) fn written_tags(alloc: Global, value: &Yaml) -> Result<Option<Items<Text>>, NoMemory>
    ensures { IfOk result (λ tags. tags ≡ written_tags (yaml_tree value.now)) }
{
    if let Some(text) = text_in(value) {
        return Ok(Some(Items::of(comma_items(alloc, text.as_str())?)));
    }
    match items_in(value) {
        None => Ok(None),
        Some(items) => listed_tags(alloc, items),
    }
}
