//! The texts of values.
ghost use Rattle.rb_acl_doc.specs.Texts.{holds_texts, texts_in_value, texts_at, text_or_empty};
ghost use Rattle.rb_values.specs.Values.{scalar_or_empty};
ghost use Rattle.rb_yaml.specs.Tree.{yaml_tree, pair_tree};
ghost use Rattle.std.specs.Prelude.{◌≡◌, [], ◌∷◌, map, IfOk};

use rb_causes::{Items, NoMemory, Text};
use rb_values::{are_texts, is_text, items_in, text_at, text_in, value_at};
use rb_yaml::{Pair, Yaml};
use std::alloc::Global;

/// Whether the value is a text, or a sequence of texts.
pub(crate) fn holds_texts(value: &Yaml) -> bool
    ensures { result ≡ holds_texts (yaml_tree value.now) }
{
    if is_text(value) {
        return true;
    }
    match items_in(value) {
        None => false,
        Some(items) => are_texts(items),
    }
}

/// The text that the value is, or the empty one.
fn text_of(alloc: Global, value: &Yaml) -> Result<Text, NoMemory>
    ensures { IfOk result (λ text. text ≡ scalar_or_empty (yaml_tree value.now)) }
{
    match text_in(value) {
        None => Text::of(alloc, ""),
        Some(text) => text.copy(alloc),
    }
}

/// The one text, or the texts of the sequence.
pub(crate) fn texts_in_value(alloc: Global, value: &Yaml) -> Result<Items<Text>, NoMemory>
    ensures { IfOk result (λ texts. texts ≡ texts_in_value (yaml_tree value.now)) }
{
    match text_in(value) {
        Some(text) => only(alloc, text),
        None => match items_in(value) {
            None => Ok(Items::new(alloc)),
            Some(items) => item_texts(alloc, items),
        },
    }
}

fn only(alloc: Global, text: &Text) -> Result<Items<Text>, NoMemory>
    ensures { IfOk result (λ texts. texts ≡ text.now ∷ []) }
{
    let mut texts = Items::new(alloc);
    texts.push(text.copy(alloc)?)?;
    Ok(texts)
}

fn item_texts(alloc: Global, items: &[Yaml]) -> Result<Items<Text>, NoMemory>
    ensures { IfOk result (λ texts. texts ≡ map scalar_or_empty (map yaml_tree items.now)) }
{
    let mut texts = Items::new(alloc);
    for item in items {
        texts.push(text_of(alloc, item)?)?;
    }
    Ok(texts)
}

/// The texts under this key.
pub(crate) fn texts_at(alloc: Global, entries: &[Pair], key: &str) -> Result<Items<Text>, NoMemory>
    ensures { IfOk result (λ texts. texts ≡ texts_at (map pair_tree entries.now) key.now) }
{
    match value_at(entries, key) {
        None => Ok(Items::new(alloc)),
        Some(value) => texts_in_value(alloc, value),
    }
}

/// The text under this key, or the empty one.
pub(crate) fn text_or_empty<'a>(entries: &'a [Pair], key: &str) -> &'a str
    ensures { result.now ≡ text_or_empty (map pair_tree entries.now) key.now }
{
    match text_at(entries, key) {
        None => "",
        Some(text) => text.as_str(),
    }
}
