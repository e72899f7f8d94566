//! The attributes of a node, or what is wrong with the first faulty one.
ghost use Rattle.rb_causes.specs.Words.{words_of};
ghost use Rattle.rb_inventory.specs.Attributes.{is_exec, kept_text, attrs_of, tags_flaw, plain_value_flaw, attribute_flaw, attributes_read};
ghost use Rattle.rb_inventory.specs.Tags.{entry_tags, written_tags};
ghost use Rattle.rb_node.specs.Nodes.{is_own_name};
ghost use Rattle.rb_yaml.specs.Tree.{yaml_tree, pair_tree};
ghost use Rattle.std.specs.Option.{option_or};
ghost use Rattle.std.specs.Prelude.{◌≡◌, [], ◌∷◌, ◌++◌, Ok, None, Some, IfOk, map, is_none};

use crate::fault::NodeKind;
use crate::tags::{is_tags, written_tags};
use rb_causes::{Items, NoMemory, Prop, Text, WordsErr, words};
use rb_values::{key_of, text_in, value_of};
use rb_yaml::{Pair, Yaml};
use std::alloc::Global;

/// What the attributes of a node come to: those that it keeps, as written, and the tags under
/// `tags`.
#[derive(Drop)]
pub(crate) struct Attributes {
    pub kept: Items<Prop>,
    pub tags: Option<Items<Text>>,
}

/// Whether the text under the key is read as words.
fn is_exec(key: &str) -> bool
    ensures { result ≡ is_exec key.now }
{
    key == "desk-exec"
}

/// Whether the key means the node's own name.
fn is_own_name(key: &str) -> bool
    ensures { result ≡ is_own_name key.now }
{
    key == "name" || key == "nodename"
}

/// Whether a quote of the text is not closed.
fn has_open_quote(alloc: Global, text: &str) -> Result<bool, NoMemory>
    ensures { IfOk result (λ open_. open_ ≡ is_none (words_of text.now)) }
{
    match words(alloc, text) {
        Ok(_words) => Ok(false),
        Err(WordsErr::OpenQuote) => Ok(true),
        Err(WordsErr::NoMemory) => Err(NoMemory),
    }
}

/// Adds the tags that a value writes, of which the first count, or tells that it writes none.
fn add_tags(
    alloc: Global,
    attributes: &mut Attributes,
    value: &Yaml,
) -> Result<Option<NodeKind>, NoMemory>
    ensures flaw { IfOk result (λ flaw. flaw ≡ tags_flaw (yaml_tree value.now)) }
    ensures kept { attributes.new.kept ≡ attributes.old.kept }
    ensures tags { result ≡ Ok None → attributes.new.tags
        ≡ option_or attributes.old.tags (written_tags (yaml_tree value.now)) }
{
    let Some(tags) = written_tags(alloc, value)? else {
        return Ok(Some(NodeKind::BadTags));
    };
    if attributes.tags.is_none() {
        attributes.tags = Some(tags);
    }
    Ok(None)
}

/// Adds the text under a key other than `tags`, or tells what is wrong with it.
fn add_text(
    alloc: Global,
    attributes: &mut Attributes,
    key: &str,
    text: &str,
) -> Result<Option<NodeKind>, NoMemory>
    ensures flaw { IfOk result (λ flaw. flaw ≡ plain_value_flaw key.now (Some text.now)) }
    ensures kept { result ≡ Ok None → attributes.new.kept
        ≡ attributes.old.kept ++ kept_text key.now text.now }
    ensures tags { attributes.new.tags ≡ attributes.old.tags }
{
    if is_exec(key) && has_open_quote(alloc, text)? {
        return Ok(Some(NodeKind::BadExec));
    }
    if !is_own_name(key) {
        attributes.kept.push(Prop {
            key: Text::of(alloc, key)?,
            text: Text::of(alloc, text)?,
        })?;
    }
    Ok(None)
}

/// Adds an attribute, or tells what is wrong with it.
fn add(
    alloc: Global,
    attributes: &mut Attributes,
    entry: &Pair,
) -> Result<Option<NodeKind>, NoMemory>
    ensures flaw { IfOk result (λ flaw. flaw ≡ attribute_flaw (pair_tree entry.now)) }
    ensures kept { result ≡ Ok None → attributes.new.kept
        ≡ attributes.old.kept ++ attrs_of (pair_tree entry.now ∷ []) }
    ensures tags { result ≡ Ok None → attributes.new.tags
        ≡ option_or attributes.old.tags (entry_tags (pair_tree entry.now)) }
{
    if is_tags(key_of(entry)) {
        return add_tags(alloc, attributes, value_of(entry));
    }
    match text_in(value_of(entry)) {
        None => Ok(Some(NodeKind::BadValue)),
        Some(text) => add_text(alloc, attributes, key_of(entry), text.as_str()),
    }
}

/// What the attributes come to, or what is wrong with the first faulty one as written.
pub(crate) fn read_attributes(
    alloc: Global,
    entries: &[Pair],
) -> Result<Result<Attributes, NodeKind>, NoMemory>
    ensures { IfOk result (λ read. read ≡ attributes_read (map pair_tree entries.now)) }
{
    let mut attributes = Attributes {
        kept: Items::new(alloc),
        tags: None,
    };
    for entry in entries {
        if let Some(kind) = add(alloc, &mut attributes, entry)? {
            return Ok(Err(kind));
        }
    }
    Ok(Ok(attributes))
}
