//! The node of a listing, or what is wrong with it.
ghost use Rattle.rb_inventory.specs.Attributes.{first_flaw};
ghost use Rattle.rb_inventory.specs.Listings.{node_with, attributes_of, node_read};
ghost use Rattle.rb_yaml.specs.Tree.{yaml_tree, pair_tree};
ghost use Rattle.rb_node.specs.Tags.{once};
ghost use Rattle.std.specs.Option.{option_copied};
ghost use Rattle.rb_causes.specs.Causes.{unless};
ghost use Rattle.std.specs.Prelude.{◌≡◌, IfOk, [], None, Ok, Err, Some, map, option_map, unwrap_or};

use crate::attributes::{Attributes, read_attributes};
use crate::fault::NodeKind;
use rb_causes::{Items, NoMemory, Text};
use rb_node::{Node, once};
use rb_yaml::{Pair, Yaml};
use std::alloc::Global;

/// The node of this name with these attributes.
fn node_with(alloc: Global, name: &str, attributes: Attributes) -> Result<Node, NoMemory>
    ensures { IfOk result (λ node. node ≡ record {
      name = name.now;
      attrs = attributes.kept;
      tags = once (unwrap_or attributes.tags []);
    }) }
{
    let Attributes { kept, tags } = attributes;
    let tags = tags.unwrap_or(Items::new(alloc));
    Ok(Node {
        name: Text::of(alloc, name)?,
        attrs: kept,
        tags: once(alloc, tags.into_vec())?,
    })
}

/// A node without attributes.
fn bare(alloc: Global, name: &str) -> Result<Node, NoMemory>
    ensures { IfOk result (λ node. node ≡ node_with name.now []) }
{
    Ok(Node {
        name: Text::of(alloc, name)?,
        attrs: Items::new(alloc),
        tags: Items::new(alloc),
    })
}

/// The node of this name with the attributes of a map, or what is wrong with the first faulty one.
fn read_map(alloc: Global, name: &str, entries: &[Pair]) -> Result<Result<Node, NodeKind>, NoMemory>
    ensures { IfOk result (λ read. read ≡ unless (first_flaw (map pair_tree entries.now))
        (node_with name.now (map pair_tree entries.now))) }
{
    match read_attributes(alloc, entries)? {
        Ok(attributes) => Ok(Ok(node_with(alloc, name, attributes)?)),
        Err(kind) => Ok(Err(kind)),
    }
}

/// The node of this name and value, or what is wrong with the value.
fn read_value(alloc: Global, name: &str, value: &Yaml) -> Result<Result<Node, NodeKind>, NoMemory>
    ensures exact { IfOk result (λ read. read ≡ node_read (name.now, Some (yaml_tree value.now))) }
    ensures form { attributes_of (Some (yaml_tree value.now)) ≡ None →
        result ≡ Ok (Err NodeKind.NotMap) }
{
    match value {
        Yaml::Scalar { line: _, text } => {
            if text.as_str().is_empty() {
                return Ok(Ok(bare(alloc, name)?));
            }
            Ok(Err(NodeKind::NotMap))
        }
        Yaml::Seq { line: _, items: _ } => Ok(Err(NodeKind::NotMap)),
        Yaml::Map { line: _, entries } => read_map(alloc, name, entries.as_slice()),
    }
}

/// The node of this name and value, or what is wrong with the value. A document that is no map has
/// none.
pub(crate) fn read_node(
    alloc: Global,
    name: &str,
    value: Option<&Yaml>,
) -> Result<Result<Node, NodeKind>, NoMemory>
    ensures exact { IfOk result (λ read. read ≡
        node_read (name.now, option_map yaml_tree (option_copied value.entry))) }
    ensures form { attributes_of (option_map yaml_tree (option_copied value.entry)) ≡ None →
        result ≡ Ok (Err NodeKind.NotMap) }
{
    match value {
        None => Ok(Err(NodeKind::NotMap)),
        Some(value) => read_value(alloc, name, value),
    }
}
