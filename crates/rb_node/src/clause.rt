ghost use Rattle.rb_node.specs.Selection.{part_holds, clause_holds, is_plain_clause};
ghost use Rattle.rb_text.specs.Values.{is_plain_value};
ghost use Rattle.std.specs.List.{list_all};
ghost use Rattle.std.specs.Prelude.{◌≡◌, IfOk, IsOk, true};

use crate::node::Node;
use rb_causes::{Items, NoMemory, Text};
use rb_text::Value;
use std::alloc::Global;

/// A clause of a filter: of the alternatives for the attribute one must hold, with each of its
/// parts.
#[derive(Drop)]
pub struct FilterClause {
    pub exclude: bool,
    pub attr: Text,
    pub alternatives: Items<Items<Value>>,
}

impl FilterClause {
    /// Whether one of the alternatives holds for the node.
    pub fn holds(&self, alloc: Global, node: &Node) -> Result<bool, NoMemory>
        ensures found { IfOk result (λ yes. yes ≡ clause_holds node.now self.now) }
        ensures memory { is_plain_clause self.now ≡ true → IsOk result }
    {
        for alternative in self.alternatives.as_slice() {
            if all_hold(alloc, node, self.attr.as_str(), alternative.as_slice())? {
                return Ok(true);
            }
        }
        Ok(false)
    }
}

/// Whether all parts of an alternative hold.
fn all_hold(alloc: Global, node: &Node, attr: &str, parts: &[Value]) -> Result<bool, NoMemory>
    ensures found { IfOk result (λ yes. yes ≡ list_all (part_holds node.now attr.now) parts.now) }
    ensures memory { list_all is_plain_value parts.now ≡ true → IsOk result }
{
    for part in parts {
        if !part_holds(alloc, node, attr, part)? {
            return Ok(false);
        }
    }
    Ok(true)
}

/// Whether the part holds for what the node shows: for `tags` of some tag, else of the attribute's
/// text.
fn part_holds(alloc: Global, node: &Node, attr: &str, part: &Value) -> Result<bool, NoMemory>
    ensures found { IfOk result (λ yes. yes ≡ part_holds node.now attr.now part.now) }
    ensures memory { is_plain_value part.now ≡ true → IsOk result }
{
    if attr == "tags" {
        return part.holds_of_any(alloc, node.tags.as_slice());
    }
    match node.attribute(attr) {
        Some(text) => part.holds_of(alloc, text.as_str()),
        None => Ok(false),
    }
}
