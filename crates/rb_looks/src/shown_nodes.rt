//! A project's nodes as they are shown.
ghost use Rattle.rb_acl.specs.Numbering.{AreNumbered};
ghost use Rattle.rb_log.specs.Looks.{may_read_node};
ghost use Rattle.rb_looks.specs.Looking.{permitted};
ghost use Rattle.std.specs.Prelude.{◌≡◌, ◌++◌, ◌∷◌, [], filter, IfOk, OnOk};

use crate::reading::node_reads;
use rb_acl::Decision;
use rb_causes::{Items, NoMemory};
use rb_node::Node;
use rb_plan::{Access, is_allowed};
use rb_tables::duplicate::Duplicate;
use std::alloc::Global;

/// Adds a copy of the node where the decision allows it.
fn push_permitted(
    alloc: Global,
    decision: Decision,
    node: &Node,
    nodes: &mut Items<Node>,
) -> Result<(), NoMemory>
    ensures { OnOk result
        (nodes.new ≡ nodes.old ++ permitted (decision ∷ []) (node.now ∷ [])) }
{
    if is_allowed(decision) {
        nodes.push(node.duplicate(alloc)?)?;
    }
    Ok(())
}

/// Copies of those that the decision in the same place allows.
fn permitted_nodes(
    alloc: Global,
    decisions: &[Decision],
    nodes: &[Node],
) -> Result<Items<Node>, NoMemory>
    ensures { IfOk result (λ some. some ≡ permitted decisions.now nodes.now) }
{
    let mut some = Items::new(alloc);
    for (decision, node) in decisions.iter().zip(nodes.iter()) {
        push_permitted(alloc, *decision, node, &mut some)?;
    }
    Ok(some)
}

/// Copies of those of these nodes that the caller may read.
pub(crate) fn readable_nodes(
    alloc: Global,
    access: &Access<'_>,
    nodes: &[Node],
) -> Result<Items<Node>, NoMemory>
    requires { AreNumbered access.now.policies }
    ensures { IfOk result (λ some. some ≡ filter (may_read_node access.now) nodes.now) }
{
    let decisions = node_reads(alloc, access, nodes)?;
    permitted_nodes(alloc, decisions.as_slice(), nodes)
}
