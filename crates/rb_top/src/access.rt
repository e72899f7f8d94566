ghost use Rattle.rb_acl.specs.Deciding.{is_allowed};
ghost use Rattle.rb_top.specs.Access.{allowed_of};
ghost use Rattle.rb_top.specs.Table.{told_on};
ghost use Rattle.std.specs.Prelude.{◌≡◌, IfOk};

use crate::access_table::AccessTable;
use rb_acl::Decision;
use rb_causes::{Items, NoMemory, Text};
use std::alloc::Global;

/// A node, and the decision on running it.
#[derive(Drop)]
pub(crate) struct NodeDecision {
    pub node: Text,
    pub decision: Decision,
}

/// Whether the decision allows.
pub(crate) fn is_allowed(decision: Decision) -> bool
    ensures { result ≡ is_allowed decision }
{
    match decision {
        Decision::Allowed(_) => true,
        Decision::Denied(_) => false,
        Decision::NoneAllows => false,
    }
}

/// The decision on each of the nodes, in their order.
pub(crate) fn decisions_on(
    alloc: Global,
    access: &AccessTable,
    user: &Text,
    nodes: &[Text],
) -> Result<Vec<NodeDecision>, NoMemory>
    ensures { IfOk result
        (λ decisions. decisions.items ≡ told_on access.now user.now nodes.now) }
{
    let mut decisions = Vec::new(alloc);
    for node in nodes {
        let decision = access.decision_on(user, node);
        let node = node.copy(alloc)?;
        decisions.push(NodeDecision { node, decision })?;
    }
    Ok(decisions)
}

/// The nodes that the decisions allow, in their order.
pub(crate) fn allowed_nodes(
    alloc: Global,
    decisions: &[NodeDecision],
) -> Result<Items<Text>, NoMemory>
    ensures { IfOk result (λ allowed. allowed ≡ allowed_of decisions.now) }
{
    let mut allowed = Items::new(alloc);
    for decided in decisions {
        if is_allowed(decided.decision) {
            allowed.push(decided.node.copy(alloc)?)?;
        }
    }
    Ok(allowed)
}
