ghost use Rattle.rb_orch.specs.Tiering.{tiers_of, tiers_behind, tier_behind};
ghost use Rattle.std.specs.Option.{option_copied};
ghost use Rattle.std.specs.Prelude.{◌≡◌, ◌+◌, ◌<◌, ◌^◌, ◌∷◌, IfOk, length};

use crate::ranking::is_same_rank;
use rb_causes::NoMemory;
use rb_node::Node;
use std::alloc::Global;

/// Numbers the runs of equal rank values in a ranked list from 0: a number for each node.
pub fn tiers(alloc: Global, nodes: &[Node], by: Option<&str>) -> Result<Vec<u32>, NoMemory>
    requires { length nodes.now < 2 ^ 32 }
    ensures { IfOk result (λ numbers.
        numbers.items ≡ tiers_of (option_copied by.entry) nodes.now) }
{
    match nodes {
        [] => Ok(Vec::new(alloc)),
        [first, rest @ ..] => tiers_from(alloc, by, first, rest),
    }
}

/// The tiers of a first node and of those behind it.
fn tiers_from(
    alloc: Global,
    by: Option<&str>,
    first: &Node,
    rest: &[Node],
) -> Result<Vec<u32>, NoMemory>
    requires { length rest.now + 1 < 2 ^ 32 }
    ensures { IfOk result (λ numbers.
        numbers.items ≡ 0 ∷ tiers_behind (option_copied by.entry) first.now 0 rest.now) }
{
    let mut numbers = vec![in alloc; 0]?;
    let mut before = first;
    let mut tier = 0;
    for node in rest {
        tier = tier_behind(by, before, tier, node);
        numbers.push(tier)?;
        before = node;
    }
    Ok(numbers)
}

/// The tier of a node directly behind another one.
fn tier_behind(by: Option<&str>, before: &Node, tier: u32, node: &Node) -> u32
    requires { tier + 1 < 2 ^ 32 }
    ensures { result ≡ tier_behind (option_copied by.entry) before.now tier node.now }
{
    if is_same_rank(by, before, node) {
        tier
    } else {
        tier + 1
    }
}
