ghost use Rattle.rb_orch.specs.Picking.{drawn, standing_at, subset_of};
ghost use Rattle.std.specs.List.{list_any};
ghost use Rattle.std.specs.List.Sorted.{IsNonDecreasing};
ghost use Rattle.rb_causes.specs.Numbers.{numbers_from};
ghost use Rattle.std.specs.Prelude.{◌≡◌, nat_eq, ◌≤◌, IfOk, length};

use crate::drawing::generator;
use rb_causes::NoMemory;
use rb_node::Node;
use std::alloc::Global;

/// So many of the nodes, all where there are no more, in their old order. Which ones is drawn from
/// `draw`.
pub fn pick_subset(
    alloc: Global,
    nodes: Vec<Node>,
    count: u32,
    draw: u64,
) -> Result<Vec<Node>, NoMemory>
    ensures { IfOk result (λ picked. picked.items ≡ subset_of nodes.items count draw) }
{
    let left = places(alloc, nodes.len())?;
    let wanted = (count as usize).min(nodes.len());
    let taken = drawn(alloc, wanted, left, (draw % (1 << 31)) as u32)?;
    keep(alloc, taken, nodes)
}

/// The places of a list of this length.
fn places(alloc: Global, length: usize) -> Result<Vec<usize>, NoMemory>
    ensures { IfOk result (λ all. all.items ≡ numbers_from 0 length) }
{
    let mut all = Vec::new(alloc);
    for place in 0..length {
        all.push(place)?;
    }
    Ok(all)
}

/// The places that so many draws take out of those left.
fn drawn(
    alloc: Global,
    wanted: usize,
    mut left: Vec<usize>,
    mut x: u32,
) -> Result<Vec<usize>, NoMemory>
    requires { wanted ≤ length left.items }
    ensures { IfOk result (λ taken. taken.items ≡ drawn wanted left.items x) }
{
    let mut taken = Vec::new(alloc);
    for _step in 0..wanted {
        x = generator(x);
        let turn = (x / 65536) as usize % left.len();
        taken.push(left.remove(turn))?;
    }
    Ok(taken)
}

/// The nodes that stand at one of the places, in their order.
fn keep(alloc: Global, mut taken: Vec<usize>, nodes: Vec<Node>) -> Result<Vec<Node>, NoMemory>
    ensures { IfOk result (λ kept. kept.items ≡ standing_at taken.items 0 nodes.items) }
{
    taken.sort_unstable();
    standing_at(alloc, taken.as_slice(), nodes)
}

/// The nodes that stand at one of the places, which ascend.
fn standing_at(alloc: Global, taken: &[usize], nodes: Vec<Node>) -> Result<Vec<Node>, NoMemory>
    requires { IsNonDecreasing taken.now }
    ensures { IfOk result (λ kept. kept.items ≡ standing_at taken.now 0 nodes.items) }
{
    let mut kept = Vec::new(alloc);
    let mut place = 0;
    for node in nodes {
        if is_among(taken, place) {
            kept.push(node)?;
        }
        place += 1;
    }
    Ok(kept)
}

/// Whether a place is one of those, which ascend.
fn is_among(places: &[usize], place: usize) -> bool
    requires { IsNonDecreasing places.now }
    ensures { result ≡ list_any (λ q. nat_eq q place) places.now }
{
    places.binary_search(&place).is_ok()
}
