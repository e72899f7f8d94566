//! The inventory of documents.
ghost use Rattle.rb_inventory.specs.Inventories.{is_repeated, read_behind, inventory_of, GivesInventory};
ghost use Rattle.rb_inventory.specs.ListingsView.{listing_view};
ghost use Rattle.rb_causes.specs.SeenTexts.{HasSeen};
ghost use Rattle.rb_yaml.specs.Tree.{docs_tree};
ghost use Rattle.std.specs.Prelude.{◌≡◌, ◌≤◌, ◌⊎◌, ℕ, List, length, Ok, Err, true, IfOk, IsOk};

use crate::fault::{NodeErr, NodeFault, NodeKind};
use crate::listing::{Listing, listings_of};
use crate::nodes::read_node;
use rb_causes::{Items, NoMemory, SeenTexts, Text};
use rb_node::Node;
use rb_yaml::Doc;
use std::alloc::Global;

/// How many nodes an inventory has at most.
const MOST_NODES: usize = 10_000;

/// The nodes of resource documents, in their order.
#[derive(Drop)]
pub struct Inventory {
    pub nodes: Items<Node>,
}

/// Whether the name was seen. A document that is no map has none.
fn is_repeated(seen: &SeenTexts, listing: &Listing) -> bool
    ensures { (names : List (List ℕ)) → HasSeen seen.now names →
        result ≡ is_repeated names (listing_view listing.now) }
{
    match listing.value {
        None => false,
        Some(_value) => seen.holds(listing.name),
    }
}

/// The node of a listing, or what is wrong with it, behind so many nodes, whose names were seen.
fn read_behind(
    alloc: Global,
    before: usize,
    seen: &SeenTexts,
    listing: &Listing,
) -> Result<Result<Node, NodeKind>, NoMemory>
    ensures exact { (names : List (List ℕ)) → HasSeen seen.now names → before ≡ length names →
        IfOk result (λ read. read ≡ read_behind names (listing_view listing.now)) }
    ensures many { 10000 ≤ before → result ≡ Ok (Err NodeKind.TooMany) }
    ensures twice { (names : List (List ℕ)) → HasSeen seen.now names →
        is_repeated names (listing_view listing.now) ≡ true → IsOk result }
{
    if before >= MOST_NODES {
        return Ok(Err(NodeKind::TooMany));
    }
    if is_repeated(seen, listing) {
        return Ok(Err(NodeKind::Twice));
    }
    read_node(alloc, listing.name, listing.value)
}

/// The fault of the node of this name, as it is told.
fn told(alloc: Global, name: &str, kind: NodeKind) -> NodeErr
    ensures { (result ≡ NodeErr.NoMemory)
        ⊎ (result ≡ NodeErr.Fault (record { node = name.now; kind = kind })) }
{
    match Text::of(alloc, name) {
        Ok(node) => NodeErr::Fault(NodeFault { node, kind }),
        Err(NoMemory) => NodeErr::NoMemory,
    }
}

/// The inventory of resource documents, or the fault of the first faulty node. `NodeKind` says
/// which of several faults of a node is told.
pub fn read_nodes(alloc: Global, docs: &[Doc]) -> Result<Inventory, NodeErr>
    ensures exact { GivesInventory result (inventory_of (docs_tree docs.now)) }
{
    let listings = listings_of(alloc, docs)?;
    let mut seen = SeenTexts::new(alloc);
    let mut nodes = Items::new(alloc);
    for listing in &listings {
        match read_behind(alloc, nodes.len(), &seen, listing)? {
            Ok(node) => {
                seen.note(alloc, listing.name)?;
                nodes.push(node)?;
            }
            Err(kind) => return Err(told(alloc, listing.name, kind)),
        }
    }
    Ok(Inventory { nodes })
}
