//! What an inventory is, and what a refusal tells: each function proves a law.
ghost use Rattle.rb_inventory.specs.Laws.{NamesDiffer, NodesAreFew, NodesAreSound, AttributesDiffer, FaultIsListed, FaultIsFirst};

/// The names of an inventory differ.
pub fn names_differ()
    ensures { NamesDiffer }
{}

/// An inventory has at most 10,000 nodes.
pub fn nodes_are_few()
    ensures { NodesAreFew }
{}

/// The tags of each node differ and none is empty, no attribute is called as the tags or the node's
/// own name, and no quote of its prefix words is open.
pub fn nodes_are_sound()
    ensures { NodesAreSound }
{}

/// The keys of the attributes of each node differ, where those of the documents' maps do.
pub fn attributes_differ()
    ensures { AttributesDiffer }
{}

/// A refusal names what the documents list.
pub fn fault_is_listed()
    ensures { FaultIsListed }
{}

/// A refusal tells the fault of the first faulty node: nothing that is listed before it is faulty.
pub fn fault_is_first()
    ensures { FaultIsFirst }
{}
