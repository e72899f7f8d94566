ghost use Rattle.rb_inventory.specs.declared.fault.NodeErr.TheVariants as variants;
ghost use Rattle.std.specs.Prelude.{◌≡◌};

use rb_causes::{NoMemory, Text};

/// What is wrong with a node, in the order in which it is looked for. The last three are of its
/// attributes, of which the first faulty one is told.
#[derive(Clone, Copy, Debug, PartialEq, Eq)]
pub enum NodeKind {
    /// 10,000 nodes stand before it.
    TooMany,
    /// A node of this name stands before it.
    Twice,
    /// The node is neither a map of attributes nor an empty text, or a document is no map of nodes.
    NotMap,
    /// `tags` is neither a text nor a list of texts.
    BadTags,
    /// An attribute other than `tags` is no text.
    BadValue,
    /// A quote of `desk-exec` is not closed.
    BadExec,
}

/// The first faulty node by its name, which is empty for a document that is no map.
#[derive(Debug, Drop)]
pub struct NodeFault {
    pub node: Text,
    pub kind: NodeKind,
}

/// Why documents give no inventory.
#[derive(Debug, Drop)]
pub enum NodeErr {
    Fault(NodeFault),
    NoMemory,
}

impl From<NoMemory> for NodeErr {
    ghost from_gives = { λ _ error. error ≡ variants.NoMemory };

    fn from(_error: NoMemory) -> NodeErr {
        NodeErr::NoMemory
    }
}
