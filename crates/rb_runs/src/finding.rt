//! What is looked for in the world of a desk.
ghost use Rattle.std.specs.Option.{option_copied};
ghost use Rattle.std.specs.Prelude.{◌≡◌, bytes_eq, find};

use rb_node::Node;

/// The node of this name.
pub(crate) fn node_named<'a>(nodes: &'a [Node], name: &str) -> Option<&'a Node>
    ensures { option_copied result ≡ find (λ n. bytes_eq n.name name.now) nodes.now }
{
    nodes.iter().find(|node| node.name.as_str() == name)
}
