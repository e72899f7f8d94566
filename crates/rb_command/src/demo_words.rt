//! The words of `demo`.
ghost use Rattle.rb_command.specs.DemoWords.{demo_by, demo_of, is_node_count};
ghost use Rattle.std.specs.Prelude.{◌≡◌};

use crate::command::Command;
use rb_causes::{Text, decimal};

/// How many nodes a demo has at most.
const MOST: u64 = 1_000;

/// NODES
pub(crate) fn read_demo(words: &[Text]) -> Option<Command>
    ensures { result ≡ demo_of words.now }
{
    match words {
        [nodes] => demo_by(decimal(nodes.as_str())),
        _ => None,
    }
}

fn demo_by(nodes: Option<u64>) -> Option<Command>
    ensures { result ≡ demo_by nodes }
{
    let nodes = nodes?;
    if is_node_count(nodes) {
        Some(Command::Demo(nodes as u32))
    } else {
        None
    }
}

fn is_node_count(nodes: u64) -> bool
    ensures { result ≡ is_node_count nodes }
{
    1 <= nodes && nodes <= MOST
}
