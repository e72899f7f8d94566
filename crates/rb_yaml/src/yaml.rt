ghost use Rattle.rb_yaml.specs.Tree as tree;
ghost use Rattle.rb_yaml.specs.Tree.{yaml_tree, pair_tree, trees_of, entries_of};
ghost use Rattle.std.specs.Prelude.{◌≡◌, map};

use rb_causes::Text;

/// A value of a document, with the line on which it begins, from 1.
#[derive(Debug, Drop)]
#[cycle(yaml)]
pub enum Yaml {
    /// A text; an empty one where nothing stands.
    Scalar { line: u32, text: Text },
    /// A sequence.
    Seq { line: u32, items: Vec<Yaml> },
    /// A map, whose keys differ, as written.
    Map { line: u32, entries: Vec<Pair> },
}

/// A key of a map, with its value.
#[derive(Debug, Drop)]
#[cycle(yaml)]
pub struct Pair {
    pub key: Text,
    pub value: Yaml,
}

/// A document of a text.
#[derive(Debug, Drop)]
pub struct Doc {
    pub root: Yaml,
}

/// A text.
pub(crate) fn scalar(line: u32, text: Text) -> Yaml
    ensures { yaml_tree result ≡ tree.scalar line text }
{
    Yaml::Scalar { line, text }
}

pub(crate) fn sequence(line: u32, items: Vec<Yaml>) -> Yaml
    ensures { yaml_tree result ≡ tree.seq line (trees_of (map yaml_tree items.items)) }
{
    Yaml::Seq { line, items }
}

pub(crate) fn mapping(line: u32, entries: Vec<Pair>) -> Yaml
    ensures { yaml_tree result ≡ tree.mapping line (entries_of (map pair_tree entries.items)) }
{
    Yaml::Map { line, entries }
}

pub(crate) fn entry(key: Text, value: Yaml) -> Pair
    ensures { pair_tree result ≡ (key, yaml_tree value) }
{
    Pair { key, value }
}
