//! Values with nothing in them.
ghost use Rattle.rb_job.specs.Parts.{are_hollow, have_hollow, is_hollow, is_no_value};
ghost use Rattle.rb_yaml.specs.Tree.{entries_of, pair_tree, trees_of, yaml_tree};
ghost use Rattle.std.specs.Prelude.{◌≡◌, map};

use rb_yaml::{Pair, Yaml};

/// Whether the text is no value.
pub(crate) fn is_no_value(text: &str) -> bool
    ensures { result ≡ is_no_value text.now }
{
    text.is_empty() || text == "null" || text == "~"
}

/// Whether every scalar beneath is no value.
#[cycle(hollow)]
pub(crate) fn is_hollow(value: &Yaml) -> bool
    ensures { result ≡ is_hollow (yaml_tree value.now) }
{
    match value {
        Yaml::Scalar { line: _, text } => is_no_value(text.as_str()),
        Yaml::Seq { line: _, items } => are_hollow(items.as_slice()),
        Yaml::Map { line: _, entries } => have_hollow(entries.as_slice()),
    }
}

#[cycle(hollow)]
fn are_hollow(items: &[Yaml]) -> bool
    ensures { result ≡ are_hollow (trees_of (map yaml_tree items.now)) }
{
    for item in items {
        if !is_hollow(item) {
            return false;
        }
    }
    true
}

#[cycle(hollow)]
fn have_hollow(entries: &[Pair]) -> bool
    ensures { result ≡ have_hollow (entries_of (map pair_tree entries.now)) }
{
    for entry in entries {
        if !is_hollow(&entry.value) {
            return false;
        }
    }
    true
}
