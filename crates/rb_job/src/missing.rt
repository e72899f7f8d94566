//! The keys that a job lacks.
ghost use Rattle.rb_job.specs.Missing.{commands_of, lacks, is_nameless, refers_nowhere, lacking, missing_doubts};
ghost use Rattle.rb_job.specs.Telling.{TellsFirst};
ghost use Rattle.rb_yaml.specs.Tree.{yaml_tree, pair_tree};
ghost use Rattle.std.specs.List.{list_any};
ghost use Rattle.std.specs.Prelude.{◌≡◌, map};

use crate::fault::JobKind;
use crate::halt::Halt;
use crate::texts::doubt_unless;
use rb_values::{entries_at, has_key, items_at, map_entries};
use rb_yaml::{Pair, Yaml};
use std::alloc::Global;

/// The items of a job's sequence.
pub(crate) fn commands_of(job: &[Pair]) -> &[Yaml]
    ensures { map yaml_tree result.now ≡ commands_of (map pair_tree job.now) }
{
    items_at(entries_at(job, "sequence"), "commands")
}

fn lacks(entries: &[Pair], key: &str) -> bool
    ensures { result ≡ lacks (map pair_tree entries.now) key.now }
{
    !has_key(entries, key)
}

fn is_nameless(item: &Yaml) -> bool
    ensures { result ≡ is_nameless (yaml_tree item.now) }
{
    lacks(map_entries(item), "name")
}

/// Whether a command refers to a job without a name.
fn refers_nowhere(command: &Yaml) -> bool
    ensures { result ≡ refers_nowhere (yaml_tree command.now) }
{
    let entries = map_entries(command);
    has_key(entries, "jobref") && lacks(entries_at(entries, "jobref"), "name")
}

fn has_nameless(items: &[Yaml]) -> bool
    ensures { result ≡ list_any is_nameless (map yaml_tree items.now) }
{
    for item in items {
        if is_nameless(item) {
            return true;
        }
    }
    false
}

fn refer_nowhere(commands: &[Yaml]) -> bool
    ensures { result ≡ list_any refers_nowhere (map yaml_tree commands.now) }
{
    for command in commands {
        if refers_nowhere(command) {
            return true;
        }
    }
    false
}

/// Tells that the key is missing, if it is.
fn lacking(alloc: Global, is_missing: bool, key: &str) -> Result<(), Halt>
    ensures { TellsFirst (lacking is_missing key.now) result }
{
    doubt_unless(alloc, !is_missing, key, JobKind::MissingKey)
}

/// Tells the first key that a job lacks.
pub(crate) fn check_missing(alloc: Global, job: &[Pair]) -> Result<(), Halt>
    ensures { TellsFirst (missing_doubts (map pair_tree job.now)) result }
{
    lacking(alloc, lacks(job, "name"), "name")?;
    lacking(alloc, lacks(job, "sequence"), "sequence")?;
    let sequence = entries_at(job, "sequence");
    lacking(alloc, lacks(sequence, "commands"), "commands")?;
    lacking(alloc, has_nameless(items_at(job, "options")), "name")?;
    lacking(alloc, refer_nowhere(commands_of(job)), "name")
}
