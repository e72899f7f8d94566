//! What a chain document without a flaw says.
ghost use Rattle.rb_chain.specs.Chains.{job_at, pairs_or_none, run_in, runs_in, undo_in};
ghost use Rattle.rb_chain.specs.Forms.{args_at};
ghost use Rattle.rb_values.specs.Values.{value_at};
ghost use Rattle.rb_yaml.specs.Tree.{docs_tree, pair_tree, yaml_tree};
ghost use Rattle.std.specs.Prelude.{◌≡◌, IfOk, codes, map, option_map};

use crate::forms::run_items;
use crate::pairs::args_at;
use crate::run::{ChainRun, ChainUndo};
use rb_causes::{Items, NoMemory, Prop, Text};
use rb_values::{map_entries, text_at, value_at};
use rb_yaml::{Doc, Pair, Yaml};
use std::alloc::Global;

/// The id of the job.
fn job_at(alloc: Global, entries: &[Pair]) -> Result<Text, NoMemory>
    ensures { IfOk result (λ job. job ≡ job_at (map pair_tree entries.now)) }
{
    match text_at(entries, "job") {
        None => Text::of(alloc, ""),
        Some(job) => job.copy(alloc),
    }
}

/// What is given to it.
fn given_at(alloc: Global, entries: &[Pair]) -> Result<Items<Prop>, NoMemory>
    ensures { IfOk result (λ given.
        given ≡ pairs_or_none (args_at (map pair_tree entries.now))) }
{
    match args_at(alloc, entries)? {
        None => Ok(Items::new(alloc)),
        Some(pairs) => Ok(pairs),
    }
}

fn undo_in(alloc: Global, value: &Yaml) -> Result<ChainUndo, NoMemory>
    ensures { IfOk result (λ undo. undo ≡ undo_in (yaml_tree value.now)) }
{
    let entries = map_entries(value);
    Ok(ChainUndo {
        job: job_at(alloc, entries)?,
        given: given_at(alloc, entries)?,
    })
}

fn undo_at(alloc: Global, entries: &[Pair]) -> Result<Option<ChainUndo>, NoMemory>
    ensures { IfOk result (λ undo. undo
        ≡ option_map undo_in (value_at (map pair_tree entries.now) (codes "undo"))) }
{
    match value_at(entries, "undo") {
        None => Ok(None),
        Some(value) => Ok(Some(undo_in(alloc, value)?)),
    }
}

fn run_in(alloc: Global, value: &Yaml) -> Result<ChainRun, NoMemory>
    ensures { IfOk result (λ run. run ≡ run_in (yaml_tree value.now)) }
{
    let entries = map_entries(value);
    Ok(ChainRun {
        job: job_at(alloc, entries)?,
        given: given_at(alloc, entries)?,
        undo: undo_at(alloc, entries)?,
    })
}

fn items_read(alloc: Global, items: &[Yaml]) -> Result<Items<ChainRun>, NoMemory>
    ensures { IfOk result (λ runs. runs ≡ map run_in (map yaml_tree items.now)) }
{
    let mut runs = Items::new(alloc);
    for item in items {
        runs.push(run_in(alloc, item)?)?;
    }
    Ok(runs)
}

/// The runs of a document without a flaw.
pub(crate) fn runs_in(alloc: Global, docs: &[Doc]) -> Result<Items<ChainRun>, NoMemory>
    ensures { IfOk result (λ runs. runs ≡ runs_in (docs_tree docs.now)) }
{
    match run_items(docs) {
        None => Ok(Items::new(alloc)),
        Some(items) => items_read(alloc, items),
    }
}
