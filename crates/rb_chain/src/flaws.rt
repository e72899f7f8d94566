//! What is wrong with a chain document first: a function for each kind of flaw.
ghost use Rattle.rb_chain.specs.Forms.{are_args_read, chain_flaws, flaws_from, is_run};
ghost use Rattle.rb_chain.specs.Forms.{items_flaws, most_runs, no_chain, run_flaws, unless_holds};
ghost use Rattle.rb_values.specs.Values.{map_entries};
ghost use Rattle.rb_yaml.specs.Tree.{docs_tree, pair_tree, yaml_tree};
ghost use Rattle.std.specs.Prelude.{◌≡◌, ◌+◌, IfOk, Some, map, nat_lt, not, slice_get};

use crate::chain_err::{ChainFault, ChainKind};
use crate::forms::{is_run, run_items};
use crate::pairs::args_at;
use rb_causes::NoMemory;
use rb_values::{entries_at, map_entries};
use rb_yaml::{Doc, Pair, Yaml};
use std::alloc::Global;

/// A flaw, if there is one, where memory sufficed to tell it.
type FoundFlaw = Result<Option<ChainFault>, NoMemory>;

/// How many runs a chain may have.
const MOST_RUNS: usize = 100;

/// The flaw of the run of this number, which has to fit 32 bits.
fn run_flaw_of(run: usize, kind: ChainKind) -> FoundFlaw
    ensures { IfOk result (λ flaw. flaw ≡ Some (record { run = run; kind = kind })) }
{
    match u32::try_from(run) {
        Ok(run) => Ok(Some(ChainFault { run, kind })),
        Err(_) => Err(NoMemory),
    }
}

/// Another form.
fn shape_flaw(run: usize, value: &Yaml) -> FoundFlaw
    ensures { IfOk result (λ flaw. flaw ≡ slice_get
        (unless_holds (is_run (yaml_tree value.now)) run ChainKind.BadShape) 0) }
{
    if is_run(value) {
        return Ok(None);
    }
    run_flaw_of(run, ChainKind::BadShape)
}

/// Whether the `args` of a run are pairs, and those of its undo.
fn are_args_read(alloc: Global, entries: &[Pair]) -> Result<bool, NoMemory>
    ensures { IfOk result (λ read. read ≡ are_args_read (map pair_tree entries.now)) }
{
    if args_at(alloc, entries)?.is_none() {
        return Ok(false);
    }
    Ok(args_at(alloc, entries_at(entries, "undo"))?.is_some())
}

/// `args` that are no pairs.
fn args_flaw(alloc: Global, run: usize, value: &Yaml) -> FoundFlaw
    ensures { IfOk result (λ flaw. flaw ≡ slice_get
        (unless_holds (are_args_read (map_entries (yaml_tree value.now))) run
        ChainKind.BadArgs) 0) }
{
    if are_args_read(alloc, map_entries(value))? {
        return Ok(None);
    }
    run_flaw_of(run, ChainKind::BadArgs)
}

/// Of the run of this number.
fn run_flaw(alloc: Global, run: usize, value: &Yaml) -> FoundFlaw
    ensures { IfOk result (λ flaw. flaw ≡ slice_get (run_flaws run (yaml_tree value.now)) 0) }
{
    match shape_flaw(run, value)? {
        Some(flaw) => Ok(Some(flaw)),
        None => args_flaw(alloc, run, value),
    }
}

/// Of all runs, from the first on.
fn runs_flaw(alloc: Global, values: &[Yaml]) -> FoundFlaw
    ensures { IfOk result (λ flaw. flaw ≡ slice_get
        (flaws_from 1 (map yaml_tree values.now)) 0) }
{
    for (before, value) in values.iter().enumerate() {
        let flaw = run_flaw(alloc, before + 1, value)?;
        if flaw.is_some() {
            return Ok(flaw);
        }
    }
    Ok(None)
}

/// Too many of them.
fn number_flaw(count: usize) -> Option<ChainFault>
    ensures { result ≡ slice_get
        (unless_holds (not (nat_lt most_runs count)) (most_runs + 1) ChainKind.TooMany) 0 }
{
    if MOST_RUNS < count {
        return Some(ChainFault {
            run: 101,
            kind: ChainKind::TooMany,
        });
    }
    None
}

/// That these documents are no chain.
fn no_chain() -> Option<ChainFault>
    ensures { result ≡ slice_get no_chain 0 }
{
    Some(ChainFault {
        run: 0,
        kind: ChainKind::BadShape,
    })
}

/// Of what stands under `runs`.
fn items_flaw(alloc: Global, items: &[Yaml]) -> FoundFlaw
    ensures { IfOk result (λ flaw. flaw ≡ slice_get
        (items_flaws (map yaml_tree items.now)) 0) }
{
    if items.is_empty() {
        return Ok(no_chain());
    }
    match runs_flaw(alloc, items)? {
        Some(flaw) => Ok(Some(flaw)),
        None => Ok(number_flaw(items.len())),
    }
}

/// The first flaw of a chain document.
pub(crate) fn chain_flaw(alloc: Global, docs: &[Doc]) -> FoundFlaw
    ensures { IfOk result (λ flaw. flaw ≡ slice_get (chain_flaws (docs_tree docs.now)) 0) }
{
    match run_items(docs) {
        None => Ok(no_chain()),
        Some(items) => items_flaw(alloc, items),
    }
}
