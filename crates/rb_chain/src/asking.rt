//! What a chain asks for, as it is handed on.
ghost use Rattle.rb_chain.specs.Chains.{ask_at, ask_in, ask_with};
ghost use Rattle.std.specs.Prelude.{◌≡◌, IfOk, Some, is_some, true};

use crate::chain_next::ChainNext;
use crate::run::ChainRun;
use rb_causes::{Items, NoMemory, Prop, Text};
use rb_plan::RunAsk;
use std::alloc::Global;

fn copy_prop(alloc: Global, prop: &Prop) -> Result<Prop, NoMemory>
    ensures { IfOk result (λ copy. copy ≡ prop.now) }
{
    let key = prop.key.copy(alloc)?;
    let text = prop.text.copy(alloc)?;
    Ok(Prop { key, text })
}

fn copy_props(alloc: Global, props: &[Prop]) -> Result<Items<Prop>, NoMemory>
    ensures { IfOk result (λ copy. copy ≡ props.now) }
{
    let mut copy = Items::new(alloc);
    for prop in props {
        copy.push(copy_prop(alloc, prop)?)?;
    }
    Ok(copy)
}

/// A run of this job with these values, without a filter.
fn ask_with(alloc: Global, job: &Text, given: &Items<Prop>) -> Result<RunAsk, NoMemory>
    ensures { IfOk result (λ ask. ask ≡ ask_with job.now given.now) }
{
    let job = job.copy(alloc)?;
    let given = copy_props(alloc, given.as_slice())?;
    Ok(RunAsk {
        job,
        given,
        filter: None,
    })
}

/// The run itself, or its undo.
fn ask_of(alloc: Global, run: &ChainRun, undoing: bool) -> Result<RunAsk, NoMemory>
    requires { is_some (ask_in run.now undoing) ≡ true }
    ensures { IfOk result (λ ask. ask_in run.now undoing ≡ Some ask) }
{
    if !undoing {
        return ask_with(alloc, &run.job, &run.given);
    }
    match &run.undo {
        None => unreachable!(),
        Some(undo) => ask_with(alloc, &undo.job, &undo.given),
    }
}

/// What is asked for.
pub(crate) fn ask_at(alloc: Global, runs: &[ChainRun], next: ChainNext) -> Result<RunAsk, NoMemory>
    requires { is_some (ask_at runs.now next) ≡ true }
    ensures { IfOk result (λ ask. ask_at runs.now next ≡ Some ask) }
{
    match next {
        ChainNext::Ask { run, undoing } => ask_of(alloc, &runs[run as usize], undoing),
        ChainNext::Over { good: _ } => unreachable!(),
    }
}
