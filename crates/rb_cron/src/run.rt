ghost use Rattle.rb_cron.specs.Fields.{range_of, distance, run_meets, runs_meet, size, every, whole, run_from, run_between, field_run, stepped_run, field_item, items_of, runs_of};
ghost use Rattle.rb_cron.specs.Values.{IsLeastMet, NoneMetFrom};
ghost use Rattle.std.specs.List.{list_any};
ghost use Rattle.std.specs.Prelude.{◌≡◌, ◌<◌, ◌≤◌, Some, IfOk, IfSome, IfNone, option_map, map};

use crate::field::Field;
use crate::parting::parts;
use rb_causes::{Items, NoMemory, decimal};
use std::alloc::Global;

/// Every `step`-th value of a field from `first` on to `last`. Where `last` is below `first`, the
/// run goes on from the greatest value to the least.
#[derive(Clone, Copy, Drop)]
pub(crate) struct Run {
    pub(crate) first: u32,
    pub(crate) last: u32,
    pub(crate) step: u64,
}

impl Run {
    fn meets(self, field: Field, value: u32) -> bool
        ensures { result ≡ run_meets (range_of field) value self }
    {
        let gone = distance(field, self.first, value);
        gone <= distance(field, self.first, self.last) && gone.is_multiple_of(self.step)
    }
}

/// How far a value lies behind another, going on from the greatest to the least.
fn distance(field: Field, from: u32, to: u32) -> u64
    ensures { result ≡ distance (range_of field) from to }
{
    let (from, to) = (from as u64, to as u64);
    if from <= to {
        to - from
    } else {
        (to + size(field)).saturating_sub(from)
    }
}

/// How many values a field has.
fn size(field: Field) -> u64
    ensures value { result ≡ size (range_of field) }
    ensures bound { result ≤ 60_000 }
{
    (field.greatest() + 1 - field.least()) as u64
}

/// Whether the field has the value by one of these runs.
pub(crate) fn meets(field: Field, runs: &[Run], value: u32) -> bool
    ensures { result ≡ runs_meet (range_of field) (Some runs.now) value }
{
    field.holds(value as u64) && is_met(field, runs, value)
}

fn is_met(field: Field, runs: &[Run], value: u32) -> bool
    ensures { result ≡ list_any (run_meets (range_of field) value) runs.now }
{
    runs.iter().any(|run| run.meets(field, value))
}

/// The least value of the field from one on.
pub(crate) fn least_from(field: Field, runs: &[Run], from: u32) -> Option<u32>
    ensures found { IfSome result (IsLeastMet (range_of field) (Some runs.now) from) }
    ensures none { IfNone result (NoneMetFrom (range_of field) (Some runs.now) from) }
{
    for value in from..field.greatest() + 1 {
        if meets(field, runs, value) {
            return Some(value);
        }
    }
    None
}

/// The runs of a field's text, or None where it is no field.
pub(crate) fn runs_of(
    alloc: Global,
    field: Field,
    text: &str,
) -> Result<Option<Items<Run>>, NoMemory>
    ensures { IfOk result (λ runs. runs ≡ runs_of (range_of field) text.now) }
{
    if field.is_any(text) {
        let mut runs = Items::new(alloc);
        runs.push(whole(field))?;
        return Ok(Some(runs));
    }
    items_of(alloc, field, parts(alloc, ',', text)?.as_slice())
}

/// The runs of items, if all are read.
fn items_of(alloc: Global, field: Field, items: &[&str]) -> Result<Option<Items<Run>>, NoMemory>
    ensures { IfOk result (λ runs.
        runs ≡ items_of (range_of field) (map (λ i. i.now) items.now)) }
{
    let mut runs = Items::new(alloc);
    for item in items {
        let Some(run) = field_item(alloc, field, item)? else {
            return Ok(None);
        };
        runs.push(run)?;
    }
    Ok(Some(runs))
}

/// An item of a field: a run, perhaps with its step.
fn field_item(alloc: Global, field: Field, text: &str) -> Result<Option<Run>, NoMemory>
    ensures { IfOk result (λ run. run ≡ field_item (range_of field) text.now) }
{
    match parts(alloc, '/', text)?.as_slice() {
        [run] => field_run(alloc, field, false, run),
        [run, step] => {
            let run = field_run(alloc, field, true, run)?;
            Ok(stepped_run(decimal(step), run))
        }
        _ => Ok(None),
    }
}

/// A run by its step.
fn stepped_run(step: Option<u64>, run: Option<Run>) -> Option<Run>
    ensures { result ≡ stepped_run step run }
{
    let run = run?;
    let step = step?;
    if step == 0 {
        return None;
    }
    Some(Run { step, ..run })
}

/// `*`, `a` or `a-b`. A value with a step runs to the greatest value.
fn field_run(
    alloc: Global,
    field: Field,
    is_stepped: bool,
    text: &str,
) -> Result<Option<Run>, NoMemory>
    ensures { IfOk result (λ run. run ≡ field_run (range_of field) is_stepped text.now) }
{
    if text == "*" {
        return Ok(Some(whole(field)));
    }
    match parts(alloc, '-', text)?.as_slice() {
        [value] => Ok(run_from(field, is_stepped, field.value(value))),
        [first, last] => Ok(run_between(field, field.value(first), field.value(last))),
        _ => Ok(None),
    }
}

/// All values of a field.
fn whole(field: Field) -> Run
    ensures { result ≡ whole (range_of field) }
{
    every(field.least(), field.greatest())
}

fn every(first: u32, last: u32) -> Run
    ensures { result ≡ every first last }
{
    Run {
        first,
        last,
        step: 1,
    }
}

fn run_from(field: Field, is_stepped: bool, value: Option<u32>) -> Option<Run>
    ensures { result ≡ option_map (run_from (range_of field) is_stepped) value }
{
    let first = value?;
    if is_stepped {
        return Some(every(first, field.greatest()));
    }
    Some(every(first, first))
}

fn run_between(field: Field, first: Option<u32>, last: Option<u32>) -> Option<Run>
    ensures { result ≡ run_between (range_of field) first last }
{
    let first = first?;
    let last = last?;
    if field.goes_round() || first <= last {
        return Some(every(first, last));
    }
    None
}
