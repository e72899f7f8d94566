//! Marks of many things, one for each in their order.
ghost use Rattle.rb_text.specs.Truths.{both_true, one_true, first_true_alone};
ghost use Rattle.std.specs.Prelude.{◌≡◌, IfOk};

use rb_causes::NoMemory;
use std::alloc::Global;

/// For each place whether both are marked.
pub fn both_true(alloc: Global, first: &[bool], second: &[bool]) -> Result<Vec<bool>, NoMemory>
    ensures { IfOk result (λ marks. marks.items ≡ both_true first.now second.now) }
{
    Ok(
        first
            .iter()
            .zip(second.iter())
            .map(|(a, b)| *a && *b)
            .collect(alloc)?,
    )
}

/// For each place whether one of them is marked.
pub fn one_true(alloc: Global, first: &[bool], second: &[bool]) -> Result<Vec<bool>, NoMemory>
    ensures { IfOk result (λ marks. marks.items ≡ one_true first.now second.now) }
{
    Ok(
        first
            .iter()
            .zip(second.iter())
            .map(|(a, b)| *a || *b)
            .collect(alloc)?,
    )
}

/// For each place whether the first is marked alone.
pub fn first_true_alone(
    alloc: Global,
    first: &[bool],
    second: &[bool],
) -> Result<Vec<bool>, NoMemory>
    ensures { IfOk result (λ marks. marks.items ≡ first_true_alone first.now second.now) }
{
    Ok(
        first
            .iter()
            .zip(second.iter())
            .map(|(a, b)| *a && !*b)
            .collect(alloc)?,
    )
}
