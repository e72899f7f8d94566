ghost use Rattle.rb_flow.specs.Cursors.{first_cursor, goes_on, passed};
ghost use Rattle.rb_flow.specs.Leaves.{result_in};
ghost use Rattle.rb_marks.specs.View.{step_tree};
ghost use Rattle.std.specs.Prelude.{◌≡◌, ◌≤◌, false, map, drop, length, replicate, Some, IfOk};

use crate::results::step_result;
use rb_causes::NoMemory;
use rb_marks::{Step, StepResult};
use std::alloc::Global;

/// How far the sequence of a unit has come.
#[derive(Clone, Copy)]
pub(crate) struct Cursor {
    /// How many of its first steps are settled and let it go on.
    pub at: usize,
    /// Whether one of them is bad.
    pub bad: bool,
}

/// So many cursors that stand before the first step.
pub(crate) fn first_cursors(alloc: Global, count: usize) -> Result<Vec<Cursor>, NoMemory>
    ensures { IfOk result (λ cursors. cursors.items ≡ replicate count first_cursor) }
{
    let first = Cursor { at: 0, bad: false };
    let cursors = vec![in alloc; first; count]?;
    Ok(cursors)
}

/// Whether a step was bad, behind one that lets its sequence go on; None where it does not.
fn goes_on(outcome: StepResult, keepgoing: bool, bad: bool) -> Option<bool>
    ensures { result ≡ goes_on outcome keepgoing bad }
{
    match outcome {
        StepResult::Undone => None,
        StepResult::Good => Some(bad),
        StepResult::Bad => { if keepgoing { Some(true) } else { None } }
    }
}

/// The steps from this one on.
pub(crate) fn steps_from(steps: &[Step], at: usize) -> &[Step]
    requires { at ≤ length steps.now }
    ensures { result.now ≡ drop at steps.now }
{
    &steps[at..]
}

/// The cursor moved behind further steps that are settled and let the sequence go on. Promised is
/// that all before it are such steps, not that it is moved as far as can be.
pub(crate) fn advance(row: &[StepResult], keepgoing: bool, steps: &[Step], cursor: Cursor) -> Cursor
    requires { passed (result_in row.now) keepgoing false (map step_tree steps.now) cursor.at
        ≡ Some cursor.bad }
    ensures { passed (result_in row.now) keepgoing false (map step_tree steps.now) result.at
        ≡ Some result.bad }
{
    let mut now = cursor;
    for step in steps_from(steps, cursor.at) {
        match goes_on(step_result(row, keepgoing, step), keepgoing, now.bad) {
            None => return now,
            Some(bad) => {
                now = Cursor {
                    at: now.at + 1,
                    bad,
                };
            }
        }
    }
    now
}
