ghost use Rattle.rb_flow.specs.Leaves.{result_in};
ghost use Rattle.rb_marks.specs.Results.{of_ending, by_handler, handled, handler_result, act_result, steps_result, step_result};
ghost use Rattle.rb_marks.specs.Units.{is_settled, is_slot, act_holds, steps_hold};
ghost use Rattle.rb_marks.specs.First.{waits_for, next_in_act, next_in_steps};
ghost use Rattle.rb_marks.specs.View.{branches_of, act_tree, step_tree};
ghost use Rattle.std.specs.Prelude.{◌≡◌, ◌||◌, false, map};

use rb_causes::Ending;
use rb_marks::{Act, Step, StepResult};

pub(crate) fn of_ending(ending: Ending) -> StepResult
    ensures { result ≡ of_ending ending }
{
    match ending {
        Ending::Code(code) => {
            if code == 0 {
                StepResult::Good
            } else {
                StepResult::Bad
            }
        }
        Ending::NotStarted => StepResult::Bad,
    }
}

pub(crate) fn is_settled(outcome: StepResult) -> bool
    ensures { result ≡ is_settled outcome }
{
    match outcome {
        StepResult::Undone => false,
        StepResult::Good => true,
        StepResult::Bad => true,
    }
}

/// What a row says of a slot; Undone behind its end.
fn slot_result(row: &[StepResult], slot: u32) -> StepResult
    ensures { result ≡ result_in row.now slot }
{
    match row.get(slot as usize) {
        Some(end) => *end,
        None => StepResult::Undone,
    }
}

fn by_handler(handler: StepResult, flag: bool) -> StepResult
    ensures { result ≡ by_handler handler flag }
{
    match handler {
        StepResult::Undone => StepResult::Undone,
        StepResult::Good => {
            if flag {
                StepResult::Good
            } else {
                StepResult::Bad
            }
        }
        StepResult::Bad => StepResult::Bad,
    }
}

fn handled(act: StepResult, handler: Option<StepResult>, flag: bool) -> StepResult
    ensures { result ≡ handled act handler flag }
{
    match act {
        StepResult::Undone => StepResult::Undone,
        StepResult::Good => StepResult::Good,
        StepResult::Bad => match handler {
            None => StepResult::Bad,
            Some(end) => by_handler(end, flag),
        },
    }
}

fn handler_result(row: &[StepResult], handler: Option<u32>) -> Option<StepResult>
    ensures { result ≡ handler_result (result_in row.now) handler }
{
    match handler {
        None => None,
        Some(slot) => Some(slot_result(row, slot)),
    }
}

#[cycle(result)]
fn act_result(row: &[StepResult], act: &Act) -> StepResult
    ensures { result ≡ act_result (result_in row.now) (act_tree act.now) }
{
    match act {
        Act::Slot(slot) => slot_result(row, *slot),
        Act::Sub(seq) => steps_result(row, seq.keepgoing, false, seq.steps.as_slice()),
    }
}

/// What has become of a step of a sequence that goes on after a failure or not.
#[cycle(result)]
pub(crate) fn step_result(row: &[StepResult], keepgoing: bool, step: &Step) -> StepResult
    ensures { result ≡ step_result (result_in row.now) keepgoing
        (step_tree step.now).0 (step_tree step.now).1 (step_tree step.now).2 }
{
    let act = act_result(row, &step.act);
    let handler = handler_result(row, step.handler);
    handled(act, handler, keepgoing || step.keep_on_success)
}

/// What has become of a sequence of these steps on a node, where a step before was bad or not.
#[cycle(result)]
pub(crate) fn steps_result(
    row: &[StepResult],
    keepgoing: bool,
    was_bad: bool,
    steps: &[Step],
) -> StepResult
    ensures { result ≡ steps_result (result_in row.now) keepgoing was_bad
        (branches_of (map step_tree steps.now)) }
{
    let mut bad = was_bad;
    for step in steps {
        match step_result(row, keepgoing, step) {
            StepResult::Undone => return StepResult::Undone,
            StepResult::Good => {}
            StepResult::Bad => {
                if !keepgoing {
                    return StepResult::Bad;
                }
                bad = true;
            }
        }
    }
    if bad {
        StepResult::Bad
    } else {
        StepResult::Good
    }
}

/// The slot that an act waits for.
#[cycle(next)]
fn next_in_act(row: &[StepResult], act: &Act) -> Option<u32>
    ensures { result ≡ next_in_act (result_in row.now) (act_tree act.now) }
{
    match act {
        Act::Slot(slot) => Some(*slot),
        Act::Sub(seq) => next_in_steps(row, seq.keepgoing, seq.steps.as_slice()),
    }
}

#[cycle(next)]
fn next_in_step(row: &[StepResult], step: &Step) -> Option<u32>
    ensures { result ≡ waits_for
        (act_result (result_in row.now) (step_tree step.now).0)
        (next_in_act (result_in row.now) (step_tree step.now).0) (step_tree step.now).1 }
{
    match act_result(row, &step.act) {
        StepResult::Undone => next_in_act(row, &step.act),
        StepResult::Good => None,
        StepResult::Bad => step.handler,
    }
}

/// The first slot that a sequence of these steps waits for.
#[cycle(next)]
pub(crate) fn next_in_steps(row: &[StepResult], keepgoing: bool, steps: &[Step]) -> Option<u32>
    ensures { result ≡ next_in_steps (result_in row.now) keepgoing
        (branches_of (map step_tree steps.now)) }
{
    for step in steps {
        match step_result(row, keepgoing, step) {
            StepResult::Undone => return next_in_step(row, step),
            StepResult::Good => {}
            StepResult::Bad => {
                if !keepgoing {
                    return None;
                }
            }
        }
    }
    None
}

fn is_slot(handler: Option<u32>, slot: u32) -> bool
    ensures { result ≡ is_slot handler slot }
{
    match handler {
        None => false,
        Some(other) => other == slot,
    }
}

#[cycle(holding)]
fn act_holds(act: &Act, slot: u32) -> bool
    ensures { result ≡ act_holds (act_tree act.now) slot }
{
    match act {
        Act::Slot(other) => *other == slot,
        Act::Sub(seq) => steps_hold(seq.steps.as_slice(), slot),
    }
}

/// Whether the slot is that of a step's act, in it, or its handler's.
#[cycle(holding)]
pub(crate) fn step_holds(step: &Step, slot: u32) -> bool
    ensures { result ≡ (act_holds (step_tree step.now).0 slot
        || is_slot (step_tree step.now).1 slot) }
{
    act_holds(&step.act, slot) || is_slot(step.handler, slot)
}

/// Whether the slot is one of these steps.
#[cycle(holding)]
pub(crate) fn steps_hold(steps: &[Step], slot: u32) -> bool
    ensures { result ≡ steps_hold (branches_of (map step_tree steps.now)) slot }
{
    for step in steps {
        if step_holds(step, slot) {
            return true;
        }
    }
    false
}
