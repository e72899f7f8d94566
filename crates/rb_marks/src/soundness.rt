ghost use Rattle.rb_marks.specs.Sound.{IsSound, never_fall, has_branch, act_filled, all_filled, number_handler, number_act, then_number, numbered};
ghost use Rattle.rb_marks.specs.Units.{outline};
ghost use Rattle.rb_marks.specs.View.{branches_of, act_tree, step_tree};
ghost use Rattle.std.specs.Prelude.{◌≡◌, ◌↔◌, map, IsTrue};

use crate::plan::{Act, Plan, Step};

fn never_fall(tiers: &[u32]) -> bool
    ensures { result ≡ never_fall tiers.now }
{
    let mut before = 0;
    for tier in tiers {
        if *tier < before {
            return false;
        }
        before = *tier;
    }
    true
}

fn has_step(steps: &[Step]) -> bool
    ensures { result ≡ has_branch (branches_of (map step_tree steps.now)) }
{
    match steps {
        [] => false,
        [_, ..] => true,
    }
}

#[cycle(filling)]
fn act_filled(act: &Act) -> bool
    ensures { result ≡ act_filled (act_tree act.now) }
{
    match act {
        Act::Slot(_) => true,
        Act::Sub(seq) => {
            let steps = seq.steps.as_slice();
            has_step(steps) && all_filled(steps)
        }
    }
}

/// Whether each sequence below these steps has a step.
#[cycle(filling)]
fn all_filled(steps: &[Step]) -> bool
    ensures { result ≡ all_filled (branches_of (map step_tree steps.now)) }
{
    for step in steps {
        if !act_filled(&step.act) {
            return false;
        }
    }
    true
}

fn number_handler(handler: Option<u32>, next: u64) -> Option<u64>
    ensures { result ≡ number_handler handler next }
{
    match handler {
        None => Some(next),
        Some(slot) => {
            if u64::from(slot) == next {
                Some(u64::from(slot) + 1)
            } else {
                None
            }
        }
    }
}

#[cycle(numbering)]
fn number_act(act: &Act, next: u64) -> Option<u64>
    ensures { result ≡ number_act (act_tree act.now) next }
{
    match act {
        Act::Slot(slot) => number_handler(Some(*slot), next),
        Act::Sub(seq) => number_steps(seq.steps.as_slice(), next),
    }
}

#[cycle(numbering)]
fn number_step(step: &Step, next: u64) -> Option<u64>
    ensures { result ≡ then_number
        (number_act (step_tree step.now).0 next) (number_handler (step_tree step.now).1) }
{
    let next = number_act(&step.act, next)?;
    number_handler(step.handler, next)
}

/// The number after the slots of these steps, where they are numbered from `next` on.
#[cycle(numbering)]
fn number_steps(steps: &[Step], next: u64) -> Option<u64>
    ensures { result ≡ numbered (branches_of (map step_tree steps.now)) next }
{
    let mut number = next;
    for step in steps {
        number = number_step(step, number)?;
    }
    Some(number)
}

fn is_numbered(plan: &Plan) -> bool
    ensures { IsTrue result
        ↔ (numbered (branches_of (outline plan.now).steps) 0 ≡ Some (outline plan.now).slots) }
{
    match number_steps(plan.seq.steps.as_slice(), 0) {
        None => false,
        Some(number) => number == u64::from(plan.slots),
    }
}

impl Plan {
    /// Whether the plan is one that can be run: its tiers never fall, each sequence has a step, its
    /// slots are numbered in depth-first order, at least one node may be in work, and nodes and
    /// steps can be counted in 32 bits.
    pub fn is_sound(&self) -> bool
        ensures { IsTrue result ↔ IsSound (outline self.now) }
    {
        let tiers = self.tiers.as_slice();
        let steps = self.seq.steps.as_slice();
        u32::try_from(tiers.len()).is_ok()
            && u32::try_from(steps.len()).is_ok()
            && self.bound > 0
            && never_fall(tiers)
            && !steps.is_empty()
            && all_filled(steps)
            && is_numbered(self)
    }
}
