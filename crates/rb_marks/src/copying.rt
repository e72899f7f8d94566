ghost use Rattle.rb_marks.specs.Units.{outline};
ghost use Rattle.rb_marks.specs.View.{act_tree, step_tree};
ghost use Rattle.std.specs.Prelude.{◌≡◌, map, IfOk};

use crate::plan::{Act, Plan, Seq, Step};
use rb_causes::{Items, NoMemory};
use std::alloc::Global;

#[cycle(copying)]
fn copy_act(alloc: Global, act: &Act) -> Result<Act, NoMemory>
    ensures { IfOk result (λ copy. act_tree copy ≡ act_tree act.now) }
{
    match act {
        Act::Slot(slot) => Ok(Act::Slot(*slot)),
        Act::Sub(seq) => {
            let steps = copy_steps(alloc, seq.steps.as_slice())?;
            Ok(Act::Sub(Seq {
                keepgoing: seq.keepgoing,
                steps,
            }))
        }
    }
}

#[cycle(copying)]
fn copy_step(alloc: Global, step: &Step) -> Result<Step, NoMemory>
    ensures { IfOk result (λ copy. step_tree copy ≡ step_tree step.now) }
{
    let act = copy_act(alloc, &step.act)?;
    Ok(Step {
        act,
        handler: step.handler,
        keep_on_success: step.keep_on_success,
    })
}

#[cycle(copying)]
fn copy_steps(alloc: Global, steps: &[Step]) -> Result<Vec<Step>, NoMemory>
    ensures { IfOk result (λ copy. map step_tree copy.items ≡ map step_tree steps.now) }
{
    let mut copy = Vec::with_capacity(alloc, steps.len())?;
    for step in steps {
        copy.push(copy_step(alloc, step)?)?;
    }
    Ok(copy)
}

fn copy_tiers(alloc: Global, tiers: &[u32]) -> Result<Items<u32>, NoMemory>
    ensures { IfOk result (λ copy. copy ≡ tiers.now) }
{
    let copy = Vec::from_slice(alloc, tiers)?;
    Ok(Items::of(copy))
}

impl Plan {
    /// An equal plan.
    pub fn copy(&self, alloc: Global) -> Result<Plan, NoMemory>
        ensures { IfOk result (λ copy. outline copy ≡ outline self.now) }
    {
        let tiers = copy_tiers(alloc, self.tiers.as_slice())?;
        let steps = copy_steps(alloc, self.seq.steps.as_slice())?;
        Ok(Plan {
            strategy: self.strategy,
            tiers,
            seq: Seq {
                keepgoing: self.seq.keepgoing,
                steps,
            },
            slots: self.slots,
            keep_nodes: self.keep_nodes,
            bound: self.bound,
        })
    }
}
