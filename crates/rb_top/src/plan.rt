ghost use Rattle.rb_marks.specs.Units.{outline};
ghost use Rattle.rb_marks.specs.View.{step_tree};
ghost use Rattle.rb_top.specs.Drill.{drill_plan, zeros, branches_from};
ghost use Rattle.std.specs.Prelude.{◌≡◌, ◌<◌, ◌^◌, length, map, IfOk};

use crate::script::DrillJob;
use rb_causes::{Items, NoMemory, Text};
use rb_flow::{Act, Plan, Seq, Step, Strategy};
use std::alloc::Global;

/// The plan of a run of the job on these nodes: one node at a time, and nothing goes on after a
/// failure.
pub(crate) fn drill_plan(alloc: Global, nodes: &[Text], job: &DrillJob) -> Result<Plan, NoMemory>
    requires { (length nodes.now < 2 ^ 32) × (length job.now.steps < 2 ^ 32) }
    ensures { IfOk result (λ plan. outline plan ≡ drill_plan nodes.now job.now) }
{
    let slots = job.steps.len() as u32;
    let seq = Seq {
        keepgoing: false,
        steps: steps_of(alloc, job.steps.as_slice())?,
    };
    Ok(Plan {
        strategy: Strategy::NodeFirst,
        tiers: zeros(alloc, nodes)?,
        seq,
        slots,
        keep_nodes: false,
        bound: 1,
    })
}

// A command without a handler for each step.
fn steps_of(alloc: Global, steps: &[Items<Text>]) -> Result<Vec<Step>, NoMemory>
    requires { length steps.now < 2 ^ 32 }
    ensures { IfOk result (λ made. map step_tree made.items ≡ branches_from 0 steps.now) }
{
    let mut made = Vec::new(alloc);
    for (slot, _) in steps.iter().enumerate() {
        made.push(Step {
            act: Act::Slot(slot as u32),
            handler: None,
            keep_on_success: false,
        })?;
    }
    Ok(made)
}

// The tier of each node.
fn zeros(alloc: Global, nodes: &[Text]) -> Result<Items<u32>, NoMemory>
    ensures { IfOk result (λ tiers. tiers ≡ zeros nodes.now) }
{
    let mut tiers = Items::new(alloc);
    for _node in nodes {
        tiers.push(0)?;
    }
    Ok(tiers)
}
