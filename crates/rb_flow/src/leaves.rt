ghost use Rattle.rb_flow.specs.Leaves.{IsLeaves, node_results};
ghost use Rattle.rb_marks.specs.Results.{of_ending};
ghost use Rattle.rb_marks.specs.Units.{outline};
ghost use Rattle.std.specs.Prelude.{◌≡◌, ◌+◌, ◌*◌, ◌<◌, [], length, set, IfOk};

use crate::results::of_ending;
use rb_causes::{Ending, NoMemory};
use rb_marks::{Leaf, Plan, StepResult};
use std::alloc::Global;

/// What has become of each leaf: for each node a row with a result for each slot.
#[derive(Drop)]
pub(crate) struct Leaves {
    pub slots: usize,
    pub results: Vec<StepResult>,
}

impl Leaves {
    /// That nothing has become of any.
    pub(crate) fn make(alloc: Global, plan: &Plan) -> Result<Leaves, NoMemory>
        ensures { IfOk result (λ leaves. IsLeaves (outline plan.now) [] leaves) }
    {
        let slots = plan.slots as usize;
        match plan.tiers.as_slice().len().checked_mul(slots) {
            Some(count) => {
                let results = Vec::from_elem(alloc, StepResult::Undone, count)?;
                Ok(Leaves { slots, results })
            }
            None => Err(NoMemory),
        }
    }

    /// The row of a node.
    pub(crate) fn row(&self, nodes: usize, node: u32) -> &[StepResult]
        requires size { length self.now.results.items ≡ nodes * self.now.slots }
        requires node { node < nodes }
        ensures { result.now ≡ node_results self.now.slots node self.now.results.items }
    {
        let start = node as usize * self.slots;
        &self.results.as_slice()[start..start + self.slots]
    }

    /// The leaf has ended so.
    pub(crate) fn settle(&mut self, nodes: usize, leaf: Leaf, ending: Ending)
        requires size { length self.old.results.items ≡ nodes * self.old.slots }
        requires node { leaf.node < nodes }
        requires slot { leaf.slot < self.old.slots }
        ensures slots { self.new.slots ≡ self.old.slots }
        ensures results { self.new.results.items
            ≡ set self.old.results.items (leaf.node * self.old.slots + leaf.slot)
            (of_ending ending) }
    {
        let place = leaf.node as usize * self.slots + leaf.slot as usize;
        self.results[place] = of_ending(ending);
    }
}
