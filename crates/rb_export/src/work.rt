//! How the steps of a job go, and on which nodes.
ghost use Rattle.rb_canon.specs.Views.{field_view};
ghost use Rattle.rb_export.specs.Jobs.{strategy_value, sequence_slots, rank_order_value, bound_slots, rank_slots, dispatch_slots, nodes_slots};
ghost use Rattle.rb_export.specs.Slots.{present};
ghost use Rattle.std.specs.Prelude.{◌≡◌, ◌++◌, ◌∷◌, [], codes, map, IfOk, OnOk};

use crate::fields::{
    push_false_unless, push_map_if_any, push_number_unless, push_text, push_text_if_any,
    push_true_if, push_value,
};
use crate::steps::step_values;
use rb_canon::{Field, list};
use rb_causes::NoMemory;
use rb_job::{Job, Strategy};
use std::alloc::Global;

fn push_strategy(alloc: Global, fields: &mut Vec<Field>, strategy: Strategy) -> Result<(), NoMemory>
    ensures { OnOk result (map field_view fields.new.items ≡ map field_view fields.old.items
        ++ present ((codes "strategy", strategy_value strategy) ∷ [])) }
{
    match strategy {
        Strategy::NodeFirst => Ok(()),
        Strategy::Sequential => push_text(alloc, fields, "strategy", "sequential"),
        Strategy::Parallel => push_text(alloc, fields, "strategy", "parallel"),
    }
}

/// How the steps of a job go, and the steps.
pub(crate) fn sequence_fields(alloc: Global, job: &Job) -> Result<Vec<Field>, NoMemory>
    ensures { IfOk result (λ fields. map field_view fields.items
        ≡ present (sequence_slots job.now)) }
{
    let mut fields = Vec::new(alloc);
    push_true_if(alloc, &mut fields, "keepgoing", job.keepgoing)?;
    push_strategy(alloc, &mut fields, job.strategy)?;
    let steps = step_values(alloc, job.steps.as_slice())?;
    push_value(alloc, &mut fields, "commands", list(steps))?;
    Ok(fields)
}

fn push_rank_order(alloc: Global, fields: &mut Vec<Field>, down: bool) -> Result<(), NoMemory>
    ensures { OnOk result (map field_view fields.new.items ≡ map field_view fields.old.items
        ++ present ((codes "rankOrder", rank_order_value down) ∷ [])) }
{
    if down {
        push_text(alloc, fields, "rankOrder", "descending")
    } else {
        Ok(())
    }
}

/// Adds how many nodes are in work at once, and which are left out.
fn push_bounds(alloc: Global, fields: &mut Vec<Field>, job: &Job) -> Result<(), NoMemory>
    ensures { OnOk result (map field_view fields.new.items ≡ map field_view fields.old.items
        ++ present (bound_slots job.now)) }
{
    push_number_unless(alloc, fields, 1, "threadcount", job.threads)?;
    push_true_if(alloc, fields, "keepgoing", job.keep_nodes)?;
    push_false_unless(alloc, fields, "excludePrecedence", job.exclude_first)
}

/// Adds how the nodes are ranked, and whether there may be none.
fn push_ranks(alloc: Global, fields: &mut Vec<Field>, job: &Job) -> Result<(), NoMemory>
    ensures { OnOk result (map field_view fields.new.items ≡ map field_view fields.old.items
        ++ present (rank_slots job.now)) }
{
    push_text_if_any(alloc, fields, "rankAttribute", &job.rank_by)?;
    push_rank_order(alloc, fields, job.rank_down)?;
    push_true_if(
        alloc,
        fields,
        "successOnEmptyNodeFilter",
        job.success_on_empty,
    )
}

fn dispatch_fields(alloc: Global, job: &Job) -> Result<Vec<Field>, NoMemory>
    ensures { IfOk result (λ fields. map field_view fields.items
        ≡ present (dispatch_slots job.now)) }
{
    let mut fields = Vec::new(alloc);
    push_bounds(alloc, &mut fields, job)?;
    push_ranks(alloc, &mut fields, job)?;
    Ok(fields)
}

/// On which nodes a job runs, and how they are gone through.
pub(crate) fn nodes_fields(alloc: Global, job: &Job) -> Result<Vec<Field>, NoMemory>
    ensures { IfOk result (λ fields. map field_view fields.items ≡ present (nodes_slots job.now)) }
{
    let mut fields = Vec::new(alloc);
    push_text(alloc, &mut fields, "filter", job.filter.text())?;
    let dispatch = dispatch_fields(alloc, job)?;
    push_map_if_any(alloc, &mut fields, "dispatch", dispatch)?;
    Ok(fields)
}
