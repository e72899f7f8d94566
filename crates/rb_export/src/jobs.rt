//! The documents of jobs.
ghost use Rattle.rb_canon.specs.Views.{canon_tree, field_view};
ghost use Rattle.rb_export.specs.Jobs.{naming_slots, work_slots, rest_slots, leave_slots, job_slots, job_value, thousands, jobs_value, jobs_values};
ghost use Rattle.rb_export.specs.Slots.{present};
ghost use Rattle.std.specs.Prelude.{◌≡◌, ◌<◌, ◌++◌, ◌∷◌, [], length, map, IfOk, OnOk, IfSome, MatchOption};

use crate::fields::{
    push_false_unless, push_list_if_any, push_text, push_text_if_any, push_text_unless,
    push_true_if, push_value,
};
use crate::options::option_values;
use crate::timing::{push_orchestrator, push_schedule};
use crate::work::{nodes_fields, sequence_fields};
use rb_canon::{Canon, Field, list, map};
use rb_causes::NoMemory;
use rb_job::Job;
use std::alloc::Global;

/// How many jobs a document has at most.
const MOST_JOBS: usize = 1_000;

/// Adds what a job is called.
fn push_naming(alloc: Global, fields: &mut Vec<Field>, job: &Job) -> Result<(), NoMemory>
    ensures { OnOk result (map field_view fields.new.items ≡ map field_view fields.old.items
        ++ present (naming_slots job.now)) }
{
    push_text_if_any(alloc, fields, "id", &job.id)?;
    push_text(alloc, fields, "name", job.name.as_str())?;
    push_text_unless(alloc, fields, "", "group", job.group.as_str())
}

/// Adds what it does, and on which nodes.
fn push_work(alloc: Global, fields: &mut Vec<Field>, job: &Job) -> Result<(), NoMemory>
    ensures { OnOk result (map field_view fields.new.items ≡ map field_view fields.old.items
        ++ present (work_slots job.now)) }
{
    let sequence = sequence_fields(alloc, job)?;
    push_value(alloc, fields, "sequence", map(sequence))?;
    let nodes = nodes_fields(alloc, job)?;
    push_value(alloc, fields, "nodefilters", map(nodes))
}

/// Adds its options, how its nodes are drawn, and when it is due.
fn push_rest(alloc: Global, fields: &mut Vec<Field>, job: &Job) -> Result<(), NoMemory>
    ensures { OnOk result (map field_view fields.new.items ≡ map field_view fields.old.items
        ++ present (rest_slots job.now)) }
{
    let options = option_values(alloc, job.options.as_slice())?;
    push_list_if_any(alloc, fields, "options", options)?;
    push_orchestrator(alloc, fields, job.orchestrator)?;
    push_schedule(alloc, fields, &job.schedule)
}

/// Adds whether it may run.
fn push_leave(alloc: Global, fields: &mut Vec<Field>, job: &Job) -> Result<(), NoMemory>
    ensures { OnOk result (map field_view fields.new.items ≡ map field_view fields.old.items
        ++ present (leave_slots job.now)) }
{
    push_true_if(alloc, fields, "multipleExecutions", job.multiple)?;
    push_false_unless(alloc, fields, "executionEnabled", job.enabled)?;
    push_false_unless(alloc, fields, "scheduleEnabled", job.schedule_enabled)
}

fn job_fields(alloc: Global, job: &Job) -> Result<Vec<Field>, NoMemory>
    ensures { IfOk result (λ fields. map field_view fields.items ≡ present (job_slots job.now)) }
{
    let mut fields = Vec::new(alloc);
    push_naming(alloc, &mut fields, job)?;
    push_work(alloc, &mut fields, job)?;
    push_rest(alloc, &mut fields, job)?;
    push_leave(alloc, &mut fields, job)?;
    Ok(fields)
}

fn job_value(alloc: Global, job: &Job) -> Result<Canon, NoMemory>
    ensures { IfOk result (λ value. canon_tree value ≡ job_value job.now) }
{
    Ok(map(job_fields(alloc, job)?))
}

/// One document of these jobs.
fn jobs_value(alloc: Global, jobs: &[Job]) -> Result<Canon, NoMemory>
    ensures { IfOk result (λ value. canon_tree value ≡ jobs_value jobs.now) }
{
    let mut items = Vec::new(alloc);
    for job in jobs {
        items.push(job_value(alloc, job)?)?;
    }
    Ok(list(items))
}

/// The next 1,000 jobs, and those behind them.
fn next_document(jobs: &[Job]) -> Option<(&[Job], &[Job])>
    ensures parts { MatchOption result (jobs.now ≡ []) (λ parts.
        thousands 999 jobs.now ≡ parts.0.now ∷ thousands 999 parts.1.now) }
    ensures shorter { IfSome result (λ parts. length parts.1.now < length jobs.now) }
{
    if jobs.is_empty() {
        return None;
    }
    Some(jobs.split_at(jobs.len().min(MOST_JOBS)))
}

/// The documents of jobs, 1,000 to each.
pub(crate) fn jobs_values(alloc: Global, jobs: &[Job]) -> Result<Vec<Canon>, NoMemory>
    ensures { IfOk result (λ values. map canon_tree values.items ≡ jobs_values jobs.now) }
{
    let mut values = Vec::new(alloc);
    let mut rest = jobs;
    while let Some((document, behind)) = next_document(rest) {
        values.push(jobs_value(alloc, document)?)?;
        rest = behind;
    }
    Ok(values)
}
