//! The steps of a job.
ghost use Rattle.rb_canon.specs.Views.{canon_tree, field_view};
ghost use Rattle.rb_export.specs.Jobs.{args_value, pairs_value, reference_slots, act_slots, handler_slots, handler_value, step_slots, step_value};
ghost use Rattle.rb_export.specs.Slots.{present, text};
ghost use Rattle.rb_export.specs.Words.{words_text};
ghost use Rattle.std.specs.Prelude.{◌≡◌, ◌++◌, ◌∷◌, [], codes, map, IfOk, OnOk};

use crate::fields::{push_text, push_text_unless, push_true_if, push_value};
use crate::words::{pairs_text, words_text};
use rb_canon::{Canon, Field, map};
use rb_causes::{NoMemory, Prop, Text};
use rb_job::{JobAct, JobStep};
use std::alloc::Global;

/// Adds words under a key.
fn push_words(
    alloc: Global,
    fields: &mut Vec<Field>,
    key: &str,
    words: &[Text],
) -> Result<(), NoMemory>
    ensures { OnOk result (map field_view fields.new.items ≡ map field_view fields.old.items
        ++ present ((key.now, text (words_text words.now)) ∷ [])) }
{
    let s = words_text(alloc, words)?;
    push_text(alloc, fields, key, s.as_str())
}

fn push_args(alloc: Global, fields: &mut Vec<Field>, args: &[Text]) -> Result<(), NoMemory>
    ensures { OnOk result (map field_view fields.new.items ≡ map field_view fields.old.items
        ++ present ((codes "args", args_value args.now) ∷ [])) }
{
    if args.is_empty() {
        return Ok(());
    }
    push_words(alloc, fields, "args", args)
}

fn push_pairs(alloc: Global, fields: &mut Vec<Field>, pairs: &[Prop]) -> Result<(), NoMemory>
    ensures { OnOk result (map field_view fields.new.items ≡ map field_view fields.old.items
        ++ present ((codes "args", pairs_value pairs.now) ∷ [])) }
{
    if pairs.is_empty() {
        return Ok(());
    }
    let s = pairs_text(alloc, pairs)?;
    push_text(alloc, fields, "args", s.as_str())
}

fn reference_fields(
    alloc: Global,
    group: &Text,
    name: &Text,
    pairs: &[Prop],
) -> Result<Vec<Field>, NoMemory>
    ensures { IfOk result (λ fields. map field_view fields.items
        ≡ present (reference_slots group.now name.now pairs.now)) }
{
    let mut fields = Vec::new(alloc);
    push_text(alloc, &mut fields, "name", name.as_str())?;
    push_text_unless(alloc, &mut fields, "", "group", group.as_str())?;
    push_pairs(alloc, &mut fields, pairs)?;
    push_text(alloc, &mut fields, "nodeStep", "true")?;
    Ok(fields)
}

/// Adds what a step does.
fn push_act(alloc: Global, fields: &mut Vec<Field>, act: &JobAct) -> Result<(), NoMemory>
    ensures { OnOk result (map field_view fields.new.items ≡ map field_view fields.old.items
        ++ present (act_slots act.now)) }
{
    match act {
        JobAct::Exec(words) => push_words(alloc, fields, "exec", words.as_slice()),
        JobAct::Script { text, args } => {
            push_text(alloc, fields, "script", text.as_str())?;
            push_args(alloc, fields, args.as_slice())
        }
        JobAct::Refer { group, name, args } => {
            let inner = reference_fields(alloc, group, name, args.as_slice())?;
            push_value(alloc, fields, "jobref", map(inner))
        }
    }
}

fn handler_fields(alloc: Global, act: &JobAct, keep: bool) -> Result<Vec<Field>, NoMemory>
    ensures { IfOk result (λ fields. map field_view fields.items
        ≡ present (handler_slots act.now keep)) }
{
    let mut fields = Vec::new(alloc);
    push_act(alloc, &mut fields, act)?;
    push_true_if(alloc, &mut fields, "keepgoingOnSuccess", keep)?;
    Ok(fields)
}

/// Adds what is done where a step fails.
fn push_handler(
    alloc: Global,
    fields: &mut Vec<Field>,
    handler: &Option<JobAct>,
    keep: bool,
) -> Result<(), NoMemory>
    ensures { OnOk result (map field_view fields.new.items ≡ map field_view fields.old.items
        ++ present ((codes "errorhandler", handler_value handler.now keep) ∷ [])) }
{
    match handler {
        None => Ok(()),
        Some(act) => {
            let inner = handler_fields(alloc, act, keep)?;
            push_value(alloc, fields, "errorhandler", map(inner))
        }
    }
}

fn step_fields(alloc: Global, step: &JobStep) -> Result<Vec<Field>, NoMemory>
    ensures { IfOk result (λ fields. map field_view fields.items ≡ present (step_slots step.now)) }
{
    let mut fields = Vec::new(alloc);
    push_act(alloc, &mut fields, &step.act)?;
    push_handler(alloc, &mut fields, &step.handler, step.keep_on_success)?;
    Ok(fields)
}

fn step_value(alloc: Global, step: &JobStep) -> Result<Canon, NoMemory>
    ensures { IfOk result (λ value. canon_tree value ≡ step_value step.now) }
{
    Ok(map(step_fields(alloc, step)?))
}

/// The steps of a job.
pub(crate) fn step_values(alloc: Global, steps: &[JobStep]) -> Result<Vec<Canon>, NoMemory>
    ensures { IfOk result (λ values. map canon_tree values.items ≡ map step_value steps.now) }
{
    let mut values = Vec::new(alloc);
    for step in steps {
        values.push(step_value(alloc, step)?)?;
    }
    Ok(values)
}
