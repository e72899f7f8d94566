//! The options of a job.
ghost use Rattle.rb_canon.specs.Values.{one_text};
ghost use Rattle.rb_canon.specs.Views.{canon_tree, field_view};
ghost use Rattle.rb_export.specs.Jobs.{what_slots, check_slots, option_slots, option_value};
ghost use Rattle.rb_export.specs.Slots.{present};
ghost use Rattle.std.specs.Prelude.{◌≡◌, ◌++◌, map, IfOk, OnOk};

use crate::fields::{
    push_list_if_any, push_pattern_if_any, push_text, push_text_if_any, push_text_unless,
    push_true_if,
};
use crate::values::text_value;
use rb_canon::{Canon, Field, map};
use rb_causes::{NoMemory, Text};
use rb_option::OptionDef;
use std::alloc::Global;

fn text_values(alloc: Global, texts: &[Text]) -> Result<Vec<Canon>, NoMemory>
    ensures { IfOk result (λ values. map canon_tree values.items ≡ map one_text texts.now) }
{
    let mut values = Vec::new(alloc);
    for s in texts {
        values.push(text_value(alloc, s.as_str())?)?;
    }
    Ok(values)
}

/// Adds what an option may be.
fn push_what(alloc: Global, fields: &mut Vec<Field>, option: &OptionDef) -> Result<(), NoMemory>
    ensures { OnOk result (map field_view fields.new.items ≡ map field_view fields.old.items
        ++ present (what_slots option.now)) }
{
    push_text(alloc, fields, "name", option.name.as_str())?;
    push_text_if_any(alloc, fields, "value", &option.default)?;
    let values = text_values(alloc, option.values.as_slice())?;
    push_list_if_any(alloc, fields, "values", values)
}

/// Adds what its value has to be.
fn push_checks(alloc: Global, fields: &mut Vec<Field>, option: &OptionDef) -> Result<(), NoMemory>
    ensures { OnOk result (map field_view fields.new.items ≡ map field_view fields.old.items
        ++ present (check_slots option.now)) }
{
    push_true_if(alloc, fields, "enforced", option.enforced)?;
    push_true_if(alloc, fields, "required", option.required)?;
    push_pattern_if_any(alloc, fields, "regex", &option.pattern)?;
    push_true_if(alloc, fields, "multivalued", option.multivalued)?;
    push_text_unless(alloc, fields, ",", "delimiter", option.delimiter.as_str())
}

fn option_fields(alloc: Global, option: &OptionDef) -> Result<Vec<Field>, NoMemory>
    ensures { IfOk result (λ fields. map field_view fields.items
        ≡ present (option_slots option.now)) }
{
    let mut fields = Vec::new(alloc);
    push_what(alloc, &mut fields, option)?;
    push_checks(alloc, &mut fields, option)?;
    Ok(fields)
}

fn option_value(alloc: Global, option: &OptionDef) -> Result<Canon, NoMemory>
    ensures { IfOk result (λ value. canon_tree value ≡ option_value option.now) }
{
    Ok(map(option_fields(alloc, option)?))
}

/// The options of a job.
pub(crate) fn option_values(alloc: Global, options: &[OptionDef]) -> Result<Vec<Canon>, NoMemory>
    ensures { IfOk result (λ values. map canon_tree values.items ≡ map option_value options.now) }
{
    let mut values = Vec::new(alloc);
    for option in options {
        values.push(option_value(alloc, option)?)?;
    }
    Ok(values)
}
