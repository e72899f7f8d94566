//! Fields of maps: some stand only where their value is not the default.
ghost use Rattle.rb_canon.specs.Views.{canon_tree, field_view};
ghost use Rattle.rb_export.specs.Slots.{present, text, text_if_any, text_unless, number_unless, true_if, false_unless, list_if_any, map_if_any};
ghost use Rattle.std.specs.Prelude.{◌≡◌, ◌++◌, ◌∷◌, [], Some, map, decimal, string_bytes, IfOk, OnOk};

use crate::values::{text_value, under};
use rb_canon::{Canon, Field, list, map};
use rb_causes::{NoMemory, Text};
use rb_text::Pattern;
use std::alloc::{AllocError, Global};

/// Adds a value under a key.
pub(crate) fn push_value(
    alloc: Global,
    fields: &mut Vec<Field>,
    key: &str,
    value: Canon,
) -> Result<(), NoMemory>
    ensures { OnOk result (map field_view fields.new.items ≡ map field_view fields.old.items
        ++ present ((key.now, Some (canon_tree value)) ∷ [])) }
{
    fields.push(under(alloc, key, value)?)?;
    Ok(())
}

/// Adds a text.
pub(crate) fn push_text(
    alloc: Global,
    fields: &mut Vec<Field>,
    key: &str,
    s: &str,
) -> Result<(), NoMemory>
    ensures { OnOk result (map field_view fields.new.items ≡ map field_view fields.old.items
        ++ present ((key.now, text s.now) ∷ [])) }
{
    push_value(alloc, fields, key, text_value(alloc, s)?)
}

/// Adds a text, if there is one.
pub(crate) fn push_text_if_any(
    alloc: Global,
    fields: &mut Vec<Field>,
    key: &str,
    s: &Option<Text>,
) -> Result<(), NoMemory>
    ensures { OnOk result (map field_view fields.new.items ≡ map field_view fields.old.items
        ++ present ((key.now, text_if_any s.now) ∷ [])) }
{
    match s {
        None => Ok(()),
        Some(s) => push_text(alloc, fields, key, s.as_str()),
    }
}

/// Adds the text of a pattern, if there is one.
pub(crate) fn push_pattern_if_any(
    alloc: Global,
    fields: &mut Vec<Field>,
    key: &str,
    pattern: &Option<Pattern>,
) -> Result<(), NoMemory>
    ensures { OnOk result (map field_view fields.new.items ≡ map field_view fields.old.items
        ++ present ((key.now, text_if_any pattern.now) ∷ [])) }
{
    match pattern {
        None => Ok(()),
        Some(pattern) => push_text(alloc, fields, key, pattern.text()),
    }
}

/// Adds a text that is not the default.
pub(crate) fn push_text_unless(
    alloc: Global,
    fields: &mut Vec<Field>,
    default: &str,
    key: &str,
    s: &str,
) -> Result<(), NoMemory>
    ensures { OnOk result (map field_view fields.new.items ≡ map field_view fields.old.items
        ++ present ((key.now, text_unless default.now s.now) ∷ [])) }
{
    if s == default {
        return Ok(());
    }
    push_text(alloc, fields, key, s)
}

/// A number in decimal.
fn number_text(alloc: Global, n: u32) -> Result<String, AllocError>
    ensures { IfOk result (λ s. string_bytes s ≡ decimal n) }
{
    format!(in alloc; "{n}")
}

/// Adds a number.
pub(crate) fn push_number(
    alloc: Global,
    fields: &mut Vec<Field>,
    key: &str,
    n: u32,
) -> Result<(), NoMemory>
    ensures { OnOk result (map field_view fields.new.items ≡ map field_view fields.old.items
        ++ present ((key.now, text (decimal n)) ∷ [])) }
{
    let s = number_text(alloc, n)?;
    push_text(alloc, fields, key, s.as_str())
}

/// Adds a number that is not the default.
pub(crate) fn push_number_unless(
    alloc: Global,
    fields: &mut Vec<Field>,
    default: u32,
    key: &str,
    n: u32,
) -> Result<(), NoMemory>
    ensures { OnOk result (map field_view fields.new.items ≡ map field_view fields.old.items
        ++ present ((key.now, number_unless default n) ∷ [])) }
{
    if n == default {
        return Ok(());
    }
    push_number(alloc, fields, key, n)
}

/// Adds what is false by default.
pub(crate) fn push_true_if(
    alloc: Global,
    fields: &mut Vec<Field>,
    key: &str,
    holds: bool,
) -> Result<(), NoMemory>
    ensures { OnOk result (map field_view fields.new.items ≡ map field_view fields.old.items
        ++ present ((key.now, true_if holds) ∷ [])) }
{
    if holds {
        push_text(alloc, fields, key, "true")
    } else {
        Ok(())
    }
}

/// Adds what is true by default.
pub(crate) fn push_false_unless(
    alloc: Global,
    fields: &mut Vec<Field>,
    key: &str,
    holds: bool,
) -> Result<(), NoMemory>
    ensures { OnOk result (map field_view fields.new.items ≡ map field_view fields.old.items
        ++ present ((key.now, false_unless holds) ∷ [])) }
{
    if holds {
        Ok(())
    } else {
        push_text(alloc, fields, key, "false")
    }
}

/// Adds a list that has items.
pub(crate) fn push_list_if_any(
    alloc: Global,
    fields: &mut Vec<Field>,
    key: &str,
    items: Vec<Canon>,
) -> Result<(), NoMemory>
    ensures { OnOk result (map field_view fields.new.items ≡ map field_view fields.old.items
        ++ present ((key.now, list_if_any (map canon_tree items.items)) ∷ [])) }
{
    if items.is_empty() {
        return Ok(());
    }
    push_value(alloc, fields, key, list(items))
}

/// Adds a map that has fields.
pub(crate) fn push_map_if_any(
    alloc: Global,
    fields: &mut Vec<Field>,
    key: &str,
    inner: Vec<Field>,
) -> Result<(), NoMemory>
    ensures { OnOk result (map field_view fields.new.items ≡ map field_view fields.old.items
        ++ present ((key.now, map_if_any (map field_view inner.items)) ∷ [])) }
{
    if inner.is_empty() {
        return Ok(());
    }
    push_value(alloc, fields, key, map(inner))
}
