ghost use Rattle.rb_option.specs.Settled.{value_parts, is_part_allowed, is_matched, parts_flaw, empty_flaw, option_flaw};
ghost use Rattle.std.specs.List.{list_all};
ghost use Rattle.std.specs.Prelude.{◌≡◌, IfOk, option_map};

use crate::option_def::OptionDef;
use crate::option_err::OptionKind;
use crate::parting::parts_at;
use rb_causes::{NoMemory, Text};
use rb_text::Pattern;
use std::alloc::Global;

/// What is wrong with the value of an option, if it has one.
pub(crate) fn option_flaw(
    alloc: Global,
    option: &OptionDef,
    value: Option<&str>,
) -> Result<Option<OptionKind>, NoMemory>
    ensures { IfOk result (λ flaw.
        flaw ≡ option_flaw option.now (option_map (λ text. text.now) value.entry)) }
{
    match value {
        Some(value) => {
            if value.is_empty() {
                return Ok(empty_flaw(option));
            }
            let parts = value_parts(alloc, option, value)?;
            parts_flaw(alloc, option, parts.as_slice())
        }
        None => Ok(empty_flaw(option)),
    }
}

/// What is wrong where there is no value, or an empty one.
fn empty_flaw(option: &OptionDef) -> Option<OptionKind>
    ensures { result ≡ empty_flaw option.now }
{
    if option.required {
        Some(OptionKind::Missing)
    } else {
        None
    }
}

/// The parts of a value that are looked at one by one.
fn value_parts(alloc: Global, option: &OptionDef, value: &str) -> Result<Vec<Text>, NoMemory>
    ensures { IfOk result (λ parts. parts.items ≡ value_parts option.now value.now) }
{
    if option.multivalued {
        return parts_at(alloc, option.delimiter.as_str(), value);
    }
    let mut parts = Vec::new(alloc);
    parts.push(Text::of(alloc, value)?)?;
    Ok(parts)
}

/// What is wrong with the parts of a value: all are looked up before any is matched.
fn parts_flaw(
    alloc: Global,
    option: &OptionDef,
    parts: &[Text],
) -> Result<Option<OptionKind>, NoMemory>
    ensures { IfOk result (λ flaw. flaw ≡ parts_flaw option.now parts.now) }
{
    if !are_allowed(option, parts) {
        return Ok(Some(OptionKind::NotAllowed));
    }
    if !are_matched(alloc, &option.pattern, parts)? {
        return Ok(Some(OptionKind::NoMatch));
    }
    Ok(None)
}

/// Whether each part is one of the values, where these are enforced.
fn are_allowed(option: &OptionDef, parts: &[Text]) -> bool
    ensures { result ≡ list_all (is_part_allowed option.now) parts.now }
{
    for part in parts {
        if !is_part_allowed(option, part) {
            return false;
        }
    }
    true
}

fn is_part_allowed(option: &OptionDef, part: &Text) -> bool
    ensures { result ≡ is_part_allowed option.now part.now }
{
    !option.enforced || option.values.as_slice().contains(part)
}

/// Whether the pattern matches each part whole, where there is one.
fn are_matched(alloc: Global, pattern: &Option<Pattern>, parts: &[Text]) -> Result<bool, NoMemory>
    ensures { IfOk result (λ yes. yes ≡ list_all (is_matched pattern.now) parts.now) }
{
    match pattern {
        Some(pattern) => pattern.whole_of_all(alloc, parts),
        None => Ok(true),
    }
}
