ghost use Rattle.rb_option.specs.Settled.{option_flaw, has_option, has_value, given_flaw, named_flaw, given_fault, given_text, settled_value, option_fault, settled_option, settled_values, settled_of, IsOptionFault, IsFaultIn};
ghost use Rattle.std.specs.Prelude.{◌≡◌, ◌++◌, [], Ok, None, IfOk, IfErr, OnOk, option_map, option_to_list};

use crate::checking::option_flaw;
use crate::option_def::OptionDef;
use crate::option_err::{OptionErr, OptionFault, OptionKind};
use rb_causes::{Items, NoMemory, Prop, Text};
use std::alloc::Global;

/// The values that these options have where so much is given: for each the given one, else its
/// default; those without a value are left out. Which fault comes first is said at `OptionKind`.
pub fn settle(alloc: Global, defs: &[OptionDef], given: &[Prop]) -> Result<Vec<Prop>, OptionErr>
    ensures values { IfOk result (λ values. settled_of defs.now given.now ≡ Ok values.items) }
    ensures fault { IfErr result (IsOptionFault (settled_of defs.now given.now)) }
{
    match given_fault(alloc, defs, given)? {
        Some(fault) => Err(OptionErr::Fault(fault)),
        None => settle_all(alloc, defs, given),
    }
}

/// The first of the given values that is none of the options', or is given again.
fn given_fault(
    alloc: Global,
    defs: &[OptionDef],
    given: &[Prop],
) -> Result<Option<OptionFault>, NoMemory>
    ensures { IfOk result (λ fault. fault ≡ given_fault defs.now [] given.now) }
{
    for (i, value) in given.iter().enumerate() {
        if let Some(kind) = given_flaw(defs, &given[..i], value) {
            return Ok(Some(fault_at(alloc, &value.key, kind)?));
        }
    }
    Ok(None)
}

fn fault_at(alloc: Global, name: &Text, kind: OptionKind) -> Result<OptionFault, NoMemory>
    ensures { IfOk result (λ fault. fault ≡ record { name = name.now; kind = kind }) }
{
    let name = name.copy(alloc)?;
    Ok(OptionFault { name, kind })
}

/// What is wrong with a given value behind those before it.
fn given_flaw(defs: &[OptionDef], before: &[Prop], value: &Prop) -> Option<OptionKind>
    ensures { result ≡ given_flaw defs.now before.now value.now }
{
    if !has_option(defs, &value.key) {
        return Some(OptionKind::Unknown);
    }
    if has_value(before, &value.key) {
        return Some(OptionKind::Twice);
    }
    None
}

fn has_option(defs: &[OptionDef], name: &Text) -> bool
    ensures { result ≡ has_option defs.now name.now }
{
    defs.iter().any(|option| option.name == *name)
}

fn has_value(values: &[Prop], name: &Text) -> bool
    ensures { result ≡ has_value values.now name.now }
{
    values.iter().any(|value| value.key == *name)
}

/// The values of the options in their order, or the first that is refused.
fn settle_all(alloc: Global, defs: &[OptionDef], given: &[Prop]) -> Result<Vec<Prop>, OptionErr>
    ensures faultless { OnOk result (option_fault given.now defs.now ≡ None) }
    ensures values { IfOk result (λ values. values.items ≡ settled_values defs.now given.now) }
    ensures fault { IfErr result (IsFaultIn (option_fault given.now defs.now)) }
{
    let mut values = Items::new(alloc);
    for option in defs {
        settle_one(alloc, option, given, &mut values)?;
    }
    Ok(values.into_vec())
}

/// Puts the value of an option to those before it, if it has one.
fn settle_one(
    alloc: Global,
    option: &OptionDef,
    given: &[Prop],
    values: &mut Items<Prop>,
) -> Result<(), OptionErr>
    ensures faultless { OnOk result
        (option_flaw option.now (settled_value given.now option.now) ≡ None) }
    ensures values { OnOk result (values.new
        ≡ values.old ++ option_to_list (settled_option given.now option.now)) }
    ensures fault { IfErr result (IsFaultIn
        (named_flaw option.now.name
        (option_flaw option.now (settled_value given.now option.now)))) }
{
    let value = settled_value(given, option);
    if let Some(kind) = option_flaw(alloc, option, value)? {
        return Err(OptionErr::Fault(fault_at(alloc, &option.name, kind)?));
    }
    if let Some(text) = value {
        let key = option.name.copy(alloc)?;
        let text = Text::of(alloc, text)?;
        values.push(Prop { key, text })?;
    }
    Ok(())
}

/// The value of an option: the given one, else its default.
fn settled_value<'a>(given: &'a [Prop], option: &'a OptionDef) -> Option<&'a str>
    ensures { option_map (λ text. text.now) result ≡ settled_value given.now option.now }
{
    match given_text(given, &option.name) {
        Some(text) => Some(text),
        None => option.default.as_ref().map(|text| text.as_str()),
    }
}

/// The text that is given under a name.
fn given_text<'a>(given: &'a [Prop], name: &Text) -> Option<&'a str>
    ensures { option_map (λ text. text.now) result ≡ given_text given.now name.now }
{
    for value in given {
        if value.key == *name {
            return Some(value.text.as_str());
        }
    }
    None
}
