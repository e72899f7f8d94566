//! A document's values, each against the form that its key gives it: depth first as written, and a
//! map as a whole behind what is inside it.
ghost use Rattle.rb_remarks.specs.Shapes.{count_matter, is_blank, is_empty_text, item_form, map_part, shape_matter};
ghost use Rattle.rb_yaml.specs.Tree.{yaml_tree};
ghost use Rattle.std.specs.Prelude.{◌≡◌};

use crate::form::{Form, Part};
use crate::hollow::{is_hollow, is_no_value};
use crate::keys::{ANY_TEXT, form_of};
use crate::remark::{Found, Matter, matter_unless, tell};
use crate::texts::look_at_text;
use crate::whole::look_at_whole;
use rb_causes::NoMemory;
use rb_values::{entries_in, is_text, key_of, map_entries, text_in, value_of};
use rb_yaml::{Pair, Yaml};
use std::alloc::Global;

/// The line on which a value begins.
pub(crate) fn line_of(value: &Yaml) -> u32 {
    match value {
        Yaml::Scalar { line, text: _ } => *line,
        Yaml::Seq { line, items: _ } => *line,
        Yaml::Map { line, entries: _ } => *line,
    }
}

/// What the items of a sequence have to be, where a value of the form may be one.
fn item_form(form: Form) -> Option<Form>
    ensures { result ≡ item_form form }
{
    match form {
        Form::Texts(form) => Some(Form::Text(form)),
        Form::List => Some(Form::Text(ANY_TEXT)),
        Form::Maps { part, .. } => Some(Form::Map(part)),
        _ => None,
    }
}

/// What a map has to be, where a value of the form may be one.
fn map_part(form: Form) -> Option<Part>
    ensures { result ≡ map_part form }
{
    match form {
        Form::Map(part) => Some(part),
        Form::Node => Some(Part::Attributes),
        _ => None,
    }
}

/// What is the matter with a value of a form as such, whatever is inside it.
fn shape_matter(form: Form, value: &Yaml) -> Option<Matter>
    ensures { result ≡ shape_matter form (yaml_tree value.now) }
{
    match form {
        Form::Text(_) => matter_unless(is_text(value), Matter::NoText),
        Form::Attribute(_) => matter_unless(is_text(value), Matter::NoAttribute),
        Form::Texts(_) => matter_unless(entries_in(value).is_none(), Matter::NoTexts),
        Form::List => Some(Matter::NoList),
        Form::Map(_) => Some(Matter::NoMap),
        Form::Maps { .. } => Some(Matter::NoMaps),
        Form::Node => matter_unless(is_empty_text(value), Matter::NoNode),
        Form::Passed => None,
        Form::Hollow => matter_unless(is_hollow(value), Matter::PluginValues),
        Form::Blank => matter_unless(is_blank(value), Matter::Unread),
        Form::Unread => Some(Matter::Unread),
    }
}

fn is_blank(value: &Yaml) -> bool
    ensures { result ≡ is_blank (yaml_tree value.now) }
{
    match text_in(value) {
        None => false,
        Some(text) => is_no_value(text.as_str()),
    }
}

fn is_empty_text(value: &Yaml) -> bool
    ensures { result ≡ is_empty_text (yaml_tree value.now) }
{
    match text_in(value) {
        None => false,
        Some(text) => text.as_str().is_empty(),
    }
}

/// Makes a remark on the value, if it is of another shape than its form.
fn look_at_shape<'a>(
    found: &mut Found<'a>,
    form: Form,
    key: &'a str,
    value: &'a Yaml,
) -> Result<(), NoMemory> {
    match shape_matter(form, value) {
        None => Ok(()),
        Some(matter) => tell(
            found,
            key,
            line_of(value),
            shape_text(matter, value),
            matter,
        ),
    }
}

/// Of values of plugins the plugin's name.
fn shape_text(matter: Matter, value: &Yaml) -> &str {
    match matter {
        Matter::PluginValues => filled_key(map_entries(value)),
        _ => "",
    }
}

/// The key of the first entry with a value beneath.
fn filled_key(entries: &[Pair]) -> &str {
    for entry in entries {
        if !is_hollow(value_of(entry)) {
            return key_of(entry);
        }
    }
    ""
}

/// What is the matter with so many items of a sequence.
fn count_matter(form: Form, count: usize) -> Option<Matter>
    ensures { result ≡ count_matter form count }
{
    match form {
        Form::Maps {
            part: _,
            least,
            most,
        } => {
            if least <= count {
                return matter_unless(count <= most, Matter::ManyItems);
            }
            Some(Matter::NoItems)
        }
        _ => None,
    }
}

/// Makes a remark on a sequence with too few items or too many.
fn look_at_count<'a>(
    found: &mut Found<'a>,
    form: Form,
    key: &'a str,
    value: &Yaml,
    count: usize,
) -> Result<(), NoMemory> {
    match count_matter(form, count) {
        None => Ok(()),
        Some(matter) => tell(found, key, line_of(value), "", matter),
    }
}

/// Makes the remarks on a text.
fn look_at_scalar<'a>(
    alloc: Global,
    found: &mut Found<'a>,
    form: Form,
    key: &'a str,
    text: &'a str,
    value: &'a Yaml,
) -> Result<(), NoMemory> {
    match form {
        Form::Text(form) | Form::Texts(form) | Form::Attribute(form) => {
            look_at_text(alloc, found, form, key, text, line_of(value))
        }
        _ => look_at_shape(found, form, key, value),
    }
}

/// Makes the remarks on a value.
#[cycle(walking)]
pub(crate) fn look_at<'a>(
    alloc: Global,
    found: &mut Found<'a>,
    form: Form,
    key: &'a str,
    value: &'a Yaml,
) -> Result<(), NoMemory> {
    match value {
        Yaml::Scalar { line: _, text } => {
            look_at_scalar(alloc, found, form, key, text.as_str(), value)
        }
        Yaml::Seq { line: _, items } => match item_form(form) {
            None => look_at_shape(found, form, key, value),
            Some(inner) => {
                look_at_items(alloc, found, inner, key, items.as_slice())?;
                look_at_count(found, form, key, value, items.len())
            }
        },
        Yaml::Map { line, entries } => match map_part(form) {
            None => look_at_shape(found, form, key, value),
            Some(part) => {
                look_at_entries(alloc, found, part, entries.as_slice())?;
                look_at_whole(found, part, key, *line, entries.as_slice())
            }
        },
    }
}

#[cycle(walking)]
fn look_at_items<'a>(
    alloc: Global,
    found: &mut Found<'a>,
    form: Form,
    key: &'a str,
    items: &'a [Yaml],
) -> Result<(), NoMemory> {
    for item in items {
        look_at(alloc, found, form, key, item)?;
    }
    Ok(())
}

#[cycle(walking)]
fn look_at_entries<'a>(
    alloc: Global,
    found: &mut Found<'a>,
    part: Part,
    entries: &'a [Pair],
) -> Result<(), NoMemory> {
    for entry in entries {
        let form = form_of(part, key_of(entry));
        look_at(alloc, found, form, key_of(entry), &entry.value)?;
    }
    Ok(())
}
