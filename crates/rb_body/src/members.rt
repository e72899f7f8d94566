//! The members of an object, one by one. What is not there counts as null.
ghost use Rattle.rb_body.specs.Bodies.{is_null, options_if, options_in, string_if, value_at, Reads};
ghost use Rattle.serde_json.specs.View.{members_view, view};
ghost use Rattle.std.specs.Prelude.{◌≡◌, codes};

use crate::parts::BodyErr;
use rb_causes::{Items, Prop, Text};
use serde_json::{Map, Value};
use std::alloc::Global;

/// A string, or null for none.
fn string_if(alloc: Global, value: &Value) -> Result<Option<Text>, BodyErr>
    ensures { Reads (string_if (view value.now)) result }
{
    if value.is_null() {
        return Ok(None);
    }
    match value.as_str() {
        None => Err(BodyErr::BadBody),
        Some(text) => Ok(Some(Text::of(alloc, text)?)),
    }
}

/// The string under a key of an object.
pub(crate) fn string_at(alloc: Global, object: &Value, key: &str) -> Result<Option<Text>, BodyErr>
    ensures { Reads (string_if (value_at key.now (view object.now))) result }
{
    match object.get(key) {
        None => Ok(None),
        Some(value) => string_if(alloc, value),
    }
}

/// The options that members give, in byte order of their names; those that are null give none.
fn options_in(alloc: Global, members: &Map<String, Value>) -> Result<Items<Prop>, BodyErr>
    ensures { Reads (options_in (members_view members.now.entries)) result }
{
    let mut options = Items::new(alloc);
    for (name, value) in members.iter() {
        if let Some(text) = string_if(alloc, value)? {
            let key = Text::of(alloc, name.as_str())?;
            options.push(Prop { key, text })?;
        }
    }
    Ok(options)
}

/// The options of an object, or null for none.
fn options_if(alloc: Global, value: &Value) -> Result<Option<Items<Prop>>, BodyErr>
    ensures { Reads (options_if (view value.now)) result }
{
    if value.is_null() {
        return Ok(None);
    }
    match value.as_object() {
        None => Err(BodyErr::BadBody),
        Some(members) => Ok(Some(options_in(alloc, members)?)),
    }
}

/// The options under the key of that name of an object.
pub(crate) fn options_at(alloc: Global, object: &Value) -> Result<Option<Items<Prop>>, BodyErr>
    ensures { Reads (options_if (value_at (codes "options") (view object.now))) result }
{
    match object.get("options") {
        None => Ok(None),
        Some(value) => options_if(alloc, value),
    }
}

/// Whether there is nothing but null under a key of an object.
pub(crate) fn is_absent(object: &Value, key: &str) -> bool
    ensures { result ≡ is_null (value_at key.now (view object.now)) }
{
    match object.get(key) {
        None => true,
        Some(value) => value.is_null(),
    }
}
