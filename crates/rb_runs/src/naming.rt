//! What a row says was asked of a run.
ghost use Rattle.rb_log.specs.Asks.{ask_among, ask_with, json_instant, json_text, pair_in};
ghost use Rattle.rb_runs.specs.Naming.{IsAskIn, asks_of, given_of};
ghost use Rattle.serde_json.specs.View.{members_view, view};
ghost use Rattle.std.specs.Prelude.{◌≡◌, ℕ, IfOk, List};

use rb_causes::{Items, NoMemory, Prop, Text};
use serde_json::{Map, Value};
use std::alloc::Global;

/// What was asked of a run: the values that were given, the text of a filter, and the instant of a
/// schedule if one asked.
#[derive(Drop)]
pub struct AskedOf {
    pub given: Items<Prop>,
    pub filter: Option<Text>,
    pub due: Option<u64>,
}

/// A text, or null for none; none of both where it is something else.
fn text_or_null(alloc: Global, value: &Value) -> Result<Option<Option<Text>>, NoMemory>
    ensures { IfOk result (λ text. text ≡ json_text (view value.now)) }
{
    if value.is_null() {
        return Ok(Some(None));
    }
    match value.as_str() {
        None => Ok(None),
        Some(text) => Ok(Some(Some(Text::of(alloc, text)?))),
    }
}

/// An instant, or null for none; none of both where it is something else.
fn instant_or_null(value: &Value) -> Option<Option<u64>>
    ensures { result ≡ json_instant (view value.now) }
{
    if value.is_null() {
        return Some(None);
    }
    match value.as_u64() {
        None => None,
        Some(instant) => Some(Some(instant)),
    }
}

/// An option's name and the value that was given to it.
fn pair(alloc: Global, value: &Value) -> Result<Option<Prop>, NoMemory>
    ensures { IfOk result (λ pair. pair ≡ pair_in (view value.now)) }
{
    let Some(items) = value.as_array() else {
        return Ok(None);
    };
    if items.len() != 2 {
        return Ok(None);
    }
    match (items[0].as_str(), items[1].as_str()) {
        (Some(key), Some(text)) => Ok(Some(Prop {
            key: Text::of(alloc, key)?,
            text: Text::of(alloc, text)?,
        })),
        _ => Ok(None),
    }
}

/// All that was given.
fn pairs(alloc: Global, value: &Value) -> Result<Option<Items<Prop>>, NoMemory>
    ensures { IfOk result (λ given. given ≡ given_of (view value.now)) }
{
    let Some(items) = value.as_array() else {
        return Ok(None);
    };
    let mut given = Items::new(alloc);
    for item in items {
        match pair(alloc, item)? {
            None => return Ok(None),
            Some(pair) => given.push(pair)?,
        }
    }
    Ok(Some(given))
}

/// What three members say.
fn asked_by(
    alloc: Global,
    due: &Value,
    filter: &Value,
    given: &Value,
) -> Result<Option<AskedOf>, NoMemory>
    ensures { IfOk result (λ asked. (job : List ℕ) → asks_of job asked
        ≡ ask_with job (json_instant (view due.now)) (json_text (view filter.now))
        (given_of (view given.now))) }
{
    let Some(due) = instant_or_null(due) else {
        return Ok(None);
    };
    let Some(filter) = text_or_null(alloc, filter)? else {
        return Ok(None);
    };
    let Some(given) = pairs(alloc, given)? else {
        return Ok(None);
    };
    Ok(Some(AskedOf { given, filter, due }))
}

/// What the members of an object say, in their order. Of which name they are is not asked, since a
/// row that is read otherwise than it was written is not the one that is then added.
fn asked_in(alloc: Global, members: &Map<String, Value>) -> Result<Option<AskedOf>, NoMemory>
    ensures { IfOk result (λ asked. (job : List ℕ) → asks_of job asked
        ≡ ask_among job (members_view members.now.entries)) }
{
    let mut members = members.iter();
    let Some((_, due)) = members.next() else {
        return Ok(None);
    };
    let Some((_, filter)) = members.next() else {
        return Ok(None);
    };
    let Some((_, given)) = members.next() else {
        return Ok(None);
    };
    if members.next().is_some() {
        return Ok(None);
    }
    asked_by(alloc, due, filter, given)
}

/// What the body of a row says was asked of a run, if it says that.
pub fn asked_of(alloc: Global, body: &str) -> Result<Option<AskedOf>, NoMemory>
    ensures { IfOk result (IsAskIn body.now) }
{
    match Value::from_str(alloc, body) {
        Err(error) => {
            if error.is_memory() {
                Err(NoMemory)
            } else {
                Ok(None)
            }
        }
        Ok(value) => match value.as_object() {
            None => Ok(None),
            Some(members) => asked_in(alloc, members),
        },
    }
}
