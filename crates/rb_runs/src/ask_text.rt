//! What was asked of a run, as a row holds it: compact JSON.
ghost use Rattle.rb_log.specs.Asks.{ask_data, ask_text, given_items, instant_or_null, pair_data, text_or_null};
ghost use Rattle.serde_json.specs.Data.{array};
ghost use Rattle.serde_json.specs.View.{view};
ghost use Rattle.std.specs.Prelude.{◌≡◌, IfOk};

use rb_causes::{NoMemory, Prop, Text};
use rb_node::Filter;
use rb_plan::RunAsk;
use serde_json::{Map, Value, json, put};
use std::alloc::Global;

/// An option's name and the value that is given to it.
fn pair_value(alloc: Global, given: &Prop) -> Result<Value, NoMemory>
    ensures { IfOk result (λ value. view value ≡ pair_data given.now) }
{
    Ok(json!(in alloc; [given.key.as_str(), given.text.as_str()])?)
}

/// All that is given.
fn given_value(alloc: Global, given: &[Prop]) -> Result<Value, NoMemory>
    ensures { IfOk result (λ value. view value ≡ array (given_items given.now)) }
{
    let mut values = Vec::new(alloc);
    for one in given {
        values.push(pair_value(alloc, one)?)?;
    }
    Ok(Value::Array(values))
}

/// A filter, if there is one.
fn filter_value(alloc: Global, filter: &Option<Filter>) -> Result<Value, NoMemory>
    ensures { IfOk result (λ value. view value ≡ text_or_null filter.now) }
{
    match filter {
        None => Ok(Value::Null),
        Some(filter) => Ok(json!(in alloc; filter.text())?),
    }
}

/// The instant of a schedule, if there is one.
fn due_value(alloc: Global, due: Option<u64>) -> Result<Value, NoMemory>
    ensures { IfOk result (λ value. view value ≡ instant_or_null due) }
{
    match due {
        None => Ok(Value::Null),
        Some(instant) => Ok(json!(in alloc; instant)?),
    }
}

/// An ask, of a caller or for an instant.
fn ask_value(alloc: Global, ask: &RunAsk, due: Option<u64>) -> Result<Value, NoMemory>
    ensures { IfOk result (λ value. view value ≡ ask_data ask.now due) }
{
    let mut members = Map::new(alloc);
    put(&mut members, alloc, "due", due_value(alloc, due)?)?;
    put(
        &mut members,
        alloc,
        "filter",
        filter_value(alloc, &ask.filter)?,
    )?;
    put(
        &mut members,
        alloc,
        "given",
        given_value(alloc, ask.given.as_slice())?,
    )?;
    Ok(Value::Object(members))
}

/// An ask, of a caller or for an instant, as a row holds it.
pub(crate) fn ask_text(alloc: Global, ask: &RunAsk, due: Option<u64>) -> Result<Text, NoMemory>
    ensures { IfOk result (λ text. text ≡ ask_text ask.now due) }
{
    let value = ask_value(alloc, ask, due)?;
    Ok(Text::from_string(value.to_string(alloc)?))
}
