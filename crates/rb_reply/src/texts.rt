//! Texts as JSON values.
ghost use Rattle.rb_reply.specs.Listing.{put_texts, texts_data};
ghost use Rattle.serde_json.specs.Data.{string, put as put_data};
ghost use Rattle.serde_json.specs.View.{members_view, view};
ghost use Rattle.std.specs.Prelude.{◌≡◌, IfOk, OnOk};

use rb_causes::{NoMemory, Prop};
use serde_json::{Map, Value, put};
use std::alloc::Global;

/// A text.
pub fn text_value(alloc: Global, text: &str) -> Result<Value, NoMemory>
    ensures { IfOk result (λ value. view value ≡ string text.now) }
{
    Ok(Value::try_from_str(alloc, text)?)
}

/// Puts texts under their keys, one after another.
pub fn put_texts(
    alloc: Global,
    members: &mut Map<String, Value>,
    props: &[Prop],
) -> Result<(), NoMemory>
    ensures { OnOk result (members_view members.new.entries
        ≡ put_texts props.now (members_view members.old.entries)) }
{
    for prop in props {
        put_text(alloc, members, prop.key.as_str(), prop.text.as_str())?;
    }
    Ok(())
}

/// Puts a text under its key.
pub fn put_text(
    alloc: Global,
    members: &mut Map<String, Value>,
    key: &str,
    text: &str,
) -> Result<(), NoMemory>
    ensures { OnOk result (members_view members.new.entries
        ≡ put_data key.now (string text.now) (members_view members.old.entries)) }
{
    let value = text_value(alloc, text)?;
    put(members, alloc, key, value)?;
    Ok(())
}

/// Texts under their keys.
pub fn texts_value(alloc: Global, props: &[Prop]) -> Result<Value, NoMemory>
    ensures { IfOk result (λ value. view value ≡ texts_data props.now) }
{
    let mut members = Map::new(alloc);
    put_texts(alloc, &mut members, props)?;
    Ok(Value::Object(members))
}
