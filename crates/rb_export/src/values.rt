//! Values and fields of documents.
ghost use Rattle.rb_canon.specs.Values.{one_text};
ghost use Rattle.rb_canon.specs.Views.{canon_tree, field_view};
ghost use Rattle.rb_export.specs.Policies.{texts_value, under};
ghost use Rattle.std.specs.Prelude.{◌≡◌, IfOk};

use rb_canon::{Canon, Field, Key, list, text};
use rb_causes::{NoMemory, Text};
use std::alloc::Global;

/// A text as a value.
pub(crate) fn text_value(alloc: Global, s: &str) -> Result<Canon, NoMemory>
    ensures { IfOk result (λ value. canon_tree value ≡ one_text s.now) }
{
    Ok(text(Text::of(alloc, s)?))
}

/// Texts as a list.
pub(crate) fn texts_value(alloc: Global, texts: &[Text]) -> Result<Canon, NoMemory>
    ensures { IfOk result (λ value. canon_tree value ≡ texts_value texts.now) }
{
    let mut items = Vec::new(alloc);
    for s in texts {
        items.push(text_value(alloc, s.as_str())?)?;
    }
    Ok(list(items))
}

/// A value under a plain key.
pub(crate) fn under(alloc: Global, key: &str, value: Canon) -> Result<Field, NoMemory>
    ensures { IfOk result (λ field. field_view field ≡ under key.now (canon_tree value)) }
{
    let key = Text::of(alloc, key)?;
    Ok(Field::of(Key::Plain(key), value))
}
