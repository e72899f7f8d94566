//! Texts that are joined.
ghost use Rattle.rb_api.specs.Joining.{joined};
ghost use Rattle.std.specs.Prelude.{◌≡◌, string_bytes, IfOk};

use rb_causes::{NoMemory, Text};
use std::alloc::Global;

/// These texts, with the same text between each two of them.
pub(crate) fn joined(alloc: Global, between: &str, texts: &[Text]) -> Result<String, NoMemory>
    ensures { IfOk result (λ text. string_bytes text ≡ joined between.now texts.now) }
{
    let mut text = String::new(alloc);
    let Some((first, others)) = texts.split_first() else {
        return Ok(text);
    };
    text.push_str(first.as_str())?;
    for other in others {
        text.push_str(between)?;
        text.push_str(other.as_str())?;
    }
    Ok(text)
}
