ghost use Rattle.rb_option.specs.Parting.{parts_at};
ghost use Rattle.std.specs.Prelude.{◌≡◌, IfOk};

use rb_causes::{NoMemory, Text};
use std::alloc::Global;

/// The parts of a text between delimiters, found from the left; an empty delimiter parts nothing.
pub(crate) fn parts_at(alloc: Global, delimiter: &str, text: &str) -> Result<Vec<Text>, NoMemory>
    ensures { IfOk result (λ parts. parts.items ≡ parts_at delimiter.now text.now) }
{
    let mut parts = Vec::new(alloc);
    if delimiter.is_empty() {
        parts.push(Text::of(alloc, text)?)?;
        return Ok(parts);
    }
    let mut rest = text;
    while let Some((part, behind)) = rest.split_once(delimiter) {
        parts.push(Text::of(alloc, part)?)?;
        rest = behind;
    }
    parts.push(Text::of(alloc, rest)?)?;
    Ok(parts)
}
