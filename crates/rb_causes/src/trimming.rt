ghost use Rattle.rb_causes.specs.Signs.{comma};
ghost use Rattle.rb_causes.specs.Texts.{from_text, trimmed, pieces, comma_items};
ghost use Rattle.std.specs.Prelude.{◌≡◌, IfOk, map, reverse, nat_eq};

use crate::text::Text;
use crate::trouble::NoMemory;
use std::alloc::{AllocError, Global};

/// What is trimmed off a text.
const BLANKS: [char; 4] = [' ', '\t', '\r', '\n'];

/// The text without the spaces, tabs, CRs and LFs before and behind it.
pub fn trimmed(text: &str) -> &str
    ensures { result.now ≡ trimmed text.now }
{
    without_end_blanks(without_start_blanks(text))
}

fn without_start_blanks(text: &str) -> &str
    ensures { result.now ≡ from_text text.now }
{
    text.trim_start_matches(BLANKS)
}

fn without_end_blanks(text: &str) -> &str
    ensures { result.now ≡ reverse (from_text (reverse text.now)) }
{
    text.trim_end_matches(BLANKS)
}

/// The parts of a text at its commas, trimmed. Empty ones fall away.
pub fn comma_items(alloc: Global, text: &str) -> Result<Vec<Text>, NoMemory>
    ensures { IfOk result (λ items. items.items ≡ comma_items text.now) }
{
    let mut items = Vec::new(alloc);
    for part in comma_parts(alloc, text)?.iter() {
        let item = trimmed(part);
        if !item.is_empty() {
            items.push(Text::of(alloc, item)?)?;
        }
    }
    Ok(items)
}

fn comma_parts<'a>(alloc: Global, text: &'a str) -> Result<Vec<&'a str>, AllocError>
    ensures { IfOk result (λ parts.
        map (λ part. part.now) parts.items ≡ pieces (λ b. nat_eq b comma) text.now) }
{
    text.split(',').collect(alloc)
}
