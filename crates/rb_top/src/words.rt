ghost use Rattle.rb_top.specs.Texts.{is_comma};
ghost use Rattle.std.specs.List.{slice_split};
ghost use Rattle.rb_causes.specs.Texts.{is_blank};
ghost use Rattle.std.specs.Prelude.{◌≡◌, ◌<◌, ◌∷◌, [], map, length, position, IfOk, IfSome, MatchOption};

use rb_causes::NoMemory;
use std::alloc::{AllocError, Global};

/// A space or a tab.
pub(crate) fn is_blank(byte: u8) -> bool
    ensures { result ≡ is_blank byte }
{
    byte == b' ' || byte == b'\t'
}

/// The parts of a line between its blanks: two blanks in a row have an empty part between them.
pub(crate) fn blank_parts<'a>(alloc: Global, line: &'a str) -> Result<Vec<&'a str>, NoMemory>
    ensures { IfOk result (λ words. map (λ w. w.now) words.items ≡ slice_split is_blank line.now) }
{
    let mut words = Vec::new(alloc);
    let mut rest = line;
    while let Some((word, behind)) = split_at_blank(rest) {
        words.push(word)?;
        rest = behind;
    }
    words.push(rest)?;
    Ok(words)
}

// What stands before the first blank and what stands behind it.
fn split_at_blank(text: &str) -> Option<(&str, &str)>
    ensures parts { MatchOption result (slice_split is_blank text.now ≡ text.now ∷ [])
        (λ parts. slice_split is_blank text.now ≡ parts.0.now ∷ slice_split is_blank parts.1.now) }
    ensures shorter { IfSome result (λ parts. length parts.1.now < length text.now) }
{
    let at = first_blank(text.as_bytes())?;
    Some((&text[..at], &text[at + 1..]))
}

fn first_blank(bytes: &[u8]) -> Option<usize>
    ensures { result ≡ position is_blank bytes.now }
{
    bytes.iter().position(|byte| is_blank(*byte))
}

/// The parts of a text between its commas.
pub(crate) fn comma_parts<'a>(alloc: Global, text: &'a str) -> Result<Vec<&'a str>, AllocError>
    ensures { IfOk result (λ parts. map (λ p. p.now) parts.items ≡ slice_split is_comma text.now) }
{
    text.split(',').collect(alloc)
}
