//! The items of a text: its parts at commas, trimmed, without empty ones. No call here takes
//! memory.
ghost use Rattle.rb_acl.specs.Parts.{is_item, is_listed};
ghost use Rattle.rb_causes.specs.Texts.{has_text, comma_items};
ghost use Rattle.std.specs.Prelude.{◌≡◌};
ghost use Rattle.std.specs.List.{list_all};

use rb_causes::{Text, trimmed};

/// Whether the text is one of these.
pub fn is_among(texts: &[Text], text: &str) -> bool
    ensures { result ≡ has_text texts.now text.now }
{
    texts.iter().any(|other| other.as_str() == text)
}

/// Whether this is an item of the text.
pub fn is_part(text: &str, item: &str) -> bool
    ensures { result ≡ has_text (comma_items text.now) item.now }
{
    for part in text.split(',') {
        if is_item(part, item) {
            return true;
        }
    }
    false
}

fn is_item(part: &str, item: &str) -> bool
    ensures { result ≡ is_item item.now part.now }
{
    let part = trimmed(part);
    !part.is_empty() && part == item
}

/// Whether each item of the text is one of these.
pub fn are_parts_among(text: &str, texts: &[Text]) -> bool
    ensures { result ≡ list_all (has_text texts.now) (comma_items text.now) }
{
    for part in text.split(',') {
        if !is_listed(part, texts) {
            return false;
        }
    }
    true
}

fn is_listed(part: &str, texts: &[Text]) -> bool
    ensures { result ≡ is_listed texts.now part.now }
{
    let part = trimmed(part);
    part.is_empty() || is_among(texts, part)
}
