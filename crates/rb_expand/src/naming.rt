ghost use Rattle.rb_expand.specs.Pieces.{is_sign, name_len, is_replaced, closed_name, any_name_at};
ghost use Rattle.rb_causes.specs.Texts.{is_name_sign};
ghost use Rattle.std.specs.Option.{option_copied};
ghost use Rattle.std.specs.Prelude.{◌≡◌, ◌≤◌, length, slice_get};

use crate::style::Style;

/// Whether names that begin so are replaced: those of options, of nodes and of jobs.
pub(crate) fn is_replaced(name: &str) -> bool
    ensures { result ≡ is_replaced name.now }
{
    let name = name.as_bytes();
    name.starts_with(b"option.") || name.starts_with(b"node.") || name.starts_with(b"job.")
}

/// A letter or a digit of ASCII, or one of `_ . -`.
fn is_name_sign(c: char) -> bool
    ensures { result ≡ is_name_sign c }
{
    c.is_ascii_alphanumeric() || matches!(c, '_' | '.' | '-')
}

/// How many signs of a name stand at the front.
fn name_len(text: &[char]) -> usize
    ensures len { result ≡ name_len text.now }
    ensures within { result ≤ length text.now }
{
    for (i, c) in text.iter().enumerate() {
        if !is_name_sign(*c) {
            return i;
        }
    }
    text.len()
}

fn is_at(text: &[char], place: usize, sign: char) -> bool
    ensures { result ≡ is_sign sign (slice_get text.now place) }
{
    match text.get(place) {
        Some(c) => *c == sign,
        None => false,
    }
}

/// The name in front, if the closing sign stands behind it.
fn closed_name(rest: &[char], closing: char) -> Option<&[char]>
    ensures { option_copied result ≡ closed_name closing rest.now }
{
    let len = name_len(rest);
    if is_at(rest, len, closing) {
        return Some(&rest[..len]);
    }
    None
}

/// The name between its signs at the front of a text, whatever it is.
pub(crate) fn any_name_at(style: Style, text: &[char]) -> Option<&[char]>
    ensures { option_copied result ≡ any_name_at style text.now }
{
    match style.behind_opening(text) {
        Some(rest) => closed_name(rest, style.closing_of_style()),
        None => None,
    }
}
