//! Signs in the text of one line.
ghost use Rattle.rb_yaml.specs.Rows.{past_blanks, begins};
ghost use Rattle.rb_yaml.specs.Signs.{ends_sign, begins_sign, begins_item, is_nothing, is_clear, tab_leads, comment_at, has_comment, without_end, plain_part, has_colon, colon_at, excluded_start, begins_reserved, is_ill_start, start_flaw};
ghost use Rattle.rb_causes.specs.Texts.{is_blank};
ghost use Rattle.std.specs.Prelude.{◌≡◌, ◌<◌, ◌≤◌, length, drop, slice_index, false, nat_eq, ◌&&◌};

use crate::flaw::{Excluded, Flaw};

/// A space or a tab.
pub(crate) fn is_blank(byte: u8) -> bool
    ensures { result ≡ is_blank byte }
{
    byte == b' ' || byte == b'\t'
}

/// The text without the blanks that it begins with.
pub(crate) fn past_blanks(text: &str) -> &str
    ensures { result.now ≡ past_blanks text.now }
{
    let bytes = text.as_bytes();
    let mut at = 0;
    while at < bytes.len() && is_blank(bytes[at]) {
        at += 1;
    }
    &text[at..]
}

/// Whether the text begins with this byte.
pub(crate) fn begins(byte: u8, text: &str) -> bool
    ensures { result ≡ begins byte text.now }
{
    let bytes = text.as_bytes();
    !bytes.is_empty() && bytes[0] == byte
}

/// The text behind its first byte, which is ASCII.
pub(crate) fn behind_first(text: &str) -> &str
    requires { slice_index text.now 0 < 128 }
    ensures { result.now ≡ drop 1 text.now }
{
    if text.is_empty() { text } else { &text[1..] }
}

/// Whether the text is at its end or goes on with a blank.
pub(crate) fn ends_sign(text: &[u8]) -> bool
    ensures { result ≡ ends_sign text.now }
{
    text.is_empty() || is_blank(text[0])
}

/// Whether the text begins with this byte as a sign, which a blank or the end follows.
pub(crate) fn begins_sign(byte: u8, text: &[u8]) -> bool
    ensures { result ≡ begins_sign byte text.now }
{
    !text.is_empty() && text[0] == byte && ends_sign(&text[1..])
}

/// Whether nothing stands there but a comment.
pub(crate) fn is_nothing(text: &str) -> bool
    ensures { result ≡ is_nothing text.now }
{
    text.is_empty() || begins(b'#', text)
}

/// Whether the text begins with the sign of an item.
pub(crate) fn begins_item(text: &str) -> bool
    ensures { result ≡ begins_item text.now }
{
    begins_sign(b'-', text.as_bytes())
}

/// Whether nothing stands there but blanks and a comment behind them.
pub(crate) fn is_clear(text: &str) -> bool
    ensures { result ≡ is_clear text.now }
{
    text.is_empty() || is_blank(text.as_bytes()[0]) && is_nothing(past_blanks(text))
}

/// Whether a tab stands among the blanks that the text begins with.
pub(crate) fn tab_leads(text: &str) -> bool
    ensures { result ≡ tab_leads text.now }
{
    for byte in text.as_bytes() {
        if *byte == b'\t' {
            return true;
        }
        if *byte != b' ' {
            return false;
        }
    }
    false
}

/// Whether this byte begins a comment; does a blank stand before it?
fn begins_comment(blank: bool, byte: u8) -> bool
    ensures { result ≡ (blank && nat_eq byte 35) }
{
    blank && byte == b'#'
}

/// How many bytes stand before a comment.
pub(crate) fn comment_at(text: &[u8]) -> usize
    ensures exact { result ≡ comment_at false text.now }
    ensures within { result ≤ length text.now }
    ensures sign { result < length text.now → slice_index text.now result ≡ 35 }
{
    let mut blank = false;
    for (at, byte) in text.iter().enumerate() {
        if blank && *byte == b'#' {
            return at;
        }
        blank = is_blank(*byte);
    }
    text.len()
}

/// Whether a comment ends the text.
pub(crate) fn has_comment(text: &str) -> bool
    ensures { result ≡ has_comment text.now }
{
    comment_at(text.as_bytes()) < text.len()
}

/// The text without the blanks at its end.
pub(crate) fn without_end(text: &str) -> &str
    ensures { result.now ≡ without_end text.now }
{
    let bytes = text.as_bytes();
    let mut end = bytes.len();
    while end > 0 && is_blank(bytes[end - 1]) {
        end -= 1;
    }
    &text[..end]
}

/// The text before a comment.
pub(crate) fn plain_part(text: &str) -> &str
    ensures { result.now ≡ plain_part text.now }
{
    without_end(&text[..comment_at(text.as_bytes())])
}

/// Whether the sign of a key stands somewhere in the text.
#[tactic(auto, using(crate::proofs::Texts::has_colon_step))]
pub(crate) fn has_colon(text: &str) -> bool
    ensures { result ≡ has_colon text.now }
{
    let bytes = text.as_bytes();
    for (at, _byte) in bytes.iter().enumerate() {
        if begins_sign(b':', &bytes[at..]) {
            return true;
        }
    }
    false
}

/// The place of the first sign of a key before a comment.
pub(crate) fn colon_at(text: &[u8]) -> Option<usize>
    ensures { result ≡ colon_at false text.now }
{
    let mut blank = false;
    for (at, byte) in text.iter().enumerate() {
        if begins_comment(blank, *byte) {
            return None;
        }
        if begins_sign(b':', &text[at..]) {
            return Some(at);
        }
        blank = is_blank(*byte);
    }
    None
}

/// The form that is not read with which a plain text begins.
pub(crate) fn excluded_start(text: &str) -> Option<Flaw>
    ensures { result ≡ excluded_start text.now }
{
    if begins(b'&', text) {
        return Some(Flaw::OutOfProfile(Excluded::Anchor));
    }
    if begins(b'*', text) {
        return Some(Flaw::OutOfProfile(Excluded::Alias));
    }
    if begins(b'!', text) {
        return Some(Flaw::OutOfProfile(Excluded::Tag));
    }
    if begins(b'>', text) {
        return Some(Flaw::OutOfProfile(Excluded::FoldedScalar));
    }
    if begins_sign(b'?', text.as_bytes()) {
        return Some(Flaw::OutOfProfile(Excluded::ComplexKey));
    }
    None
}

/// Whether no plain text begins so, whatever follows.
fn begins_reserved(text: &str) -> bool
    ensures { result ≡ begins_reserved text.now }
{
    (begins(b'%', text) || begins(b'@', text))
        || (begins(b'`', text) || begins(b',', text))
        || (begins(b']', text) || begins(b'}', text))
}

/// Whether a plain text that begins so has no form.
pub(crate) fn is_ill_start(text: &str) -> bool
    ensures { result ≡ is_ill_start text.now }
{
    begins_reserved(text)
        || (begins_sign(b':', text.as_bytes()) || begins_sign(b'-', text.as_bytes()))
}

/// What is wrong with the beginning of a plain text.
pub(crate) fn start_flaw(text: &str) -> Option<Flaw>
    ensures { result ≡ start_flaw text.now }
{
    match excluded_start(text) {
        Some(flaw) => Some(flaw),
        None if is_ill_start(text) => Some(Flaw::Form),
        None => None,
    }
}
