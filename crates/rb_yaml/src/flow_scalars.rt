//! Scalars of a flow.
ghost use Rattle.rb_yaml.specs.Faults.{Reads};
ghost use Rattle.rb_yaml.specs.FlowScalars.{ends_plain, flow_scalar, flow_word, is_bracket, plain_flow, plain_is_good, quoted_flow, word_flow, word_len};
ghost use Rattle.rb_yaml.specs.FlowView.{text_view};
ghost use Rattle.rb_yaml.specs.QuotesView.{quoted_view};
ghost use Rattle.rb_yaml.specs.Rows.{begins};
ghost use Rattle.std.specs.List.{list_any};
ghost use Rattle.std.specs.Prelude.{◌≡◌, ◌≤◌, ◌<◌, drop, length};

use crate::flaw::{Excluded, Flaw, Stop};
use crate::keys::is_lone_sign;
use crate::quotes::{Quoted, read_double, read_single};
use crate::signs::{
    begins, begins_sign, behind_first, excluded_start, has_colon, is_blank, is_ill_start,
    without_end,
};
use rb_causes::Text;
use std::alloc::Global;

/// A scalar of a flow: its text, whether it has a form, and what follows it.
#[derive(Drop)]
pub(crate) struct FlowText<'a> {
    pub text: Text,
    pub good: bool,
    pub rest: &'a str,
}

/// Whether a plain scalar ends before this text: at a comma, the closing sign, a comment, or, for a
/// key, its colon.
fn ends_plain(key: bool, close: u8, blank: bool, text: &[u8]) -> bool
    ensures { result ≡ ends_plain key close blank text.now }
{
    (starts(b',', text) || starts(close, text))
        || blank && starts(b'#', text)
        || key && begins_sign(b':', text)
}

fn starts(byte: u8, text: &[u8]) -> bool
    ensures { result ≡ begins byte text.now }
{
    !text.is_empty() && text[0] == byte
}

/// How many bytes a plain scalar has whose first byte is its own, whatever it is.
fn word_len(key: bool, close: u8, text: &[u8]) -> usize
    ensures exact { result ≡ word_len key close text.now }
    ensures within { result ≤ length text.now }
{
    if text.is_empty() {
        return 0;
    }
    let mut blank = is_blank(text[0]);
    let mut at = 1;
    while at < text.len() {
        if ends_plain(key, close, blank, &text[at..]) {
            return at;
        }
        blank = is_blank(text[at]);
        at += 1;
    }
    at
}

/// The word of a plain scalar, and what follows it.
pub(crate) fn split_word<'a>(key: bool, close: u8, text: &'a str) -> (&'a str, &'a str)
    requires { close < 128 }
    ensures word { result.0.now ≡ flow_word key close text.now }
    ensures rest { result.1.now ≡ drop (length (flow_word key close text.now)) text.now }
{
    let end = word_len(key, close, text.as_bytes());
    let word = without_end(&text[..end]);
    (word, &text[word.len()..])
}

/// Whether the byte is a sign of a flow.
fn is_bracket(byte: u8) -> bool
    ensures { result ≡ is_bracket byte }
{
    (byte == b'[' || byte == b']') || (byte == b'{' || byte == b'}')
}

fn has_bracket(text: &str) -> bool
    ensures { result ≡ list_any is_bracket text.now }
{
    for byte in text.as_bytes() {
        if is_bracket(*byte) {
            return true;
        }
    }
    false
}

/// Whether a plain scalar of a flow has a form.
fn plain_is_good(text: &str) -> bool
    ensures { result ≡ plain_is_good text.now }
{
    if is_ill_start(text) || begins(b'#', text) || begins(b'|', text) {
        return false;
    }
    !has_bracket(text) && !has_colon(text)
}

fn plain_flow<'a>(alloc: Global, word: &'a str, rest: &'a str) -> Result<FlowText<'a>, Stop<Flaw>>
    ensures { Reads text_view result (plain_flow word.now rest.now) }
{
    match excluded_start(word) {
        Some(flaw) => Err(Stop::At(flaw)),
        None => Ok(FlowText {
            text: Text::of(alloc, word)?,
            good: plain_is_good(word),
            rest,
        }),
    }
}

/// A quoted scalar; one that is not closed is a form that is not read.
fn quoted_flow<'a>(excluded: Excluded, quoted: Quoted<'a>) -> Result<FlowText<'a>, Stop<Flaw>>
    ensures { Reads text_view result (quoted_flow excluded (quoted_view quoted.entry)) }
{
    let Quoted { text, good, rest } = quoted;
    match rest {
        None => Err(Stop::At(Flaw::OutOfProfile(excluded))),
        Some(rest) => Ok(FlowText { text, good, rest }),
    }
}

/// A plain scalar with this word. A key's may be a lone sign that the colon follows directly.
fn word_flow<'a>(
    alloc: Global,
    key: bool,
    word: &'a str,
    rest: &'a str,
) -> Result<FlowText<'a>, Stop<Flaw>>
    ensures { Reads text_view result (word_flow key word.now rest.now) }
{
    if key && is_lone_sign(word) && begins(b':', rest) {
        return Ok(FlowText {
            text: Text::of(alloc, word)?,
            good: true,
            rest,
        });
    }
    plain_flow(alloc, word, rest)
}

/// A scalar at the beginning of the text. A key's plain text ends at its colon.
pub(crate) fn flow_scalar<'a>(
    alloc: Global,
    key: bool,
    close: u8,
    text: &'a str,
) -> Result<FlowText<'a>, Stop<Flaw>>
    requires { close < 128 }
    ensures { Reads text_view result (flow_scalar key close text.now) }
{
    if begins(b'[', text) || begins(b'{', text) {
        return Err(Stop::At(Flaw::OutOfProfile(Excluded::NestedFlow)));
    }
    if begins(b'"', text) {
        return quoted_flow(
            Excluded::MultiLineDoubleQuote,
            read_double(alloc, behind_first(text))?,
        );
    }
    if begins(b'\'', text) {
        return quoted_flow(
            Excluded::MultiLineFlow,
            read_single(alloc, behind_first(text))?,
        );
    }
    let (word, rest) = split_word(key, close, text);
    word_flow(alloc, key, word, rest)
}
