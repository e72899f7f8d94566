//! Quoted texts on one line, from behind the opening quote on.
ghost use Rattle.rb_yaml.specs.QuotesView.{quoted_view};
ghost use Rattle.rb_yaml.specs.Quotes.{run_len, single_from, double_from, escaped};
ghost use Rattle.std.specs.Prelude.{◌≡◌, ◌<◌, ◌≤◌, length, take, drop, slice_index, false, string_bytes, option_copied, IfOk};

use crate::signs::{begins, behind_first};
use rb_causes::{NoMemory, Text};
use std::alloc::Global;

/// What was quoted, whether each escape in it is known, and what stands behind the closing quote,
/// if there is one.
#[derive(Drop)]
pub(crate) struct Quoted<'a> {
    pub text: Text,
    pub good: bool,
    pub rest: Option<&'a str>,
}

fn quoted_of<'a>(text: String, good: bool, rest: Option<&'a str>) -> Quoted<'a>
    ensures { quoted_view result ≡ record {
      text = string_bytes text;
      good = good;
      rest = option_copied rest.entry;
    } }
{
    Quoted {
        text: Text::from_string(text),
        good,
        rest,
    }
}

/// How many bytes come before the first that is one of two.
fn run_len(stop: u8, other: u8, text: &[u8]) -> usize
    ensures exact { result ≡ run_len stop other text.now }
    ensures within { result ≤ length text.now }
{
    for (at, byte) in text.iter().enumerate() {
        if *byte == stop || *byte == other {
            return at;
        }
    }
    text.len()
}

/// The run before the first of two ASCII bytes, and what is left.
fn split_run<'a>(stop: u8, other: u8, text: &'a str) -> (&'a str, &'a str)
    requires stop { stop < 128 }
    requires other { other < 128 }
    ensures front { result.0.now ≡ take (run_len stop other text.now) text.now }
    ensures rest { result.1.now ≡ drop (run_len stop other text.now) text.now }
    ensures small { slice_index result.1.now 0 < 128 }
{
    let at = run_len(stop, other, text.as_bytes());
    text.split_at(at)
}

/// A single-quoted text, in which two quotes are one.
pub(crate) fn read_single<'a>(alloc: Global, text: &'a str) -> Result<Quoted<'a>, NoMemory>
    ensures { IfOk result (λ q. quoted_view q ≡ single_from false text.now) }
{
    let mut out = String::new(alloc);
    let mut rest = text;
    loop {
        let (front, more) = split_run(b'\'', b'\'', rest);
        out.push_str(front)?;
        if more.is_empty() {
            return Ok(quoted_of(out, true, None));
        }
        let behind = behind_first(more);
        if !begins(b'\'', behind) {
            return Ok(quoted_of(out, true, Some(behind)));
        }
        out.push('\'')?;
        rest = behind_first(behind);
    }
}

/// The byte that stands for an escape, where it is known.
fn escaped(byte: u8) -> Option<u8>
    ensures { result ≡ escaped byte }
{
    match byte {
        b'n' => Some(b'\n'),
        b't' => Some(b'\t'),
        b'\\' => Some(b'\\'),
        b'"' => Some(b'"'),
        _ => None,
    }
}

/// A double-quoted text, with its escapes.
pub(crate) fn read_double<'a>(alloc: Global, text: &'a str) -> Result<Quoted<'a>, NoMemory>
    ensures { IfOk result (λ q. quoted_view q ≡ double_from false text.now) }
{
    let mut out = String::new(alloc);
    let mut good = true;
    let mut rest = text;
    loop {
        let (front, more) = split_run(b'"', b'\\', rest);
        out.push_str(front)?;
        if more.is_empty() {
            return Ok(quoted_of(out, good, None));
        }
        let behind = behind_first(more);
        if begins(b'"', more) {
            return Ok(quoted_of(out, good, Some(behind)));
        }
        if behind.is_empty() {
            return Ok(quoted_of(out, good, None));
        }
        match escaped(behind.as_bytes()[0]) {
            Some(byte) => {
                out.push(char::from(byte))?;
                rest = behind_first(behind);
            }
            None => {
                good = false;
                rest = behind;
            }
        }
    }
}
