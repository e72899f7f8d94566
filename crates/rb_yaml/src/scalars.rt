//! Plain and quoted texts as values, with the lines over which they may go on.
ghost use Rattle.rb_yaml.specs.Faults.{Reads};
ghost use Rattle.rb_yaml.specs.QuotesView.{quoted_view};
ghost use Rattle.rb_yaml.specs.Scalars.{close_flaw, has_closing_quote, colon_flaw, complete, double_flaw, double_of, escape_flaw, gap, open_flaw, quoted_flaw, plain_flaw, plain_more, plain_of, single_more, single_of, single_over};
ghost use Rattle.rb_yaml.specs.Tree.{yaml_tree};
ghost use Rattle.std.specs.Prelude.{◌≡◌, ◌++◌, zero, string_bytes, OnOk, IfOk, slice_index, ◌<◌, option_copied};

use crate::faults::{either, fault_at, foremost};
use crate::flaw::{Excluded, Fault, Flaw, Stop};
use crate::line::SourceLine;
use crate::quotes::{Quoted, read_double, read_single};
use crate::rows::{first_content, is_blank_line, is_comment_line, tab_flaw};
use crate::signs::{
    behind_first, has_colon, has_comment, is_clear, plain_part, start_flaw, without_end,
};
use crate::yaml::{Yaml, scalar};
use rb_causes::{NoMemory, Text};
use std::alloc::Global;

/// A value that is complete: no line behind it may have content.
pub(crate) fn complete(value: Yaml, lines: &[SourceLine]) -> Result<Yaml, Stop<Fault>>
    ensures { Reads yaml_tree result (complete (yaml_tree value) lines.now) }
{
    match first_content(lines) {
        None => Ok(value),
        Some((line, _rest)) => {
            let flaw = foremost(Flaw::Indent, tab_flaw(line));
            Err(Stop::At(fault_at(line.number(), flaw)))
        }
    }
}

/// Adds what stands between two lines of a text: a blank, or a line feed for each blank line
/// between.
fn push_gap(out: &mut String, blanks: usize) -> Result<(), NoMemory>
    ensures { OnOk result (string_bytes out.new ≡ string_bytes out.old ++ gap blanks) }
{
    if blanks == 0 {
        out.push(' ')?;
        return Ok(());
    }
    for _ in 0..blanks {
        out.push('\n')?;
    }
    Ok(())
}

/// Whether the sign of a key stands in a line of a plain text.
fn colon_flaw(text: &str) -> Option<Flaw>
    ensures { result ≡ colon_flaw text.now }
{
    if has_colon(plain_part(text)) {
        return Some(Flaw::Form);
    }
    None
}

/// What is wrong with the first line of a plain text.
pub(crate) fn plain_flaw(text: &str) -> Option<Flaw>
    ensures { result ≡ plain_flaw text.now }
{
    either(start_flaw(text), colon_flaw(text))
}

/// Some line of the text that goes on has its closing quote.
fn has_closing_quote(alloc: Global, floor: usize, lines: &[SourceLine]) -> Result<bool, NoMemory>
    ensures { IfOk result (λ yes. yes ≡ has_closing_quote floor lines.now) }
{
    for line in lines {
        if !is_blank_line(line) {
            if line.indent() < floor {
                return Ok(false);
            }
            let quoted = read_single(alloc, line.text())?;
            if quoted.rest.is_some() {
                return Ok(true);
            }
        }
    }
    Ok(false)
}

/// Whether something stands behind the closing quote.
fn close_flaw(rest: Option<&str>) -> Option<Flaw>
    ensures { result ≡ close_flaw (option_copied rest.entry) }
{
    match rest {
        Some(rest) if !is_clear(rest) => Some(Flaw::Form),
        _ => None,
    }
}

/// Whether a double-quoted text has no closing quote on its line.
fn open_flaw(quoted: &Quoted) -> Option<Flaw>
    ensures { result ≡ open_flaw (quoted_view quoted.now) }
{
    if quoted.rest.is_none() {
        return Some(Flaw::OutOfProfile(Excluded::MultiLineDoubleQuote));
    }
    None
}

/// Whether an escape is not known.
fn escape_flaw(quoted: &Quoted) -> Option<Flaw>
    ensures { result ≡ escape_flaw (quoted_view quoted.now) }
{
    if quoted.good {
        return None;
    }
    Some(Flaw::Form)
}

/// What is wrong with a double-quoted text.
fn quoted_flaw(quoted: &Quoted) -> Option<Flaw>
    ensures { result ≡ quoted_flaw (quoted_view quoted.now) }
{
    let inside = either(escape_flaw(quoted), close_flaw(quoted.rest));
    either(open_flaw(quoted), inside)
}

/// What is wrong with a double-quoted text.
pub(crate) fn double_flaw(alloc: Global, text: &str) -> Result<Option<Flaw>, NoMemory>
    requires { slice_index text.now 0 < 128 }
    ensures { IfOk result (λ flaw. flaw ≡ double_flaw text.now) }
{
    let quoted = read_double(alloc, behind_first(text))?;
    Ok(quoted_flaw(&quoted))
}

/// A double-quoted text, which ends on its line.
pub(crate) fn double_of(
    alloc: Global,
    head: &SourceLine,
    lines: &[SourceLine],
) -> Result<Yaml, Stop<Fault>>
    requires { slice_index head.now.text 0 < 128 }
    ensures { Reads yaml_tree result (double_of head.now lines.now) }
{
    let quoted = read_double(alloc, behind_first(head.text()))?;
    if let Some(flaw) = quoted_flaw(&quoted) {
        return Err(Stop::At(fault_at(head.number(), flaw)));
    }
    complete(scalar(head.number(), quoted.text), lines)
}

/// A plain text, with the lines over which it goes on.
fn plain_more(
    alloc: Global,
    number: u32,
    text: &str,
    lines: &[SourceLine],
) -> Result<Yaml, Stop<Fault>>
    ensures { Reads yaml_tree result (plain_more number text.now zero lines.now) }
{
    let mut out = String::from_str(alloc, text)?;
    let mut blanks = 0;
    for (at, line) in lines.iter().enumerate() {
        if is_blank_line(line) {
            blanks += 1;
            continue;
        }
        if is_comment_line(line) {
            return complete(scalar(number, Text::from_string(out)), &lines[at + 1..]);
        }
        if let Some(flaw) = either(tab_flaw(line), colon_flaw(line.text())) {
            return Err(Stop::At(fault_at(line.number(), flaw)));
        }
        push_gap(&mut out, blanks)?;
        out.push_str(plain_part(line.text()))?;
        blanks = 0;
        if has_comment(line.text()) {
            return complete(scalar(number, Text::from_string(out)), &lines[at + 1..]);
        }
    }
    Ok(scalar(number, Text::from_string(out)))
}

/// A plain text at the beginning of a line. A comment ends it.
pub(crate) fn plain_of(
    alloc: Global,
    head: &SourceLine,
    lines: &[SourceLine],
) -> Result<Yaml, Stop<Fault>>
    ensures { Reads yaml_tree result (plain_of head.now lines.now) }
{
    let text = plain_part(head.text());
    if has_comment(head.text()) {
        return complete(scalar(head.number(), Text::of(alloc, text)?), lines);
    }
    plain_more(alloc, head.number(), text, lines)
}

/// A single-quoted text that its first line does not close, up to the line that does.
fn single_more(
    alloc: Global,
    number: u32,
    text: &str,
    lines: &[SourceLine],
) -> Result<Yaml, Stop<Fault>>
    ensures { Reads yaml_tree result (single_more number text.now zero lines.now) }
{
    let mut out = String::from_str(alloc, text)?;
    let mut blanks = 0;
    for (at, line) in lines.iter().enumerate() {
        if is_blank_line(line) {
            blanks += 1;
            continue;
        }
        let quoted = read_single(alloc, line.text())?;
        if let Some(flaw) = either(tab_flaw(line), close_flaw(quoted.rest)) {
            return Err(Stop::At(fault_at(line.number(), flaw)));
        }
        push_gap(&mut out, blanks)?;
        if quoted.rest.is_some() {
            out.push_str(quoted.text.as_str())?;
            return complete(scalar(number, Text::from_string(out)), &lines[at + 1..]);
        }
        out.push_str(without_end(quoted.text.as_str()))?;
        blanks = 0;
    }
    Ok(scalar(number, Text::from_string(out)))
}

/// A single-quoted text that its line does not close.
fn single_over(
    alloc: Global,
    floor: usize,
    head: &SourceLine,
    text: &str,
    lines: &[SourceLine],
) -> Result<Yaml, Stop<Fault>>
    ensures { Reads yaml_tree result (single_over floor head.now text.now lines.now) }
{
    if has_closing_quote(alloc, floor, lines)? {
        return single_more(alloc, head.number(), without_end(text), lines);
    }
    Err(Stop::At(fault_at(head.number(), Flaw::Form)))
}

/// A single-quoted text, with the lines over which it goes on.
pub(crate) fn single_of(
    alloc: Global,
    floor: usize,
    head: &SourceLine,
    lines: &[SourceLine],
) -> Result<Yaml, Stop<Fault>>
    requires { slice_index head.now.text 0 < 128 }
    ensures { Reads yaml_tree result (single_of floor head.now lines.now) }
{
    let quoted = read_single(alloc, behind_first(head.text()))?;
    if let Some(flaw) = close_flaw(quoted.rest) {
        return Err(Stop::At(fault_at(head.number(), flaw)));
    }
    if quoted.rest.is_some() {
        return complete(scalar(head.number(), quoted.text), lines);
    }
    single_over(alloc, floor, head, quoted.text.as_str(), lines)
}
