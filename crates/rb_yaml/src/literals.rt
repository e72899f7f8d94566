//! Literals: texts whose lines stand as they are.
ghost use Rattle.rb_yaml.specs.Faults.{Reads};
ghost use Rattle.rb_yaml.specs.RowsView.{one_view};
ghost use Rattle.rb_yaml.specs.Rows.{is_blank_row};
ghost use Rattle.rb_yaml.specs.ScalarsView.{rows_view};
ghost use Rattle.std.specs.List.{list_all};
ghost use Rattle.rb_causes.specs.Signs.{line_feed, space};
ghost use Rattle.rb_causes.specs.Texts.{is_blank};
ghost use Rattle.rb_yaml.specs.Literals.{behind_bar, ends_literal, first_filled, is_misplaced, literal_at, literal_flaw, literal_of, literal_rows, literal_text, taken_off, width, without_feeds};
ghost use Rattle.rb_yaml.specs.Tree.{yaml_tree};
ghost use Rattle.std.specs.Prelude.{◌≡◌, ◌≤◌, ◌<◌, ◌++◌, ◌∷◌, [], ◌⊎◌, true, false, drop, replicate, nat_lt, ◌||◌, ◌&&◌, string_bytes, OnOk, IfOk, slice_index};

use crate::faults::fault_at;
use crate::flaw::{Excluded, Fault, Flaw, Stop};
use crate::line::SourceLine;
use crate::rows::{is_blank_line, is_comment_line};
use crate::scalars::complete;
use crate::signs::{begins, behind_first, is_clear};
use crate::yaml::{Yaml, scalar};
use rb_causes::{NoMemory, Text};
use std::alloc::Global;

/// What stands behind the bar and its hyphen.
fn behind_bar(text: &str) -> &str
    requires { slice_index text.now 0 < 128 }
    ensures { result.now ≡ behind_bar text.now }
{
    let behind = behind_first(text);
    if begins(b'-', behind) {
        behind_first(behind)
    } else {
        behind
    }
}

/// What is wrong with the first line of a literal.
pub(crate) fn literal_flaw(text: &str) -> Option<Flaw>
    requires { slice_index text.now 0 < 128 }
    ensures { result ≡ literal_flaw text.now }
{
    if is_clear(behind_bar(text)) {
        return None;
    }
    Some(Flaw::OutOfProfile(Excluded::LiteralForm))
}

/// The first line that is not blank.
fn first_filled<'s, 'a>(lines: &'s [SourceLine<'a>]) -> Option<&'s SourceLine<'a>>
    ensures { one_view result ≡ first_filled lines.now }
{
    for line in lines {
        if !is_blank_line(line) {
            return Some(line);
        }
    }
    None
}

fn push_spaces(out: &mut String, count: usize) -> Result<(), NoMemory>
    ensures { OnOk result (string_bytes out.new ≡ string_bytes out.old ++ replicate count space) }
{
    for _ in 0..count {
        out.push(' ')?;
    }
    Ok(())
}

/// A text of blanks without so many of them.
fn without_blanks(text: &str, extra: usize) -> &str
    requires { list_all is_blank text.now ≡ true }
    ensures { result.now ≡ drop extra text.now }
{
    if extra < text.len() {
        &text[extra..]
    } else {
        ""
    }
}

/// Adds the bytes of a line without so many blanks, and a line feed.
fn push_line(out: &mut String, indent: usize, line: &SourceLine) -> Result<(), NoMemory>
    requires { (is_blank_row line.now ≡ true) ⊎ (indent ≤ line.now.indent) }
    ensures { OnOk result (string_bytes out.new ≡
        string_bytes out.old ++ taken_off indent line.now ++ line_feed ∷ []) }
{
    if indent <= line.indent() {
        push_spaces(out, line.indent() - indent)?;
        out.push_str(line.text())?;
        out.push('\n')?;
        return Ok(());
    }
    out.push_str(without_blanks(line.text(), indent - line.indent()))?;
    out.push('\n')?;
    Ok(())
}

/// The text without the line feeds at its end.
fn without_feeds(text: &str) -> &str
    ensures { result.now ≡ without_feeds text.now }
{
    let bytes = text.as_bytes();
    let mut end = bytes.len();
    while end > 0 && bytes[end - 1] == b'\n' {
        end -= 1;
    }
    &text[..end]
}

/// The text of the lines: the line feeds at the end fall away, but one where it is kept.
fn literal_text(alloc: Global, keep: bool, text: &str) -> Result<Text, NoMemory>
    ensures { IfOk result (λ made. made ≡ literal_text keep text.now) }
{
    let mut made = String::from_str(alloc, without_feeds(text))?;
    if keep && !made.is_empty() {
        made.push('\n')?;
    }
    Ok(Text::from_string(made))
}

/// Whether the line has more bytes than this.
fn is_wider(line: &SourceLine, limit: usize) -> bool
    ensures { result ≡ nat_lt limit (width line.now) }
{
    line.indent() > limit || line.text().len() > limit - line.indent()
}

/// Whether a literal of this indent ends before the line.
fn ends_literal(floor: usize, indent: usize, line: &SourceLine) -> bool
    ensures { result ≡ ends_literal floor indent line.now }
{
    if is_blank_line(line) {
        return false;
    }
    line.indent() < floor || is_comment_line(line) && line.indent() < indent
}

/// Whether the line has an indent that no line of the literal has; are all lines so far blank?
fn is_misplaced(indent: usize, leading: bool, line: &SourceLine) -> bool
    ensures exact { result ≡ is_misplaced indent leading line.now }
    ensures inside { result ≡ false → (is_blank_row line.now ≡ true) ⊎ (indent ≤ line.now.indent) }
{
    if is_blank_line(line) {
        return leading && is_wider(line, indent);
    }
    line.indent() < indent
}

/// Whether all lines are blank yet.
fn still_leading(leading: bool, line: &SourceLine) -> bool
    ensures { result ≡ (leading && is_blank_row line.now) }
{
    leading && is_blank_line(line)
}

/// The text of a literal's lines, each ended by a line feed, and the lines behind it.
fn literal_rows<'s, 'a>(
    alloc: Global,
    floor: usize,
    indent: usize,
    lines: &'s [SourceLine<'a>],
) -> Result<(String, &'s [SourceLine<'a>]), Stop<Fault>>
    ensures { Reads rows_view result (literal_rows floor indent true lines.now) }
{
    let mut out = String::new(alloc);
    let mut leading = true;
    for (at, line) in lines.iter().enumerate() {
        if ends_literal(floor, indent, line) {
            return Ok((out, &lines[at..]));
        }
        if is_misplaced(indent, leading, line) {
            return Err(Stop::At(fault_at(line.number(), Flaw::Indent)));
        }
        push_line(&mut out, indent, line)?;
        leading = still_leading(leading, line);
    }
    Ok((out, &[]))
}

/// The literal behind its first line.
fn literal_at(
    alloc: Global,
    number: u32,
    floor: usize,
    keep: bool,
    lines: &[SourceLine],
) -> Result<Yaml, Stop<Fault>>
    ensures { Reads yaml_tree result
        (literal_at number floor keep (first_filled lines.now) lines.now) }
{
    match first_filled(lines) {
        None => complete(scalar(number, Text::of(alloc, "")?), lines),
        Some(first) => {
            if first.indent() < floor {
                return complete(scalar(number, Text::of(alloc, "")?), lines);
            }
            let (text, rest) = literal_rows(alloc, floor, first.indent(), lines)?;
            complete(
                scalar(number, literal_text(alloc, keep, text.as_str())?),
                rest,
            )
        }
    }
}

/// A literal: `|` keeps one line feed at its end, `|-` none.
pub(crate) fn literal_of(
    alloc: Global,
    floor: usize,
    head: &SourceLine,
    lines: &[SourceLine],
) -> Result<Yaml, Stop<Fault>>
    requires { slice_index head.now.text 0 < 128 }
    ensures { Reads yaml_tree result (literal_of floor head.now lines.now) }
{
    let keep = !begins(b'-', behind_first(head.text()));
    literal_at(alloc, head.number(), floor, keep, lines)
}
