//! A text as numbered lines.
ghost use Rattle.rb_yaml.specs.Rows.{row_of, without_return, rows_of, is_blank_row, is_comment_row, is_content, is_tabbed, tab_flaw, first_content};
ghost use Rattle.rb_yaml.specs.RowsView.{first_view};
ghost use Rattle.std.specs.Prelude.{◌≡◌, ◌≤◌, ◌^◌, length, IfOk};

use crate::flaw::Flaw;
use crate::line::SourceLine;
use crate::signs::{begins, is_blank, past_blanks};
use rb_causes::NoMemory;
use std::alloc::Global;

/// The line of this number and text.
fn line_of<'a>(number: u32, text: &'a str) -> SourceLine<'a>
    ensures { result ≡ row_of number text.now }
{
    let bytes = text.as_bytes();
    let mut indent = 0;
    while indent < bytes.len() && bytes[indent] == b' ' {
        indent += 1;
    }
    SourceLine::at(number, indent, &text[indent..])
}

/// A line that ended with CR LF, without its CR.
fn without_return(text: &str) -> &str
    ensures { result.now ≡ without_return text.now }
{
    let bytes = text.as_bytes();
    if bytes.is_empty() {
        return text;
    }
    let last = bytes.len() - 1;
    if bytes[last] != b'\r' {
        return text;
    }
    &text[..last]
}

/// The lines of a text.
pub(crate) fn read_lines<'a>(alloc: Global, text: &'a str) -> Result<Vec<SourceLine<'a>>, NoMemory>
    requires { length text.now ≤ 2 ^ 20 }
    ensures { IfOk result (λ v. v.items ≡ rows_of text.now) }
{
    let mut lines = Vec::new(alloc);
    let mut rest = text;
    let mut number = 1;
    while let Some((front, behind)) = rest.split_once('\n') {
        lines.push(line_of(number, without_return(front)))?;
        rest = behind;
        number += 1;
    }
    lines.push(line_of(number, rest))?;
    Ok(lines)
}

pub(crate) fn is_blank_line(line: &SourceLine) -> bool
    ensures { result ≡ is_blank_row line.now }
{
    for byte in line.text().as_bytes() {
        if !is_blank(*byte) {
            return false;
        }
    }
    true
}

pub(crate) fn is_comment_line(line: &SourceLine) -> bool
    ensures { result ≡ is_comment_row line.now }
{
    begins(b'#', past_blanks(line.text()))
}

/// Whether the line is neither blank nor a comment.
pub(crate) fn is_content(line: &SourceLine) -> bool
    ensures { result ≡ is_content line.now }
{
    !is_blank_line(line) && !is_comment_line(line)
}

/// Whether a tab stands among the blanks that a line begins with which is not blank.
fn is_tabbed(line: &SourceLine) -> bool
    ensures { result ≡ is_tabbed line.now }
{
    begins(b'\t', line.text())
}

pub(crate) fn tab_flaw(line: &SourceLine) -> Option<Flaw>
    ensures { result ≡ tab_flaw line.now }
{
    if is_tabbed(line) {
        return Some(Flaw::Tab);
    }
    None
}

/// The first line with content, and the lines behind it.
pub(crate) fn first_content<'s, 'a>(
    lines: &'s [SourceLine<'a>],
) -> Option<(&'s SourceLine<'a>, &'s [SourceLine<'a>])>
    ensures { first_view result ≡ first_content lines.now }
{
    for (at, line) in lines.iter().enumerate() {
        if is_content(line) {
            return Some((line, &lines[at + 1..]));
        }
    }
    None
}
