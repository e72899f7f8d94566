//! The lines that are told.
use crate::advice::saying;
use crate::piece::Piece;
use crate::remark::{Matter, Remark};
use crate::signs::holds;
use crate::told::Told;
use crate::ways::way_of;
use rb_causes::{NoMemory, Text};
use std::alloc::Global;

/// A text of more bytes is not shown.
const MOST_SHOWN: usize = 120;

/// The number of the last row, up to this one, in which the key stands; this one, where none does.
fn key_line(file: &str, key: &str, line: u32) -> u32 {
    let mut found = line;
    let mut number: u32 = 0;
    for row in file.split('\n') {
        number = number.saturating_add(1);
        if number > line {
            return found;
        }
        if holds(row.as_bytes(), key.as_bytes()) {
            found = number;
        }
    }
    found
}

/// Whether a terminal would take the sign for more than a letter: control signs, and those that
/// turn the direction of what is written.
fn is_control(sign: char) -> bool {
    let code = sign as u32;
    code < 32
        || 127 <= code && code < 160
        || 0x200E <= code && code <= 0x200F
        || 0x2028 <= code && code <= 0x202E
        || 0x2066 <= code && code <= 0x2069
}

/// A text in which control signs are written by their numbers.
fn escaped(alloc: Global, text: &str) -> Result<Text, NoMemory> {
    let mut shown = String::new(alloc);
    for sign in text.chars() {
        if is_control(sign) {
            let code = sign as u32;
            let number = format!(in alloc; "\\u{{{code:x}}}")?;
            shown.push_str(number.as_str())?;
        } else {
            shown.push(sign)?;
        }
    }
    Ok(Text::from_string(shown))
}

fn shown(text: &str) -> &str {
    if text.len() <= MOST_SHOWN {
        text
    } else {
        "the text"
    }
}

/// What a remark says behind its place: the text that it speaks of, what is the matter with it,
/// and the way out.
fn said(alloc: Global, remark: &Remark) -> Result<String, NoMemory> {
    let saying = saying(remark.matter);
    if let Matter::Unread = remark.matter {
        let way = way_of(remark.key);
        return Ok(format!(in alloc; "{saying}: {way}")?);
    }
    if remark.text.is_empty() {
        return Ok(String::from_str(alloc, saying)?);
    }
    let text = shown(remark.text);
    Ok(format!(in alloc; "`{text}` {saying}")?)
}

/// Whether the remark is on a map as a whole, in which its key does not stand.
fn is_of_map(matter: Matter) -> bool {
    matches!(
        matter,
        Matter::Missing
            | Matter::MissingContext
            | Matter::NoOneAct
            | Matter::NoNodeStep
            | Matter::NoAction
    )
}

/// The line that a remark is on.
fn told_line(text: &str, remark: &Remark) -> u32 {
    if is_of_map(remark.matter) {
        return remark.line;
    }
    key_line(text, remark.key, remark.line)
}

/// The line of a remark on a subject.
fn remark_line(
    alloc: Global,
    piece: Piece,
    subject: &str,
    remark: &Remark,
) -> Result<Text, NoMemory> {
    let line = told_line(piece.text, remark).saturating_add(piece.above);
    let key = remark.key;
    let said = said(alloc, remark)?;
    let said = said.as_str();
    let text = format!(in alloc; "{subject}, line {line}: {key}: {said}")?;
    escaped(alloc, text.as_str())
}

/// Tells the remarks on a subject.
pub(crate) fn tell_found(
    alloc: Global,
    lines: &mut Told,
    piece: Piece,
    subject: &str,
    found: &[Remark],
) -> Result<(), NoMemory> {
    for remark in found {
        if lines.is_full() {
            return Ok(());
        }
        lines.add(remark_line(alloc, piece, subject, remark)?)?;
    }
    Ok(())
}
