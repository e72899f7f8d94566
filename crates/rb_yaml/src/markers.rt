//! Lines at column 0 that separate documents, or that are not read.
ghost use Rattle.rb_yaml.specs.Markers.{behind_mark, is_mark, is_marker, marker_flaw};
ghost use Rattle.std.specs.Prelude.{◌≡◌, ◌<◌, option_copied};

use crate::flaw::{Excluded, Flaw};
use crate::line::SourceLine;
use crate::signs::{begins, behind_first, ends_sign, is_clear};

/// What stands behind three times this byte.
fn behind_mark(byte: u8, text: &str) -> Option<&str>
    requires { byte < 128 }
    ensures { option_copied result ≡ behind_mark byte text.now }
{
    if !begins(byte, text) {
        return None;
    }
    let second = behind_first(text);
    if !begins(byte, second) {
        return None;
    }
    let third = behind_first(second);
    if !begins(byte, third) {
        return None;
    }
    Some(behind_first(third))
}

/// Three times this byte, and then a blank or the end.
fn is_mark(byte: u8, text: &str) -> bool
    requires { byte < 128 }
    ensures { result ≡ is_mark byte text.now }
{
    match behind_mark(byte, text) {
        Some(rest) => ends_sign(rest.as_bytes()),
        None => false,
    }
}

/// Whether the line separates documents, or is a form that is not read, whatever node is open.
pub(crate) fn is_marker(line: &SourceLine) -> bool
    ensures { result ≡ is_marker line.now }
{
    if line.indent() != 0 {
        return false;
    }
    begins(b'%', line.text()) || is_mark(b'.', line.text()) || is_mark(b'-', line.text())
}

/// What is wrong with a line that separates documents or is not read.
pub(crate) fn marker_flaw(line: &SourceLine) -> Option<Flaw>
    ensures { result ≡ marker_flaw line.now }
{
    let text = line.text();
    if begins(b'%', text) {
        return Some(Flaw::OutOfProfile(Excluded::Directive));
    }
    if begins(b'.', text) {
        return Some(Flaw::OutOfProfile(Excluded::DocumentEnd));
    }
    match behind_mark(b'-', text) {
        Some(rest) if is_clear(rest) => None,
        _ => Some(Flaw::OutOfProfile(Excluded::InlineDocument)),
    }
}
