//! The text that a file's bytes are.
ghost use Rattle.rb_session.specs.Fetching.{IsTextUnread};
ghost use Rattle.rb_yaml.specs.Telling.{whole_fault};
ghost use Rattle.std.specs.Prelude.{◌≡◌, ◌≢◌, IfErr, IfNone, IfOk, IfSome, None, OnOk, Some};

use crate::unread::Unread;
use rb_causes::Text;
use rb_yaml::{YamlErr, YamlFault, read_docs};
use std::alloc::Global;
use std::str;

/// How many bytes a document has at most.
const MOST_BYTES: usize = 1_048_576;

/// The text of a document, unless it is too large, or else has a byte that is no text. What else
/// may be wrong with it is found when it is imported.
pub(crate) fn whole_text(alloc: Global, bytes: &[u8]) -> Result<Text, Unread>
    ensures text { IfOk result (λ text. text ≡ bytes.now) }
    ensures sound { OnOk result (whole_fault bytes.now ≡ None) }
    ensures unread { IfErr result (λ u. IsTextUnread bytes.now u) }
{
    match sound_text(bytes) {
        Some(text) => Ok(Text::of(alloc, text)?),
        None => Err(Unread::NotText(whole_fault_of(alloc, bytes))),
    }
}

/// The bytes as a text, where they are one and not too many.
fn sound_text(bytes: &[u8]) -> Option<&str>
    ensures text { IfSome result (λ text. text.now ≡ bytes.now) }
    ensures sound { IfSome result (λ _. whole_fault bytes.now ≡ None) }
    ensures unsound { IfNone result (whole_fault bytes.now ≢ None) }
{
    if MOST_BYTES < bytes.len() {
        return None;
    }
    match str::from_utf8(bytes) {
        Ok(text) => Some(text),
        Err(_) => None,
    }
}

/// What is wrong with these bytes as a whole: the reader of documents tells that before all else.
fn whole_fault_of(alloc: Global, bytes: &[u8]) -> YamlFault
    requires { whole_fault bytes.now ≢ None }
    ensures { whole_fault bytes.now ≡ Some result }
{
    match read_docs(alloc, bytes) {
        Err(YamlErr::Fault(fault)) => fault,
        _ => unreachable!(),
    }
}
