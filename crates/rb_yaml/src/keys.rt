//! The key that a text begins with.
ghost use Rattle.rb_yaml.specs.Keys.{is_lone_sign, plain_key, plain_key_part, behind_colon, quoted_key_part, key_part, begins_with_key, begins_collection};
ghost use Rattle.rb_yaml.specs.KeysView.{key_view};
ghost use Rattle.rb_yaml.specs.QuotesView.{quoted_view};
ghost use Rattle.std.specs.Prelude.{◌≡◌, option_map, option_copied, IfOk};

use crate::flaw::Flaw;
use crate::quotes::{Quoted, read_double, read_single};
use crate::signs::{
    begins, begins_item, begins_sign, behind_first, colon_at, past_blanks, start_flaw, without_end,
};
use rb_causes::{NoMemory, Text};
use std::alloc::Global;

/// A key as it is read, or what is wrong with it, and the text behind its colon.
#[derive(Drop)]
pub(crate) struct KeyPart<'a> {
    pub key: Result<Text, Flaw>,
    pub behind: &'a str,
}

/// Whether this is a question mark or a hyphen alone.
pub(crate) fn is_lone_sign(text: &str) -> bool
    ensures { result ≡ is_lone_sign text.now }
{
    let bytes = text.as_bytes();
    bytes.len() == 1 && (bytes[0] == b'?' || bytes[0] == b'-')
}

/// A plain key: all that stands before the colon.
fn plain_key(alloc: Global, front: &str) -> Result<Result<Text, Flaw>, NoMemory>
    ensures { IfOk result (λ key. key ≡ plain_key front.now) }
{
    if is_lone_sign(front) {
        return Ok(Ok(Text::of(alloc, front)?));
    }
    let text = without_end(front);
    match start_flaw(text) {
        Some(flaw) => Ok(Err(flaw)),
        None => Ok(Ok(Text::of(alloc, text)?)),
    }
}

fn plain_key_part<'a>(alloc: Global, text: &'a str) -> Result<Option<KeyPart<'a>>, NoMemory>
    ensures { IfOk result (λ part. option_map key_view part ≡ plain_key_part text.now) }
{
    if text.is_empty() {
        return Ok(None);
    }
    match colon_at(&text.as_bytes()[1..]) {
        None => Ok(None),
        Some(at) => {
            let (front, rest) = text.split_at(at + 1);
            let key = plain_key(alloc, front)?;
            Ok(Some(KeyPart {
                key,
                behind: behind_first(rest),
            }))
        }
    }
}

/// What follows a quoted key: blanks, and the sign of a key.
fn behind_colon(rest: &str) -> Option<&str>
    ensures { option_copied result ≡ behind_colon rest.now }
{
    let colon = past_blanks(rest);
    if begins_sign(b':', colon.as_bytes()) {
        Some(behind_first(colon))
    } else {
        None
    }
}

fn quoted_key_part<'a>(quoted: Quoted<'a>) -> Option<KeyPart<'a>>
    ensures { option_map key_view result ≡ quoted_key_part (quoted_view quoted.entry) }
{
    let Quoted { text, good, rest } = quoted;
    match rest {
        None => None,
        Some(rest) => match behind_colon(rest) {
            None => None,
            Some(behind) => {
                let key = if good { Ok(text) } else { Err(Flaw::Form) };
                Some(KeyPart { key, behind })
            }
        },
    }
}

/// The key that the text begins with, where a colon follows it as a sign.
pub(crate) fn key_part<'a>(alloc: Global, text: &'a str) -> Result<Option<KeyPart<'a>>, NoMemory>
    ensures { IfOk result (λ part. option_map key_view part ≡ key_part text.now) }
{
    if begins(b'"', text) {
        return Ok(quoted_key_part(read_double(alloc, behind_first(text))?));
    }
    if begins(b'\'', text) {
        return Ok(quoted_key_part(read_single(alloc, behind_first(text))?));
    }
    if begins(b'[', text) || begins(b'{', text) || begins(b'|', text) {
        return Ok(None);
    }
    plain_key_part(alloc, text)
}

pub(crate) fn begins_with_key(alloc: Global, text: &str) -> Result<bool, NoMemory>
    ensures { IfOk result (λ yes. yes ≡ begins_with_key text.now) }
{
    let part = key_part(alloc, text)?;
    Ok(part.is_some())
}

/// Whether the text begins a sequence or a map.
pub(crate) fn begins_collection(alloc: Global, text: &str) -> Result<bool, NoMemory>
    ensures { IfOk result (λ yes. yes ≡ begins_collection text.now) }
{
    if begins_item(text) {
        return Ok(true);
    }
    begins_with_key(alloc, text)
}
