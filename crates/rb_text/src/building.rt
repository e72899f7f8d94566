//! What is built of a pattern.
ghost use Rattle.rb_text.specs.Causes.{IsCompiled, IsCompilingCause};
ghost use Rattle.rb_text.specs.Matching.{IsUnread, whole_form};
ghost use Rattle.std.specs.Prelude.{◌≡◌, string_bytes, IfOk, OnOk, IfErr, IfSome, if◌then◌else◌};

use crate::pattern_err::PatternErr;
use crate::room::Room;
use rb_causes::NoMemory;
use regex::{Error, Regex, RegexBuilder};
use std::alloc::{AllocError, Global};

/// Tables of up to so many bytes are kept, each size with the room that it may take.
const KEPT_TABLES: [usize; 4] = [2_048, 16_384, 131_072, 1_048_576];

/// A pattern that is built and kept, with the bytes that it may take.
#[derive(Drop)]
pub(crate) struct Built {
    pub(crate) whole: Regex,
    pub(crate) weight: usize,
}

/// The form of the text that matches a text whole.
pub(crate) fn whole_form_of(alloc: Global, text: &str) -> Result<String, AllocError>
    ensures { IfOk result (λ form. string_bytes form ≡ whole_form text.now) }
{
    format!(in alloc; "\\A(?:{text})\\z")
}

/// The compiled form. What is read and refused was too big, unless the text is light.
fn compiled(alloc: Global, form: &str, is_light: bool) -> Result<Regex, PatternErr>
    ensures ok { IfOk result (λ r. IsCompiled form.now r) }
    ensures err { IfErr result (IsCompilingCause form.now is_light) }
{
    match Regex::new(alloc, form) {
        Ok(whole) => Ok(whole),
        Err(Error::Syntax(_)) => Err(PatternErr::BadPattern),
        Err(Error::CompiledTooBig) => Err(too_big(is_light)),
        Err(Error::Internal) => Err(PatternErr::NoMemory),
        Err(Error::OutOfMemory) => Err(PatternErr::NoMemory),
    }
}

/// Why `regex` refused what it read.
fn too_big(is_light: bool) -> PatternErr
    ensures { result ≡ (if is_light then PatternErr.NoMemory else PatternErr.TooBig) }
{
    if is_light {
        PatternErr::NoMemory
    } else {
        PatternErr::TooBig
    }
}

/// Looks whether the form is compiled, and keeps what is built where there is room for it.
pub(crate) fn tried(
    alloc: Global,
    form: &str,
    is_light: bool,
    room: &mut Room,
) -> Result<Option<Built>, PatternErr>
    ensures read { OnOk result (IsUnread form.now → ⊥) }
    ensures built { IfOk result (λ built. IfSome built (λ b. IsCompiled form.now b.whole)) }
    ensures err { IfErr result (IsCompilingCause form.now is_light) }
{
    match kept(alloc, form, room) {
        Some(built) => Ok(Some(built)),
        None => {
            compiled(alloc, form, is_light)?;
            Ok(None)
        }
    }
}

/// The compiled form of a text that was read as a pattern before: a refusal now counts as want of
/// memory.
pub(crate) fn rebuilt(alloc: Global, text: &str) -> Result<Regex, NoMemory>
    ensures { IfOk result (λ r. IsCompiled (whole_form text.now) r) }
{
    let form = whole_form_of(alloc, text)?;
    match compiled(alloc, form.as_str(), true) {
        Ok(built) => Ok(built),
        Err(_) => Err(NoMemory),
    }
}

/// The compiled form where its tables are small and there is room for it.
fn kept(alloc: Global, form: &str, room: &mut Room) -> Option<Built>
    ensures { IfSome result (λ b. IsCompiled form.now b.whole) }
{
    for tables in &KEPT_TABLES {
        let built = kept_within(alloc, form, *tables, room);
        if built.is_some() {
            return built;
        }
    }
    None
}

/// The compiled form where its tables have at most so many bytes and there is room for it.
fn kept_within(alloc: Global, form: &str, tables: usize, room: &mut Room) -> Option<Built>
    ensures { IfSome result (λ b. IsCompiled form.now b.whole) }
{
    // What is built takes a little more than twice its tables, and some fixed fields.
    let weight = tables.saturating_mul(3).saturating_add(8_192);
    if !room.has(weight) {
        return None;
    }
    match RegexBuilder::new(form).size_limit(tables).build(alloc) {
        Ok(whole) => {
            room.take(weight);
            Some(Built { whole, weight })
        }
        Err(_) => None,
    }
}
