ghost use Rattle.rb_text.specs.Causes.{IsCause};
ghost use Rattle.rb_text.specs.Matching.{IsPatternText, IsSure};
ghost use Rattle.rb_text.specs.Values.{is_plain_sign, is_plain, is_plain_value, value_of, value_is, text_of, TakesNone};
ghost use Rattle.std.specs.Char.{is_ascii_alphanumeric};
ghost use Rattle.std.specs.List.{list_any};
ghost use Rattle.std.specs.Prelude.{◌≡◌, ◌||◌, bytes_eq, map, IfOk, OnOk, IsOk, IfErr, true, false};

use crate::pattern::Pattern;
use crate::pattern_err::PatternErr;
use crate::room::Room;
use rb_causes::{NoMemory, Text};
use std::alloc::Global;

/// What a text is compared with.
#[derive(Drop)]
pub enum Value {
    /// This very text.
    Plain(Text),
    /// What this pattern matches whole.
    Pattern(Pattern),
}

impl Value {
    /// Reads a text: of letters and digits of ASCII and `_ . : @ -` alone it stands for itself, and
    /// else it is a pattern, of which nothing that is built is kept.
    pub fn read(alloc: Global, text: &str) -> Result<Value, PatternErr>
        ensures value { IfOk result (λ v. v ≡ value_of text.now) }
        ensures reads { OnOk result (is_plain text.now ≡ false → IsPatternText text.now) }
        ensures plain { IfErr result (λ e. is_plain text.now ≡ true → e ≡ PatternErr.NoMemory) }
        ensures cause { IfErr result (λ e. is_plain text.now ≡ false → IsCause text.now e) }
        ensures sure { IfErr result (λ e. IsSure text.now → e ≡ PatternErr.NoMemory) }
    {
        Value::read_in(alloc, text, &mut Room::none())
    }

    /// Reads a text as `read` does, and keeps what is built of a pattern where there is room for
    /// it.
    pub fn read_in(alloc: Global, text: &str, room: &mut Room) -> Result<Value, PatternErr>
        ensures value { IfOk result (λ v. v ≡ value_of text.now) }
        ensures reads { OnOk result (is_plain text.now ≡ false → IsPatternText text.now) }
        ensures plain { IfErr result (λ e. is_plain text.now ≡ true → e ≡ PatternErr.NoMemory) }
        ensures cause { IfErr result (λ e. is_plain text.now ≡ false → IsCause text.now e) }
        ensures sure { IfErr result (λ e. IsSure text.now → e ≡ PatternErr.NoMemory) }
    {
        if is_plain(text) {
            return Ok(Value::Plain(Text::of(alloc, text)?));
        }
        Ok(Value::Pattern(Pattern::build_in(alloc, text, room)?))
    }

    /// Lets go of what is built of a pattern where there is no room for it.
    pub fn fit_in(&mut self, room: &mut Room)
        ensures { self.new ≡ self.old }
    {
        match self {
            Value::Plain(_) => {}
            Value::Pattern(pattern) => pattern.fit_in(room),
        }
    }

    /// Whether the value holds of `s`. Only want of memory refuses, and a plain value takes none.
    pub fn is(&self, alloc: Global, s: &str) -> Result<bool, PatternErr>
        ensures found { IfOk result (λ yes. yes ≡ value_is self.now s.now) }
        ensures memory { IfErr result (λ e. e ≡ PatternErr.NoMemory) }
        ensures plain { TakesNone self.now result }
    {
        match self {
            Value::Plain(text) => Ok(text.as_str() == s),
            Value::Pattern(pattern) => pattern.whole(alloc, s),
        }
    }

    /// Whether the value holds of `s`, as `is` tells it: what refuses it is want of memory.
    pub fn holds_of(&self, alloc: Global, s: &str) -> Result<bool, NoMemory>
        ensures found { IfOk result (λ yes. yes ≡ value_is self.now s.now) }
        ensures memory { is_plain_value self.now ≡ true → IsOk result }
    {
        match self.is(alloc, s) {
            Ok(yes) => Ok(yes),
            Err(_) => Err(NoMemory),
        }
    }

    /// Whether the value holds of one of the texts.
    pub fn holds_of_any(&self, alloc: Global, texts: &[Text]) -> Result<bool, NoMemory>
        ensures found { IfOk result (λ yes. yes ≡ list_any (value_is self.now) texts.now) }
        ensures memory { is_plain_value self.now ≡ true → IsOk result }
    {
        match self {
            Value::Plain(text) => Ok(equals_any(text, texts)),
            Value::Pattern(pattern) => pattern.whole_of_any(alloc, texts),
        }
    }

    /// For each of the lists, whether the value holds of one of its texts.
    pub fn holds_of_each(&self, alloc: Global, lists: &[&[Text]]) -> Result<Vec<bool>, NoMemory>
        ensures { IfOk result (λ marks. marks.items
            ≡ map (list_any (value_is self.now)) (map (λ texts. texts.now) lists.now)) }
    {
        match self {
            Value::Plain(text) => equals_any_of_each(alloc, text, lists),
            Value::Pattern(pattern) => pattern.whole_of_each(alloc, lists),
        }
    }

    /// The text that was read.
    pub fn text(&self) -> &str
        ensures { result.now ≡ text_of self.now }
    {
        match self {
            Value::Plain(text) => text.as_str(),
            Value::Pattern(pattern) => pattern.text(),
        }
    }
}

/// Whether the text is one of these.
fn equals_any(text: &Text, texts: &[Text]) -> bool
    ensures { result ≡ list_any (bytes_eq text.now) texts.now }
{
    texts.iter().any(|other| text.as_str() == other.as_str())
}

/// For each of the lists, whether the text is one of it.
fn equals_any_of_each(alloc: Global, text: &Text, lists: &[&[Text]]) -> Result<Vec<bool>, NoMemory>
    ensures { IfOk result (λ marks. marks.items
        ≡ map (list_any (bytes_eq text.now)) (map (λ texts. texts.now) lists.now)) }
{
    let mut marks = Vec::with_capacity(alloc, lists.len())?;
    for texts in lists {
        marks.push(equals_any(text, *texts))?;
    }
    Ok(marks)
}

/// Whether the text is only letters, digits and these signs.
fn is_plain(text: &str) -> bool
    ensures { result ≡ is_plain text.now }
{
    text.as_bytes().iter().all(|b| is_plain_byte(*b))
}

fn is_plain_byte(b: u8) -> bool
    ensures { result ≡ (is_ascii_alphanumeric b || is_plain_sign b) }
{
    b.is_ascii_alphanumeric() || matches!(b, b'_' | b'.' | b':' | b'@' | b'-')
}
