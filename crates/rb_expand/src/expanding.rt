ghost use Rattle.rb_expand.specs.Expanded.{word_expanded, words_expanded, script_expanded, expanded, pieces_text, expanded_piece, listed_text};
ghost use Rattle.rb_expand.specs.Pieces.{piece_by, passed_by, if_replaced, pieces_behind};
ghost use Rattle.std.specs.Prelude.{◌≡◌, ◌++◌, Some, IfOk, OnOk, drop, chars, string_bytes};
ghost use Rattle.std.specs.Str.{encode_utf8_all};

use crate::naming::{any_name_at, is_replaced};
use crate::style::Style;
use rb_causes::{NoMemory, Prop, Text};
use std::alloc::{AllocError, Global};

/// The words of a command in which names stand for values: `${NAME}`, where NAME has letters and
/// digits of ASCII and `_ . -`, and begins with `option.`, `node.` or `job.`. A name that is not
/// listed stands for nothing, and what is put in is not read again. So a word stays one word,
/// whatever its values hold.
pub fn words_of(alloc: Global, template: &[Text], names: &[Prop]) -> Result<Vec<Text>, NoMemory>
    ensures { IfOk result (λ words. words.items ≡ words_expanded names.now template.now) }
{
    let mut words = Vec::new(alloc);
    for word in template {
        words.push(word_of(alloc, word.as_str(), names)?)?;
    }
    Ok(words)
}

/// One word in which names stand for values, by the rule of `words_of`.
pub fn word_of(alloc: Global, template: &str, names: &[Prop]) -> Result<Text, NoMemory>
    ensures { IfOk result (λ word. word ≡ word_expanded names.now template.now) }
{
    expanded(alloc, Style::Word, template, names)
}

/// A script in which names stand for values: `@NAME@`, by the same rule.
pub fn script_of(alloc: Global, template: &str, names: &[Prop]) -> Result<Text, NoMemory>
    ensures { IfOk result (λ script. script ≡ script_expanded names.now template.now) }
{
    expanded(alloc, Style::Script, template, names)
}

fn expanded(alloc: Global, style: Style, template: &str, names: &[Prop]) -> Result<Text, NoMemory>
    ensures { IfOk result (λ text. text ≡ expanded style names.now template.now) }
{
    let chars = chars_of(alloc, template)?;
    expanded_chars(alloc, style, chars.as_slice(), names)
}

fn chars_of(alloc: Global, text: &str) -> Result<Vec<char>, AllocError>
    ensures { IfOk result (λ cs. cs.items ≡ chars text.now) }
{
    text.chars().collect(alloc)
}

fn expanded_chars(
    alloc: Global,
    style: Style,
    chars: &[char],
    names: &[Prop],
) -> Result<Text, NoMemory>
    ensures { IfOk result (λ text. text ≡ pieces_text names.now (pieces_behind style 0 chars.now)) }
{
    let mut out = String::new(alloc);
    let mut passed = 0;
    for (i, _) in chars.iter().enumerate() {
        passed = step(alloc, &mut out, style, passed, &chars[i..], names)?;
    }
    Ok(Text::from_string(out))
}

/// Puts the piece at the front of the rest, unless its first character belongs to a name that was
/// put. Gives how many more are to be passed over.
fn step(
    alloc: Global,
    out: &mut String,
    style: Style,
    passed: usize,
    rest: &[char],
    names: &[Prop],
) -> Result<usize, NoMemory>
    ensures { IfOk result (λ more.
        string_bytes out.new ++ pieces_text names.now (pieces_behind style more (drop 1 rest.now))
        ≡ string_bytes out.old ++ pieces_text names.now (pieces_behind style passed rest.now)) }
{
    let Some(c) = rest.first() else {
        return Ok(0);
    };
    if passed > 0 {
        return Ok(passed - 1);
    }
    match any_name_at(style, rest) {
        Some(name) => put_name(alloc, out, style, *c, name, names),
        None => {
            out.push(*c)?;
            Ok(0)
        }
    }
}

/// Puts what is listed under a name that is replaced, and else the character with which it was
/// opened.
fn put_name(
    alloc: Global,
    out: &mut String,
    style: Style,
    opening: char,
    name: &[char],
    names: &[Prop],
) -> Result<usize, NoMemory>
    ensures put { OnOk result (string_bytes out.new ≡ string_bytes out.old
        ++ expanded_piece names.now (piece_by opening (if_replaced (Some name.now)))) }
    ensures passed { IfOk result (λ more. more ≡ passed_by style (if_replaced (Some name.now))) }
{
    let text = text_of(alloc, name)?;
    if is_replaced(text.as_str()) {
        out.push_str(listed_text(names, text.as_str()))?;
        return Ok(style.opening_len() + name.len());
    }
    out.push(opening)?;
    Ok(0)
}

/// The text of a name.
fn text_of(alloc: Global, name: &[char]) -> Result<Text, NoMemory>
    ensures { IfOk result (λ text. text ≡ encode_utf8_all name.now) }
{
    let mut text = String::new(alloc);
    for c in name {
        text.push(*c)?;
    }
    Ok(Text::from_string(text))
}

/// The text that is listed under the name, or nothing where none is.
fn listed_text<'a>(names: &'a [Prop], wanted: &str) -> &'a str
    ensures { result.now ≡ listed_text names.now wanted.now }
{
    for prop in names {
        if prop.key.as_str() == wanted {
            return prop.text.as_str();
        }
    }
    ""
}
