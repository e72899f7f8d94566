//! Words as one text.
ghost use Rattle.rb_causes.specs.Words.{is_escapable};
ghost use Rattle.rb_export.specs.Words.{escaped, word_quoted, word_behind, words_text, dashed, pair_words, pairs_text};
ghost use Rattle.std.specs.List.{flat_map};
ghost use Rattle.std.specs.Prelude.{◌≡◌, ◌++◌, IfOk, OnOk, chars, string_bytes};
ghost use Rattle.std.specs.Str.{encode_utf8_all};

use rb_causes::{NoMemory, Prop, Text};
use std::alloc::{AllocError, Global};

fn chars_of(alloc: Global, text: &str) -> Result<Vec<char>, AllocError>
    ensures { IfOk result (λ cs. cs.items ≡ chars text.now) }
{
    text.chars().collect(alloc)
}

/// Whether a character stands behind a backslash between double quotes.
fn is_escapable(c: char) -> bool
    ensures { result ≡ is_escapable c }
{
    c == '"' || c == '\\'
}

fn push_escaped(text: &mut String, c: char) -> Result<(), NoMemory>
    ensures { OnOk result
        (string_bytes text.new ≡ string_bytes text.old ++ encode_utf8_all (escaped c)) }
{
    if is_escapable(c) {
        text.push('\\')?;
    }
    text.push(c)?;
    Ok(())
}

fn push_all_escaped(text: &mut String, cs: &[char]) -> Result<(), NoMemory>
    ensures { OnOk result (string_bytes text.new
        ≡ string_bytes text.old ++ encode_utf8_all (flat_map escaped cs.now)) }
{
    for c in cs {
        push_escaped(text, *c)?;
    }
    Ok(())
}

/// Adds a word in double quotes.
fn push_word(alloc: Global, text: &mut String, word: &str) -> Result<(), NoMemory>
    ensures { OnOk result (string_bytes text.new ≡ string_bytes text.old ++ word_quoted word.now) }
{
    let cs = chars_of(alloc, word)?;
    text.push('"')?;
    push_all_escaped(text, cs.as_slice())?;
    text.push('"')?;
    Ok(())
}

/// Adds words in double quotes, each with a blank before it.
fn push_words(alloc: Global, text: &mut String, words: &[Text]) -> Result<(), NoMemory>
    ensures { OnOk result
        (string_bytes text.new ≡ string_bytes text.old ++ flat_map word_behind words.now) }
{
    for word in words {
        text.push(' ')?;
        push_word(alloc, text, word.as_str())?;
    }
    Ok(())
}

/// Words in double quotes, the first and those behind it.
fn words_behind(alloc: Global, first: &str, behind: &[Text]) -> Result<Text, NoMemory>
    ensures { IfOk result (λ text.
        text ≡ word_quoted first.now ++ flat_map word_behind behind.now) }
{
    let mut text = String::new(alloc);
    push_word(alloc, &mut text, first)?;
    push_words(alloc, &mut text, behind)?;
    Ok(Text::from_string(text))
}

/// Words in double quotes, parted by one blank.
pub(crate) fn words_text(alloc: Global, words: &[Text]) -> Result<Text, NoMemory>
    ensures { IfOk result (λ text. text ≡ words_text words.now) }
{
    if words.is_empty() {
        return Text::of(alloc, "");
    }
    words_behind(alloc, words[0].as_str(), &words[1..])
}

/// A name with a dash before it.
fn dashed(alloc: Global, name: &str) -> Result<Text, NoMemory>
    ensures { IfOk result (λ text. text ≡ dashed name.now) }
{
    let mut text = String::from_str(alloc, "-")?;
    text.push_str(name)?;
    Ok(Text::from_string(text))
}

fn push_pair(alloc: Global, words: &mut Vec<Text>, pair: &Prop) -> Result<(), NoMemory>
    ensures { OnOk result (words.new.items ≡ words.old.items ++ pair_words pair.now) }
{
    words.push(dashed(alloc, pair.key.as_str())?)?;
    words.push(pair.text.copy(alloc)?)?;
    Ok(())
}

fn pairs_words(alloc: Global, pairs: &[Prop]) -> Result<Vec<Text>, NoMemory>
    ensures { IfOk result (λ words. words.items ≡ flat_map pair_words pairs.now) }
{
    let mut words = Vec::new(alloc);
    for pair in pairs {
        push_pair(alloc, &mut words, pair)?;
    }
    Ok(words)
}

/// The names of options, each with its dash and with its value behind it.
pub(crate) fn pairs_text(alloc: Global, pairs: &[Prop]) -> Result<Text, NoMemory>
    ensures { IfOk result (λ text. text ≡ pairs_text pairs.now) }
{
    let words = pairs_words(alloc, pairs)?;
    words_text(alloc, words.as_slice())
}
