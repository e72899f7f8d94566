ghost use Rattle.rb_option.specs.Arguments.{dashed_name, lone, pairs_from, args_of, IsArgsFault, IsPair, IsNoPair};
ghost use Rattle.std.specs.Prelude.{◌≡◌, ◌<◌, ◌+◌, ◌^◌, length, Ok, Err, IfOk, IfErr, option_map};

use crate::option_err::ArgsErr;
use rb_causes::{Items, Prop, Text, WordsErr, words};
use std::alloc::Global;

/// Pairs of a name and a value, written as the words `-name value`: a name is what stands behind
/// the dash.
pub fn read_args(alloc: Global, s: &str) -> Result<Vec<Prop>, ArgsErr>
    requires { length s.now < 2 ^ 32 }
    ensures pairs { IfOk result (λ pairs. args_of s.now ≡ Ok pairs.items) }
    ensures fault { IfErr result (IsArgsFault (args_of s.now)) }
{
    match words(alloc, s) {
        Ok(words) => pairs_of(alloc, words.as_slice()),
        Err(WordsErr::OpenQuote) => Err(ArgsErr::OpenQuote),
        Err(WordsErr::NoMemory) => Err(ArgsErr::NoMemory),
    }
}

/// The pairs of words.
fn pairs_of(alloc: Global, words: &[Text]) -> Result<Vec<Prop>, ArgsErr>
    requires { length words.now < 2 ^ 32 }
    ensures pairs { IfOk result (λ pairs. pairs_from 1 words.now ≡ Ok pairs.items) }
    ensures fault { IfErr result (IsArgsFault (pairs_from 1 words.now)) }
{
    let mut pairs = Items::new(alloc);
    let mut at = 0;
    while at + 1 < words.len() {
        pairs.push(pair(alloc, at, words[at].as_str(), words[at + 1].as_str())?)?;
        at += 2;
    }
    if at < words.len() {
        return Err(lone(alloc, at, words[at].as_str())?);
    }
    Ok(pairs.into_vec())
}

/// The pair of the word at this place, from 0, with the word behind it as its value.
fn pair(alloc: Global, at: usize, word: &str, value: &str) -> Result<Prop, ArgsErr>
    requires { at + 1 < 2 ^ 32 }
    ensures ok { IfOk result (IsPair word.now value.now) }
    ensures err { IfErr result (IsNoPair (at + 1) word.now) }
{
    match dashed_name(word) {
        Some(name) => Ok(Prop {
            key: Text::of(alloc, name)?,
            text: Text::of(alloc, value)?,
        }),
        None => Err(ArgsErr::NotAnOption(at as u32 + 1)),
    }
}

/// The refusal of the last word, at this place, in whose name's place no value follows.
fn lone(alloc: Global, at: usize, word: &str) -> Result<ArgsErr, ArgsErr>
    requires { at + 1 < 2 ^ 32 }
    ensures fault { IfOk result (λ e. lone (at + 1) (dashed_name word.now) ≡ Err e) }
    ensures memory { IfErr result (λ e. e ≡ ArgsErr.NoMemory) }
{
    match dashed_name(word) {
        Some(name) => Ok(ArgsErr::NoValue(Text::of(alloc, name)?)),
        None => Ok(ArgsErr::NotAnOption(at as u32 + 1)),
    }
}

/// The name that a word gives: what stands behind its dash, if something does.
fn dashed_name(word: &str) -> Option<&str>
    ensures { option_map (λ name. name.now) result ≡ dashed_name word.now }
{
    match word.strip_prefix("-") {
        Some(name) => {
            if name.is_empty() {
                return None;
            }
            Some(name)
        }
        None => None,
    }
}
