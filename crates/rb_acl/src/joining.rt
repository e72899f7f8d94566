ghost use Rattle.rb_acl.specs.Joining.{joined_rest};
ghost use Rattle.rb_causes.specs.Signs.{comma};
ghost use Rattle.rb_causes.specs.Texts.{joined};
ghost use Rattle.std.specs.Prelude.{◌≡◌, ◌≢◌, ℕ, List, ◌∷◌, ◌++◌, bytes_eq, MatchOption, IfOk};

use rb_causes::{NoMemory, Text};
use std::alloc::Global;

/// Whether this is the texts with a comma between each two; takes no memory.
pub fn is_joined(texts: &[Text], whole: &str) -> bool
    ensures { result ≡ bytes_eq (joined comma texts.now) whole.now }
{
    match texts.split_first() {
        None => whole.is_empty(),
        Some((first, more)) => match behind(whole.as_bytes(), first.as_str().as_bytes()) {
            Some(rest) => is_joined_rest(more, rest),
            None => false,
        },
    }
}

/// Whether this is the texts with a comma before each.
fn is_joined_rest(texts: &[Text], whole: &[u8]) -> bool
    ensures { result ≡ bytes_eq (joined_rest texts.now) whole.now }
{
    let mut rest = whole;
    for text in texts {
        match behind_comma(rest, text.as_str().as_bytes()) {
            Some(left) => rest = left,
            None => return false,
        }
    }
    rest.is_empty()
}

/// What stands behind a comma and this prefix.
fn behind_comma<'a>(whole: &'a [u8], prefix: &[u8]) -> Option<&'a [u8]>
    ensures { MatchOption result ((rest : List ℕ) → whole.now ≢ comma ∷ (prefix.now ++ rest))
        (λ rest. whole.now ≡ comma ∷ (prefix.now ++ rest.now)) }
{
    behind(behind(whole, b",")?, prefix)
}

/// What stands behind this prefix.
fn behind<'a>(whole: &'a [u8], prefix: &[u8]) -> Option<&'a [u8]>
    ensures { MatchOption result ((rest : List ℕ) → whole.now ≢ prefix.now ++ rest)
        (λ rest. whole.now ≡ prefix.now ++ rest.now) }
{
    whole.strip_prefix(prefix)
}

/// The texts with a comma between each two.
pub fn joined(alloc: Global, texts: &[Text]) -> Result<Text, NoMemory>
    ensures { IfOk result (λ whole. whole ≡ joined comma texts.now) }
{
    match texts.split_first() {
        None => Text::of(alloc, ""),
        Some((first, more)) => joined_behind(alloc, first.as_str(), more),
    }
}

/// The first text, and each of the others behind a comma.
fn joined_behind(alloc: Global, first: &str, more: &[Text]) -> Result<Text, NoMemory>
    ensures { IfOk result (λ whole. whole ≡ first.now ++ joined_rest more.now) }
{
    let mut whole = String::from_str(alloc, first)?;
    for text in more {
        whole.push(',')?;
        whole.push_str(text.as_str())?;
    }
    Ok(Text::from_string(whole))
}
