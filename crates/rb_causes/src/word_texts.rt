ghost use Rattle.rb_causes.specs.Words.{words_of, word_text};
ghost use Rattle.rb_causes.specs.declared.word_texts.WordsErr.TheVariants as variants;
ghost use Rattle.std.specs.Prelude.{◌≡◌, Ok, Err, Some, None, IfOk, IfErr, map};

use crate::items::Items;
use crate::letter::Letter;
use crate::splitting::{SplitErr, split_words};
use crate::text::Text;
use crate::trouble::NoMemory;
use std::alloc::Global;

/// Why a text has no words.
#[derive(Clone, Copy, Debug, PartialEq, Eq)]
pub enum WordsErr {
    /// A quote is not closed.
    OpenQuote,
    NoMemory,
}

impl From<NoMemory> for WordsErr {
    ghost from_gives = { λ _ error. error ≡ variants.NoMemory };

    fn from(_error: NoMemory) -> WordsErr {
        WordsErr::NoMemory
    }
}

/// The words of a text, parted as `split_words` says.
pub fn words(alloc: Global, s: &str) -> Result<Vec<Text>, WordsErr>
    ensures words { IfOk result (λ ws. words_of s.now ≡ Some ws.items) }
    ensures quote { IfErr result (λ e. e ≡ WordsErr.OpenQuote → words_of s.now ≡ None) }
{
    match split_words(alloc, s) {
        Ok(words) => Ok(texts_of(alloc, words.as_slice())?),
        Err(SplitErr::OpenQuote { .. }) => Err(WordsErr::OpenQuote),
        Err(SplitErr::NoMemory) => Err(WordsErr::NoMemory),
    }
}

fn texts_of(alloc: Global, words: &[Items<Letter>]) -> Result<Vec<Text>, NoMemory>
    ensures { IfOk result (λ texts. texts.items ≡ map word_text words.now) }
{
    let mut texts = Vec::new(alloc);
    for word in words {
        texts.push(word_text(alloc, word.as_slice())?)?;
    }
    Ok(texts)
}

/// The text of a word's letters.
fn word_text(alloc: Global, word: &[Letter]) -> Result<Text, NoMemory>
    ensures { IfOk result (λ text. text ≡ word_text word.now) }
{
    let mut text = String::new(alloc);
    for letter in word {
        text.push(letter.sign)?;
    }
    Ok(Text::from_string(text))
}
