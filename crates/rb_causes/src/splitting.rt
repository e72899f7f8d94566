ghost use Rattle.rb_causes.specs.Words.{is_quote, is_escapable, opened, next, ends_word, kept, kept_bare, words_in, at_end, IsOpenBehind};
ghost use Rattle.rb_causes.specs.WordsLeft.{left, IsClear, words_with, word_with};
ghost use Rattle.rb_causes.specs.declared.splitting.SplitErr.TheVariants as variants;
ghost use Rattle.rb_causes.specs.Texts.{is_trimmed_off};
ghost use Rattle.std.specs.Prelude.{◌≡◌, ◌++◌, ◌||◌, [], ◌∷◌, Ok, Err, IfOk, OnOk, IfErr, chars, length};

use crate::items::Items;
use crate::letter::Letter;
use crate::trouble::NoMemory;
use std::alloc::{AllocError, Global};
use std::mem;

/// Why a text has no words.
#[derive(Clone, Copy, Debug, PartialEq, Eq)]
pub enum SplitErr {
    /// A quote is not closed, in the word behind so many others.
    OpenQuote { before: usize },
    NoMemory,
}

impl From<NoMemory> for SplitErr {
    ghost from_gives = { λ _ error. error ≡ variants.NoMemory };

    fn from(_error: NoMemory) -> SplitErr {
        SplitErr::NoMemory
    }
}

/// Where a reader of words stands: outside of words, in bare characters of one, or between quotes.
#[derive(Clone, Copy)]
enum WordPlace {
    Outside,
    Bare,
    Single,
    Double,
    /// Behind a backslash between double quotes.
    Escape,
}

/// The words that are read so far, and the word at hand.
#[derive(Drop)]
struct Reader {
    words: Vec<Items<Letter>>,
    word: Vec<Letter>,
    place: WordPlace,
}

/// Splits a text into words at blanks: space, tab, CR and LF. A word is a run of bare characters,
/// of texts between single quotes and of texts between double quotes, in which `\"` and `\\` stand
/// for `"` and `\`. Each letter tells whether a quote held it.
pub fn split_words(alloc: Global, text: &str) -> Result<Vec<Items<Letter>>, SplitErr>
    ensures words { IfOk result (λ ws. words_in (chars text.now) ≡ Ok ws.items) }
    ensures quote { IfErr result (λ e. IsOpenBehind (words_in (chars text.now)) e) }
{
    match chars_of(alloc, text) {
        Ok(chars) => split_chars(alloc, chars.as_slice()),
        Err(_) => Err(SplitErr::NoMemory),
    }
}

fn chars_of(alloc: Global, text: &str) -> Result<Vec<char>, AllocError>
    ensures { IfOk result (λ cs. cs.items ≡ chars text.now) }
{
    text.chars().collect(alloc)
}

fn split_chars(alloc: Global, chars: &[char]) -> Result<Vec<Items<Letter>>, SplitErr>
    ensures words { IfOk result (λ ws. words_in chars.now ≡ Ok ws.items) }
    ensures quote { IfErr result (λ e. IsOpenBehind (words_in chars.now) e) }
{
    let mut reader = Reader {
        words: Vec::new(alloc),
        word: Vec::new(alloc),
        place: WordPlace::Outside,
    };
    for c in chars {
        reader.take(alloc, *c)?;
    }
    reader.finish()
}

impl Reader {
    /// Reads one character.
    fn take(&mut self, alloc: Global, c: char) -> Result<(), NoMemory>
        requires { IsClear self.old.place self.old.word.items }
        ensures clear { OnOk result (IsClear self.new.place self.new.word.items) }
        ensures words { OnOk result (self.new.words.items ≡
            words_with self.old.words.items self.old.word.items self.old.place c) }
        ensures word { OnOk result (self.new.word.items ≡
            word_with self.old.word.items self.old.place c) }
        ensures place { OnOk result (self.new.place ≡ next self.old.place c) }
    {
        self.write(alloc, c)?;
        self.place = next(self.place, c);
        Ok(())
    }

    /// Ends the word at hand before the character, or puts the character to it, or passes it over.
    fn write(&mut self, alloc: Global, c: char) -> Result<(), NoMemory>
        ensures words { OnOk result (self.new.words.items ≡
            words_with self.old.words.items self.old.word.items self.old.place c) }
        ensures word { OnOk result (self.new.word.items ≡
            word_with self.old.word.items self.old.place c) }
        ensures place { self.new.place ≡ self.old.place }
    {
        if ends_word(self.place, c) {
            return self.close(alloc);
        }
        self.keep(c)
    }

    /// Puts to the word what stands in it of the character.
    fn keep(&mut self, c: char) -> Result<(), NoMemory>
        ensures word { OnOk result
            (self.new.word.items ≡ self.old.word.items ++ kept self.old.place c) }
        ensures words { self.new.words ≡ self.old.words }
        ensures place { self.new.place ≡ self.old.place }
    {
        match self.place {
            WordPlace::Outside => self.keep_bare(c),
            WordPlace::Bare => self.keep_bare(c),
            WordPlace::Single => {
                if c == '\'' {
                    return Ok(());
                }
                self.push(c, true)
            }
            WordPlace::Double => {
                if is_escapable(c) {
                    return Ok(());
                }
                self.push(c, true)
            }
            WordPlace::Escape => self.keep_escaped(c),
        }
    }

    fn keep_bare(&mut self, c: char) -> Result<(), NoMemory>
        ensures word { OnOk result (self.new.word.items ≡ self.old.word.items ++ kept_bare c) }
        ensures words { self.new.words ≡ self.old.words }
        ensures place { self.new.place ≡ self.old.place }
    {
        if is_trimmed_off(c) || is_quote(c) {
            return Ok(());
        }
        self.push(c, false)
    }

    /// Puts a character to the word, with the backslash that stood before it where that was no
    /// escape.
    fn keep_escaped(&mut self, c: char) -> Result<(), NoMemory>
        ensures word { OnOk result
            (self.new.word.items ≡ self.old.word.items ++ kept WordPlace.Escape c) }
        ensures words { self.new.words ≡ self.old.words }
        ensures place { self.new.place ≡ self.old.place }
    {
        if is_escapable(c) {
            return self.push(c, true);
        }
        self.push('\\', true)?;
        self.push(c, true)
    }

    fn push(&mut self, sign: char, is_quoted: bool) -> Result<(), NoMemory>
        ensures word { OnOk result (self.new.word.items ≡ self.old.word.items ++
            (record { sign = sign; is_quoted = is_quoted }) ∷ []) }
        ensures words { self.new.words ≡ self.old.words }
        ensures place { self.new.place ≡ self.old.place }
    {
        self.word.push(Letter { sign, is_quoted })?;
        Ok(())
    }

    /// Puts the word at hand to the others.
    fn close(&mut self, alloc: Global) -> Result<(), NoMemory>
        ensures words { OnOk result
            (self.new.words.items ≡ self.old.words.items ++ self.old.word.items ∷ []) }
        ensures word { OnOk result (self.new.word.items ≡ []) }
        ensures place { self.new.place ≡ self.old.place }
    {
        let word = mem::replace(&mut self.word, Vec::new(alloc));
        self.words.push(Items::of(word))?;
        Ok(())
    }

    /// The words of the whole text. An open quote takes no memory to tell.
    fn finish(self) -> Result<Vec<Items<Letter>>, SplitErr>
        requires { IsClear self.place self.word.items }
        ensures words { IfOk result (λ ws.
            left self.words.items self.word.items self.place [] ≡ Ok ws.items) }
        ensures quote { IfErr result (λ e.
            IsOpenBehind (left self.words.items self.word.items self.place []) e) }
        ensures open { at_end self.place ≡ Err 0 →
            result ≡ Err (SplitErr.OpenQuote (length self.words.items)) }
    {
        let Reader { words, word, place } = self;
        match place {
            WordPlace::Outside => Ok(words),
            WordPlace::Bare => Ok(with_word(words, word)?),
            WordPlace::Single => Err(open_behind(words.as_slice())),
            WordPlace::Double => Err(open_behind(words.as_slice())),
            WordPlace::Escape => Err(open_behind(words.as_slice())),
        }
    }
}

/// The refusal of a quote that is not closed in the word behind these.
fn open_behind(words: &[Items<Letter>]) -> SplitErr
    ensures { result ≡ SplitErr.OpenQuote (length words.now) }
{
    let before = words.len();
    SplitErr::OpenQuote { before }
}

/// The words and one more.
fn with_word(
    mut words: Vec<Items<Letter>>,
    word: Vec<Letter>,
) -> Result<Vec<Items<Letter>>, NoMemory>
    ensures { IfOk result (λ ws. ws.items ≡ words.items ++ word.items ∷ []) }
{
    words.push(Items::of(word))?;
    Ok(words)
}

/// Where the character leads.
fn next(place: WordPlace, c: char) -> WordPlace
    ensures { result ≡ next place c }
{
    match place {
        WordPlace::Outside => opened(c),
        WordPlace::Bare => opened(c),
        WordPlace::Single => if c == '\'' {
            WordPlace::Bare
        } else {
            WordPlace::Single
        },
        WordPlace::Double => match c {
            '"' => WordPlace::Bare,
            '\\' => WordPlace::Escape,
            _ => WordPlace::Double,
        },
        WordPlace::Escape => WordPlace::Double,
    }
}

/// Where a character leads that no quote holds.
fn opened(c: char) -> WordPlace
    ensures { result ≡ opened c }
{
    match c {
        ' ' | '\t' | '\r' | '\n' => WordPlace::Outside,
        '\'' => WordPlace::Single,
        '"' => WordPlace::Double,
        _ => WordPlace::Bare,
    }
}

/// Whether the character ends the word at hand.
fn ends_word(place: WordPlace, c: char) -> bool
    ensures { result ≡ ends_word place c }
{
    matches!(place, WordPlace::Bare) && is_trimmed_off(c)
}

fn is_trimmed_off(c: char) -> bool
    ensures { result ≡ is_trimmed_off c }
{
    matches!(c, ' ' | '\t' | '\r' | '\n')
}

fn is_quote(c: char) -> bool
    ensures { result ≡ is_quote c }
{
    c == '\'' || c == '"'
}

fn is_escapable(c: char) -> bool
    ensures { result ≡ is_escapable c }
{
    c == '"' || c == '\\'
}
