ghost use Rattle.rb_text.specs.Causes.{IsCause, IsReadingCause, IsUnreadBy, built_of, IsFormOf};
ghost use Rattle.rb_text.specs.Matching.{IsPatternText, IsUnread, IsSure, matches_whole};
ghost use Rattle.std.specs.List.{list_all, list_any};
ghost use Rattle.std.specs.Prelude.{◌≡◌, ◌<◌, length, map, IfOk, OnOk, IfErr};

use crate::building::{Built, rebuilt, tried, whole_form_of};
use crate::light::is_light;
use crate::pattern_err::PatternErr;
use crate::room::Room;
use crate::searching::Search;
use rb_causes::{NoMemory, Text};
use regex::Regex;
use regex_syntax::{Config, ErrorKind};
use std::alloc::Global;
use std::marker::Model;

/// A longer text is no pattern.
const MOST_BYTES: usize = 256;

/// A pattern in the syntax of `regex` that matches a text whole. Contracts see it as its text. What
/// is built of it is kept where there is room, and else built where it is used.
#[derive(Drop)]
pub struct Pattern {
    text: Text,
    built: Option<Built>,
}

impl Model for Pattern {
    ghost use Rattle.rb_text.specs.Causes.{IsCompiled};
    ghost use Rattle.rb_text.specs.Matching.{whole_form};
    ghost use Rattle.std.specs.Prelude.{IfSome, List, ℕ};

    ghost Value = { List ℕ };

    ghost view = { λ p. p.text };

    ghost invariant = { λ p. IfSome p.built (λ b. IsCompiled (whole_form p.text) b.whole) };
}

/// What is built of a pattern, where a search needs it: kept, or for this search alone.
#[derive(Drop)]
enum Form<'a> {
    Kept(&'a Regex),
    Own(Regex),
}

impl<'a> Form<'a> {
    fn built(&self) -> &Regex
        ensures { result.now ≡ built_of self.now }
    {
        match self {
            Form::Kept(built) => *built,
            Form::Own(built) => built,
        }
    }
}

impl Pattern {
    /// Reads a pattern, and keeps nothing of what is built. A light text of at most 256 bytes that
    /// `regex` reads, alone and whole and nested 250 deep at most, is refused for want of memory
    /// only.
    pub fn build(alloc: Global, text: &str) -> Result<Pattern, PatternErr>
        ensures text { IfOk result (λ p. p ≡ text.now) }
        ensures reads { OnOk result (IsPatternText text.now) }
        ensures cause { IfErr result (IsCause text.now) }
        ensures long { 256 < length text.now → result ≡ Err PatternErr.TooLong }
        ensures sure { IfErr result (λ e. IsSure text.now → e ≡ PatternErr.NoMemory) }
    {
        Pattern::build_in(alloc, text, &mut Room::none())
    }

    /// Reads a pattern as `build` does, and keeps what is built where there is room for it.
    pub fn build_in(alloc: Global, text: &str, room: &mut Room) -> Result<Pattern, PatternErr>
        ensures text { IfOk result (λ p. p ≡ text.now) }
        ensures reads { OnOk result (IsPatternText text.now) }
        ensures cause { IfErr result (IsCause text.now) }
        ensures long { 256 < length text.now → result ≡ Err PatternErr.TooLong }
        ensures sure { IfErr result (λ e. IsSure text.now → e ≡ PatternErr.NoMemory) }
    {
        if text.len() > MOST_BYTES {
            return Err(PatternErr::TooLong);
        }
        read_alone(alloc, text)?;
        let form = whole_form_of(alloc, text)?;
        let built = tried(alloc, form.as_str(), is_light(text), room)?;
        let text = Text::of(alloc, text)?;
        Ok(Pattern { text, built })
    }

    /// Lets go of what is built where there is no room for it. What matches stays.
    pub fn fit_in(&mut self, room: &mut Room)
        ensures { self.new ≡ self.old }
    {
        let fits = match &self.built {
            Some(built) => room.take(built.weight),
            None => true,
        };
        if !fits {
            self.built = None;
        }
    }

    /// What a search needs: kept, or built anew.
    fn form(&self, alloc: Global) -> Result<Form<'_>, NoMemory>
        ensures { IfOk result (IsFormOf self.now) }
    {
        match &self.built {
            Some(built) => Ok(Form::Kept(&built.whole)),
            None => Ok(Form::Own(rebuilt(alloc, self.text.as_str())?)),
        }
    }

    /// Whether the pattern matches the whole of `s`. Only want of memory refuses.
    pub fn whole(&self, alloc: Global, s: &str) -> Result<bool, PatternErr>
        ensures found { IfOk result (λ yes. yes ≡ matches_whole self.now s.now) }
        ensures memory { IfErr result (λ e. e ≡ PatternErr.NoMemory) }
    {
        let form = self.form(alloc)?;
        let mut search = Search::of(alloc, self.text.as_str(), form.built())?;
        Ok(search.is_whole(s))
    }

    /// Whether the pattern matches one of the texts whole.
    pub fn whole_of_any(&self, alloc: Global, texts: &[Text]) -> Result<bool, NoMemory>
        ensures { IfOk result (λ yes. yes ≡ list_any (matches_whole self.now) texts.now) }
    {
        let form = self.form(alloc)?;
        let mut search = Search::of(alloc, self.text.as_str(), form.built())?;
        Ok(search.is_any(texts))
    }

    /// Whether the pattern matches each of the texts whole.
    pub fn whole_of_all(&self, alloc: Global, texts: &[Text]) -> Result<bool, NoMemory>
        ensures { IfOk result (λ yes. yes ≡ list_all (matches_whole self.now) texts.now) }
    {
        let form = self.form(alloc)?;
        let mut search = Search::of(alloc, self.text.as_str(), form.built())?;
        Ok(search.is_all(texts))
    }

    /// For each of the lists, whether the pattern matches one of its texts whole.
    pub fn whole_of_each(&self, alloc: Global, lists: &[&[Text]]) -> Result<Vec<bool>, NoMemory>
        ensures { IfOk result (λ marks. marks.items
            ≡ map (list_any (matches_whole self.now)) (map (λ texts. texts.now) lists.now)) }
    {
        let form = self.form(alloc)?;
        let mut search = Search::of(alloc, self.text.as_str(), form.built())?;
        search.any_of_each(alloc, lists)
    }

    /// The text that was read.
    pub fn text(&self) -> &str
        ensures { result.now ≡ self.now }
    {
        self.text.as_str()
    }
}

/// Looks whether `regex` reads the text by itself.
fn read_alone(alloc: Global, text: &str) -> Result<(), PatternErr>
    ensures ok { OnOk result (IsUnread text.now → ⊥) }
    ensures err { IfErr result (IsReadingCause text.now) }
{
    match regex_syntax::parse(alloc, text, &Config::default()) {
        Ok(_) => Ok(()),
        Err(error) => Err(unread(error.kind)),
    }
}

/// Why a text was not read.
fn unread(kind: ErrorKind) -> PatternErr
    ensures { IsUnreadBy kind result }
{
    match kind {
        ErrorKind::OutOfMemory => PatternErr::NoMemory,
        _ => PatternErr::BadPattern,
    }
}
