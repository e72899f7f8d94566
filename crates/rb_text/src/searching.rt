//! Matches of one pattern in many texts.
ghost use Rattle.rb_text.specs.Causes.{IsCompiled};
ghost use Rattle.rb_text.specs.Matching.{whole_form, matches_whole};
ghost use Rattle.std.specs.List.{list_all, list_any};
ghost use Rattle.std.specs.Prelude.{◌≡◌, IfOk, map};

use rb_causes::{NoMemory, Text};
use regex::{Matcher, Regex};
use std::alloc::Global;
use std::marker::Model;

/// What searches texts for a pattern. Contracts see it as the pattern's text.
#[derive(Drop)]
pub(crate) struct Search<'a> {
    text: &'a str,
    matcher: Matcher<'a>,
}

impl<'a> Model for Search<'a> {
    ghost use Rattle.rb_text.specs.Causes.{IsSearchFor};
    ghost use Rattle.std.specs.Prelude.{List, ℕ};

    ghost Value = { List ℕ };

    ghost view = { λ s. s.text.now };

    ghost invariant = { λ s. IsSearchFor s.text.now s.matcher };
}

impl<'a> Search<'a> {
    /// By what was built of the pattern of this text.
    pub(crate) fn of(alloc: Global, text: &'a str, built: &'a Regex) -> Result<Search<'a>, NoMemory>
        requires { IsCompiled (whole_form text.now) built.now }
        ensures { IfOk result (λ search. search ≡ text.now) }
    {
        let matcher = built.matcher(alloc)?;
        Ok(Search { text, matcher })
    }

    /// Whether the pattern matches the whole of `s`.
    pub(crate) fn is_whole(&mut self, s: &str) -> bool
        ensures found { result ≡ matches_whole self.old s.now }
        ensures same { self.new ≡ self.old }
    {
        self.matcher.is_match(s)
    }

    /// Whether it matches one of the texts whole.
    pub(crate) fn is_any(&mut self, texts: &[Text]) -> bool
        ensures found { result ≡ list_any (matches_whole self.old) texts.now }
        ensures same { self.new ≡ self.old }
    {
        for text in texts {
            if self.is_whole(text.as_str()) {
                return true;
            }
        }
        false
    }

    /// Whether it matches each of the texts whole.
    pub(crate) fn is_all(&mut self, texts: &[Text]) -> bool
        ensures found { result ≡ list_all (matches_whole self.old) texts.now }
        ensures same { self.new ≡ self.old }
    {
        for text in texts {
            if !self.is_whole(text.as_str()) {
                return false;
            }
        }
        true
    }

    /// For each of the lists, whether it matches one of its texts whole.
    pub(crate) fn any_of_each(
        &mut self,
        alloc: Global,
        lists: &[&[Text]],
    ) -> Result<Vec<bool>, NoMemory>
        ensures { IfOk result (λ marks. marks.items
            ≡ map (list_any (matches_whole self.old)) (map (λ texts. texts.now) lists.now)) }
    {
        let mut marks = Vec::with_capacity(alloc, lists.len())?;
        for texts in lists {
            marks.push(self.is_any(*texts))?;
        }
        Ok(marks)
    }
}
