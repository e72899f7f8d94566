ghost use Rattle.rb_yaml.specs.Line.{behind_item, tab_behind};
ghost use Rattle.std.specs.Prelude.{◌≡◌, ◌+◌, ◌<◌, ◌^◌, length, slice_index, suc};

use crate::signs::{behind_first, past_blanks, tab_leads};
use std::marker::Model;

/// A line, or what stands on it from a column on: its number from 1, its indent in spaces, and the
/// text behind these.
#[derive(Drop)]
pub(crate) struct SourceLine<'a> {
    number: u32,
    indent: usize,
    text: &'a str,
}

impl<'a> Model for SourceLine<'a> {
    ghost use Rattle.rb_yaml.specs.Rows.{Row};
    ghost use Rattle.std.specs.Prelude.{IsUtf8, ◌+◌, ◌<◌, ◌^◌, length};

    ghost Value = { Row };

    ghost view = { λ l. record { number = l.number; indent = l.indent; text = l.text.now } };

    ghost invariant = { λ l. IsUtf8 l.text.now × (l.indent + length l.text.now < 2 ^ 63) };
}

impl<'a> SourceLine<'a> {
    pub(crate) fn at(number: u32, indent: usize, text: &'a str) -> SourceLine<'a>
        requires { indent + length text.now < 2 ^ 63 }
        ensures { result ≡ record { number = number; indent = indent; text = text.now } }
    {
        SourceLine {
            number,
            indent,
            text,
        }
    }

    pub(crate) fn copy(&self) -> SourceLine<'a>
        ensures { result ≡ self.now }
    {
        SourceLine::at(self.number, self.indent, self.text)
    }

    /// What stands behind the sign of an item, as a line of its own.
    pub(crate) fn behind_item(&self) -> SourceLine<'a>
        requires { slice_index self.now.text 0 < 128 }
        ensures { result ≡ behind_item self.now }
    {
        let text = past_blanks(behind_first(self.text));
        SourceLine::at(
            self.number,
            self.indent + (self.text.len() - text.len()),
            text,
        )
    }

    /// Whether a tab stands between the sign of an item and what is behind it.
    pub(crate) fn tab_behind(&self) -> bool
        requires { slice_index self.now.text 0 < 128 }
        ensures { result ≡ tab_behind self.now }
    {
        tab_leads(behind_first(self.text))
    }

    /// The least indent of what goes on behind this line's.
    pub(crate) fn floor(&self) -> usize
        ensures { result ≡ suc self.now.indent }
    {
        self.indent + 1
    }

    pub(crate) fn number(&self) -> u32
        ensures { result ≡ self.now.number }
    {
        self.number
    }

    pub(crate) fn indent(&self) -> usize
        ensures { result ≡ self.now.indent }
    {
        self.indent
    }

    pub(crate) fn text(&self) -> &'a str
        ensures { result.now ≡ self.now.text }
    {
        self.text
    }
}
