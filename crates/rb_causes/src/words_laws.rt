//! How words are written, and what is read in them: each function proves a law.
ghost use Rattle.rb_causes.specs.Laid.{EachTextIsLaid, OneReading, QuotedIsOneWord};

/// Each text is laid out of blanks, pieces of words and perhaps an open quote, and says the words
/// that are read in it.
pub fn each_text_is_laid()
    ensures { EachTextIsLaid }
{}

/// A text that is laid out so says nothing else: no two lists of words, nor words and an open
/// quote.
pub fn one_reading()
    ensures { OneReading }
{}

/// A text that has no single quote is one word between two of them.
pub fn quoted_is_one_word()
    ensures { QuotedIsOneWord }
{}
