//! What expansion replaces and what it leaves: each function proves a law.
ghost use Rattle.rb_expand.specs.Cut.{PiecesAreCut, OneCut, OthersStay, WordsStayApart};

/// A text is cut from left to right: a name between its signs is one piece, and any other character
/// too.
pub fn pieces_are_cut()
    ensures { PiecesAreCut }
{}

/// There is one way to cut a text so.
pub fn one_cut()
    ensures { OneCut }
{}

/// A text in which nothing opens a name stays as it is.
pub fn others_stay()
    ensures { OthersStay }
{}

/// A template of so many words gives as many, whatever is put in: no value can add a word.
pub fn words_stay_apart()
    ensures { WordsStayApart }
{}
