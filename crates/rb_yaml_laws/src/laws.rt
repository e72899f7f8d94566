//! That `rb_yaml` reads of a text just what the text means: each function is a law, with nothing to
//! run.
ghost use Rattle.rb_yaml_laws.specs.Laws.{ReadIsMeant, MeantIsRead, OneReading, RefusedHasNone, KeysDiffer, FlowHasFuel, DeepHasFuel, LinesBeforeHold, ForemostIsTold, EarliestIsTold};
ghost use Rattle.rb_yaml_laws.specs.Sizes.{SizeIsBounded};
ghost use Rattle.rb_yaml_laws.specs.Scanned.{PlainEndsAtComment, KeySignIsFound, FlowWordIsFirst};

/// Documents that are read of a text are those that it holds.
pub fn read_is_meant()
    ensures { ReadIsMeant }
{}

/// Documents that a text holds are read of it.
pub fn meant_is_read()
    ensures { MeantIsRead }
{}

/// A text has one reading at most.
pub fn one_reading()
    ensures { OneReading }
{}

/// A text that is refused holds no documents.
pub fn refused_has_none()
    ensures { RefusedHasNone }
{}

/// In documents that are read, no key of a map stands twice, however deep the map.
pub fn keys_differ()
    ensures { KeysDiffer }
{}

/// Documents that are read of a text have at most one value more than the text has bytes.
pub fn size_is_bounded()
    ensures { SizeIsBounded }
{}

/// The fuel of a flow never runs out.
pub fn flow_has_fuel()
    ensures { FlowHasFuel }
{}

/// The fuel of a row that is too deep never runs out.
pub fn deep_has_fuel()
    ensures { DeepHasFuel }
{}

/// The lines before the one at which a text is refused hold documents, or a quote on them is open.
pub fn lines_before_hold()
    ensures { LinesBeforeHold }
{}

/// Of the flaws of one line the first in the one order is told.
pub fn foremost_is_told()
    ensures { ForemostIsTold }
{}

/// Of two faults none goes before the one that is told.
pub fn earliest_is_told()
    ensures { EarliestIsTold }
{}

/// A plain text of one row ends before its first hash behind a blank, and with none at its end;
/// blanks at the end fall away.
pub fn plain_ends_at_comment()
    ensures { PlainEndsAtComment }
{}

/// A text has the sign of a key exactly where a colon stands in it that a blank or its end follows.
pub fn key_sign_is_found()
    ensures { KeySignIsFound }
{}

/// The word of a flow begins with its first byte and goes up to the first comma, closing sign, hash
/// behind a blank, end or, of a key, colon that a blank or the end follows.
pub fn flow_word_is_first()
    ensures { FlowWordIsFirst }
{}
