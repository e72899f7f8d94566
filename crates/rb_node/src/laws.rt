//! What a selection means, and what a refusal does: each function proves a law.
ghost use Rattle.rb_node.specs.Laws.{EmptySelectsNothing, ExcludedIsNotSelected, IncludedIsSelected, SelectedIsIncluded, SureIsNotBad};

/// The empty filter selects nothing.
pub fn empty_selects_nothing()
    ensures { EmptySelectsNothing }
{}

/// Where exclude clauses go first, an excluded node is not selected.
pub fn excluded_is_not_selected()
    ensures { ExcludedIsNotSelected }
{}

/// Where they do not and there is an include clause, an included node is selected.
pub fn included_is_selected()
    ensures { IncludedIsSelected }
{}

/// Only what is included is selected.
pub fn selected_is_included()
    ensures { SelectedIsIncluded }
{}

/// A filter whose patterns are sure is refused for no pattern.
pub fn sure_is_not_bad()
    ensures { SureIsNotBad }
{}
