//! What settled values are beyond the rules that settle them: each function proves a law.
ghost use Rattle.rb_option.specs.Laws.{SettledNamesDiffer, SettledIsOfOption, EnforcedIsListed};
ghost use Rattle.rb_option.specs.Parting.{PartsAreParted};

/// The parts of a value are those into which its delimiter parts it from the left, and there is one
/// way to part it.
pub fn parts_are_parted()
    ensures { PartsAreParted }
{}

/// Where the options' names differ, those of the values do.
pub fn settled_names_differ()
    ensures { SettledNamesDiffer }
{}

/// Each value is that of an option: the given one, else its default.
pub fn settled_is_of_option()
    ensures { SettledIsOfOption }
{}

/// The value of an enforced option is empty, or each part of it is one of the option's values.
pub fn enforced_is_listed()
    ensures { EnforcedIsListed }
{}
