ghost use Rattle.rb_option.specs.declared.option_err.ArgsErr.TheVariants as args_variants;
ghost use Rattle.rb_option.specs.declared.option_err.OptionErr.TheVariants as option_variants;
ghost use Rattle.std.specs.Prelude.{◌≡◌};

use rb_causes::{NoMemory, Text};

/// Why values are refused. A given value without an option or given twice comes first, in the order
/// of the given ones; then the options follow in the job's order, and in each the kinds as they
/// stand here.
#[derive(Clone, Copy, Debug, PartialEq, Eq)]
pub enum OptionKind {
    /// No option has this name.
    Unknown,
    /// It is required and has no value, or an empty one.
    Missing,
    /// It is enforced, and a part is none of its values.
    NotAllowed,
    /// A part does not match its pattern whole.
    NoMatch,
    /// It is given a second time.
    Twice,
}

/// The option that is refused, and why.
#[derive(Drop)]
pub struct OptionFault {
    pub name: Text,
    pub kind: OptionKind,
}

/// What `settle` refuses with: the first fault, or want of memory.
#[derive(Drop)]
pub enum OptionErr {
    Fault(OptionFault),
    NoMemory,
}

impl From<NoMemory> for OptionErr {
    ghost from_gives = { λ _ error. error ≡ option_variants.NoMemory };

    fn from(_error: NoMemory) -> OptionErr {
        OptionErr::NoMemory
    }
}

/// Why a text is refused as pairs of a name and a value.
#[derive(Drop)]
pub enum ArgsErr {
    /// A quote is not closed.
    OpenQuote,
    /// The word with this number, from 1, stands in a name's place and is not `-` with a name
    /// behind it.
    NotAnOption(u32),
    /// The last name, which has no word behind it.
    NoValue(Text),
    NoMemory,
}

impl From<NoMemory> for ArgsErr {
    ghost from_gives = { λ _ error. error ≡ args_variants.NoMemory };

    fn from(_error: NoMemory) -> ArgsErr {
        ArgsErr::NoMemory
    }
}
