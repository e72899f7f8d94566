ghost use Rattle.rb_node.specs.declared.filter_err.FilterErr.TheVariants as variants;
ghost use Rattle.std.specs.Prelude.{◌≡◌};

use rb_causes::NoMemory;
use rb_text::PatternErr;
use std::alloc::AllocError;
use thiserror::Error;

/// Why a text is refused as a filter: the first fault, where `TooLong` is looked at first, then a
/// quote that is not closed wherever it stands, and then the rest as written.
#[derive(Clone, Copy, Debug, PartialEq, Eq, Error)]
pub enum FilterErr {
    /// The word with this number, from 1, names no attribute, is a lone `!`, or has a quote that is
    /// not closed.
    #[error("word {at}: no clause")]
    BadClause { at: u32 },
    /// A pattern is refused, and why: for another cause than want of memory.
    #[error("a pattern is refused")]
    BadPattern(PatternErr),
    /// A value is missing, or an alternative or a part of one is empty.
    #[error("a value is empty or missing")]
    EmptyValue,
    /// The text has more than 1,024 bytes.
    #[error("a filter of more than 1,024 bytes")]
    TooLong,
    #[error("out of memory")]
    NoMemory,
}

impl From<NoMemory> for FilterErr {
    ghost from_gives = { λ _ error. error ≡ variants.NoMemory };

    fn from(_error: NoMemory) -> FilterErr {
        FilterErr::NoMemory
    }
}

impl From<AllocError> for FilterErr {
    ghost from_gives = { λ _ error. error ≡ variants.NoMemory };

    fn from(_error: AllocError) -> FilterErr {
        FilterErr::NoMemory
    }
}
