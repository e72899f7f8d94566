ghost use Rattle.rb_text.specs.declared.pattern_err.PatternErr.TheVariants as variants;
ghost use Rattle.std.specs.Prelude.{◌≡◌};

use rb_causes::NoMemory;
use std::alloc::AllocError;
use thiserror::Error;

/// Why a text is refused as a pattern. `TooLong` is looked at first.
#[derive(Clone, Copy, Debug, PartialEq, Eq, Error)]
pub enum PatternErr {
    /// `regex` reads no pattern in the text or in its whole form, or one that nests deeper than 250
    /// levels.
    #[error("no pattern, or one that nests too deep")]
    BadPattern,
    /// The text has more than 256 bytes.
    #[error("a pattern of more than 256 bytes")]
    TooLong,
    /// The text is not light, and `regex` refused what it read in it.
    #[error("a pattern that grows too big")]
    TooBig,
    /// Memory was wanting, or `regex` refused what it read in a light text.
    #[error("out of memory")]
    NoMemory,
}

impl From<NoMemory> for PatternErr {
    ghost from_gives = { λ _ error. error ≡ variants.NoMemory };

    fn from(_error: NoMemory) -> PatternErr {
        PatternErr::NoMemory
    }
}

impl From<AllocError> for PatternErr {
    ghost from_gives = { λ _ error. error ≡ variants.NoMemory };

    fn from(_error: AllocError) -> PatternErr {
        PatternErr::NoMemory
    }
}
