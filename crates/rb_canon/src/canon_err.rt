ghost use Rattle.rb_canon.specs.declared.canon_err.CanonErr.TheVariants as variants;
ghost use Rattle.std.specs.Prelude.{◌≡◌};

use rb_causes::NoMemory;
use std::alloc::AllocError;

/// Why no text of canonical documents is given.
#[derive(Clone, Copy, Debug, PartialEq, Eq)]
pub enum CanonErr {
    /// The text would have more than 1,048,576 bytes.
    TooLarge,
    /// Memory was wanting.
    NoMemory,
}

impl From<AllocError> for CanonErr {
    ghost from_gives = { λ _ error. error ≡ variants.NoMemory };

    fn from(_error: AllocError) -> CanonErr {
        CanonErr::NoMemory
    }
}

impl From<NoMemory> for CanonErr {
    ghost from_gives = { λ _ error. error ≡ variants.NoMemory };

    fn from(_error: NoMemory) -> CanonErr {
        CanonErr::NoMemory
    }
}
