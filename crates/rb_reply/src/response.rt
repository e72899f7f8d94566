ghost use Rattle.std.specs.Cow.{cow_slice_items};
ghost use Rattle.std.specs.Prelude.{◌≡◌};

use std::borrow::CowSlice;
use std::marker::Model;

/// The bytes of a body: made for one reply, or the same for each of its kind, which take no memory.
#[derive(Drop)]
pub struct Body {
    bytes: CowSlice<'static, u8>,
}

impl Model for Body {
    ghost use Rattle.std.specs.Cow.{cow_slice_items};
    ghost use Rattle.std.specs.Prelude.{List, ℕ};

    ghost Value = { List ℕ };

    ghost view = { λ b. cow_slice_items b.bytes };
}

impl Body {
    /// A body that was made.
    pub(crate) fn made(bytes: Vec<u8>) -> Body
        ensures { result ≡ bytes.items }
    {
        Body {
            bytes: CowSlice::Owned(bytes),
        }
    }

    /// A body that stands in the program.
    pub(crate) fn fixed(bytes: &'static [u8]) -> Body
        ensures { result ≡ bytes.now }
    {
        Body {
            bytes: CowSlice::Borrowed(bytes),
        }
    }

    pub fn as_slice(&self) -> &[u8]
        ensures { result.now ≡ self.now }
    {
        self.bytes.as_slice()
    }
}

/// A reply as it is written: a status, and the bytes of its body.
#[derive(Drop)]
pub struct Response {
    pub status: u16,
    pub body: Body,
}
