ghost use Rattle.rb_body.specs.declared.parts.BodyErr.TheVariants as variants;
ghost use Rattle.std.specs.Prelude.{◌≡◌};

use rb_causes::{Items, NoMemory, Prop, Text};

/// What a run's body says: each of the three may be absent.
#[derive(Drop)]
pub struct RunBody {
    pub options: Option<Items<Prop>>,
    pub args: Option<Text>,
    pub filter: Option<Text>,
}

/// Why a body is refused.
#[derive(Clone, Copy, Debug, PartialEq, Eq)]
pub enum BodyErr {
    /// It is no text, no JSON or no object, or says something that is not read.
    BadBody,
    NoMemory,
}

impl From<NoMemory> for BodyErr {
    ghost from_gives = { λ _ error. error ≡ variants.NoMemory };

    fn from(_error: NoMemory) -> BodyErr {
        BodyErr::NoMemory
    }
}
