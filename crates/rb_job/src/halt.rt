ghost use Rattle.rb_job.specs.declared.halt.Halt.TheVariants as variants;
ghost use Rattle.std.specs.Prelude.{◌≡◌};

use crate::fault::JobKind;
use rb_causes::{NoMemory, Text};

/// What is wrong under a key.
#[derive(Drop)]
pub(crate) struct KeyFlaw {
    pub key: Text,
    pub kind: JobKind,
}

/// Why the look through a job ended.
#[derive(Drop)]
pub(crate) enum Halt {
    Flaw(KeyFlaw),
    NoMemory,
}

impl From<NoMemory> for Halt {
    ghost from_gives = { λ _ error. error ≡ variants.NoMemory };

    fn from(_error: NoMemory) -> Halt {
        Halt::NoMemory
    }
}
