ghost use Rattle.rb_work.specs.declared.pumped.Pumped.TheVariants as pumped;
ghost use Rattle.std.specs.Prelude.{◌≡◌};

use rb_causes::NoMemory;

/// Why a pump ended.
#[derive(Clone, Copy, Debug, PartialEq, Eq)]
pub enum Pumped {
    /// Nothing may start just now.
    Idle,
    /// No door is open, and nothing runs.
    Closed,
    /// As many tasks were started as were allowed.
    Limit,
    /// The clerk's keeper failed.
    StoreFault,
    /// Memory was wanting, of the clerk or of the spawner.
    NoMemory,
}

impl From<NoMemory> for Pumped {
    ghost from_gives = { λ _ said. said ≡ pumped.NoMemory };

    fn from(_error: NoMemory) -> Pumped {
        Pumped::NoMemory
    }
}
