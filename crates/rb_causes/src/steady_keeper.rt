ghost use Rattle.std.specs.Prelude.{◌≡◌, Some};

use crate::keeper::Keeper;
use crate::row::{Row, add_rows, copy_rows};
use crate::trouble::Trouble;
use std::alloc::Global;

/// A keeper in memory that never fails.
#[derive(Drop)]
pub struct SteadyKeeper {
    rows: Vec<Row>,
    alloc: Global,
}

impl SteadyKeeper {
    /// A keeper of these rows.
    pub fn new(alloc: Global, rows: Vec<Row>) -> SteadyKeeper
        ensures { ⟦<SteadyKeeper as Keeper>⟧.rows result ≡ Some rows.items }
    {
        SteadyKeeper { rows, alloc }
    }
}

impl Keeper for SteadyKeeper {
    ghost rows = { λ k. Some k.rows.items };

    ghost faults = { λ _. 0 };

    fn rows(&mut self, alloc: Global) -> Result<Vec<Row>, Trouble> {
        Ok(copy_rows(alloc, self.rows.as_slice())?)
    }

    fn append(&mut self, more: &[Row]) -> Result<(), Trouble> {
        add_rows(self.alloc, &mut self.rows, more)?;
        Ok(())
    }
}
