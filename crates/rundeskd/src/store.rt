//! Where the rows of a desk are kept.
ghost use Rattle.rundeskd.specs.Stores.{store_faults, store_rows};
ghost use Rattle.std.specs.Prelude.{◌≡◌, [], IfOk, None, Some};

use rb_causes::{Keeper, NoMemory, Row, SteadyKeeper, Text, Trouble};
use rb_keep::SqlKeeper;
use std::alloc::Global;

/// The rows of a desk: in memory alone, or in a file.
#[derive(Drop)]
pub enum Store {
    Memory(SteadyKeeper),
    File(SqlKeeper),
}

impl Store {
    /// The store in this file, which is opened at the first call, or in memory where there is none.
    pub fn new(rt: HostRuntime, file: Option<&str>) -> Result<Store, NoMemory>
        ensures { file.entry ≡ None → IfOk result (λ store. store_rows store ≡ Some []) }
    {
        let alloc = rt.alloc();
        match file {
            None => Ok(Store::Memory(SteadyKeeper::new(alloc, Vec::new(alloc)))),
            Some(path) => Ok(Store::File(SqlKeeper::at(rt, Text::of(alloc, path)?))),
        }
    }
}

impl Keeper for Store {
    ghost rows = { store_rows };

    ghost faults = { store_faults };

    fn rows(&mut self, alloc: Global) -> Result<Vec<Row>, Trouble> {
        match self {
            Store::Memory(keeper) => keeper.rows(alloc),
            Store::File(keeper) => keeper.rows(alloc),
        }
    }

    fn append(&mut self, more: &[Row]) -> Result<(), Trouble> {
        match self {
            Store::Memory(keeper) => keeper.append(more),
            Store::File(keeper) => keeper.append(more),
        }
    }
}
