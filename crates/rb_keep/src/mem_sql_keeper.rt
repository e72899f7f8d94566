ghost use Rattle.rb_causes.specs.Causes.{HasTrouble, Rose};
ghost use Rattle.std.specs.Prelude.{◌≡◌, ◌≤◌, ◌↔◌, ◌++◌, [], true, Some, Err, IfOk, OnOk, OnErr};

use crate::appending::{append, put_first};
use crate::format::has_shape;
use crate::reading::settled_rows;
use crate::refusal::Refusal;
use rb_causes::{Keeper, NoMemory, Row, Trouble};
use sqlite::{Connection, MemStore};
use std::alloc::Global;
use std::marker::Model;

/// Why no rows were written in format 1.
#[derive(Clone, Copy, Debug, PartialEq, Eq)]
pub enum FirstErr {
    /// The database has a number of its format.
    Shaped,
    /// The database failed, and the keeper has counted the fault.
    Failed,
    /// Memory was wanting.
    NoMemory,
}

/// A keeper over a database in memory, which contracts see as its count of faults, whether it has
/// a number of its format, and its rows.
#[derive(Drop)]
pub struct MemSqlKeeper {
    conn: Connection<MemStore>,
    alloc: Global,
    /// The number of the last row.
    last: i64,
    faults: u64,
}

impl Model for MemSqlKeeper {
    ghost use Rattle.rb_keep.specs.Stores.{StoreState, IsKept, has_shape};
    ghost use Rattle.rb_keep.specs.Tables.{rows_of};
    ghost use Rattle.sqlite.specs.Held.{state};
    ghost use Rattle.sqlite.specs.Steps.{over_memory};

    ghost Value = { StoreState };

    ghost view = { λ k. record {
      faults = k.faults;
      shaped = has_shape k.conn.schema;
      rows = rows_of (state over_memory k.conn).now;
    } };

    ghost invariant = { λ k. IsKept k.conn k.last };
}

impl MemSqlKeeper {
    pub(crate) fn new(alloc: Global) -> Result<MemSqlKeeper, NoMemory>
        ensures { IfOk result (λ keeper. (keeper.faults ≡ 0) × (keeper.rows ≡ [])) }
    {
        Ok(MemSqlKeeper {
            conn: Connection::open_in_memory(alloc)?,
            alloc,
            last: 0,
            faults: 0,
        })
    }

    /// Writes rows in format 1, as an older program did: all of them, or none.
    pub fn append_first(&mut self, rows: &[Row]) -> Result<(), FirstErr>
        ensures shaped { (result ≡ Err FirstErr.Shaped) ↔ (self.old.shaped ≡ true) }
        ensures unchanged { result ≡ Err FirstErr.Shaped → self.new ≡ self.old }
        ensures ok { OnOk result (self.new.rows ≡ self.old.rows ++ rows.now) }
        ensures err { OnErr result (self.new.rows ≡ self.old.rows) }
        ensures later { self.old.faults ≤ self.new.faults }
        ensures rose { result ≡ Err FirstErr.Failed → Rose self.old.faults self.new.faults }
    {
        if has_shape(self.conn.schema()) {
            return Err(FirstErr::Shaped);
        }
        match self.add_first(rows) {
            Ok(()) => Ok(()),
            Err(refusal) => match self.blame(refusal) {
                Trouble::Failed => Err(FirstErr::Failed),
                Trouble::NoMemory => Err(FirstErr::NoMemory),
            },
        }
    }

    fn add_first(&mut self, rows: &[Row]) -> Result<(), Refusal>
        ensures faults { self.new.faults ≡ self.old.faults }
        ensures ok { OnOk result (self.new.rows ≡ self.old.rows ++ rows.now) }
        ensures err { OnErr result (self.new.rows ≡ self.old.rows) }
    {
        self.last = put_first(&mut self.conn, self.last, rows)?;
        Ok(())
    }

    fn all(&mut self, alloc: Global) -> Result<Vec<Row>, Refusal>
        ensures faults { self.new.faults ≡ self.old.faults }
        ensures rows { IfOk result (λ found. found.items ≡ self.old.rows) }
        ensures same { self.new.rows ≡ self.old.rows }
        ensures shaped { OnOk result (self.new.shaped ≡ true) }
    {
        settled_rows(alloc, &mut self.conn)
    }

    fn add(&mut self, more: &[Row]) -> Result<(), Refusal>
        ensures faults { self.new.faults ≡ self.old.faults }
        ensures ok { OnOk result (self.new.rows ≡ self.old.rows ++ more.now) }
        ensures err { OnErr result (self.new.rows ≡ self.old.rows) }
    {
        if !has_shape(self.conn.schema()) {
            let alloc = self.alloc;
            self.all(alloc)?;
        }
        self.add_behind(more)
    }

    fn add_behind(&mut self, more: &[Row]) -> Result<(), Refusal>
        requires { self.old.shaped ≡ true }
        ensures faults { self.new.faults ≡ self.old.faults }
        ensures ok { OnOk result (self.new.rows ≡ self.old.rows ++ more.now) }
        ensures err { OnErr result (self.new.rows ≡ self.old.rows) }
    {
        self.last = append(&mut self.conn, self.last, more)?;
        Ok(())
    }

    /// Counts a refusal that is no want of memory.
    fn blame(&mut self, refusal: Refusal) -> Trouble
        ensures later { self.old.faults ≤ self.new.faults }
        ensures rose { result ≡ Trouble.Failed → Rose self.old.faults self.new.faults }
        ensures steady { result ≡ Trouble.NoMemory → self.new ≡ self.old }
        ensures shaped { self.new.shaped ≡ self.old.shaped }
        ensures rows { self.new.rows ≡ self.old.rows }
    {
        let trouble = refusal.trouble();
        if trouble == Trouble::Failed {
            self.faults = self.faults.saturating_add(1);
        }
        trouble
    }
}

impl Keeper for MemSqlKeeper {
    ghost rows = { λ k. Some k.rows };

    ghost faults = { λ k. k.faults };

    fn rows(&mut self, alloc: Global) -> Result<Vec<Row>, Trouble> {
        match self.all(alloc) {
            Ok(rows) => Ok(rows),
            Err(refusal) => Err(self.blame(refusal)),
        }
    }

    fn append(&mut self, more: &[Row]) -> Result<(), Trouble> {
        match self.add(more) {
            Ok(()) => Ok(()),
            Err(refusal) => Err(self.blame(refusal)),
        }
    }
}
