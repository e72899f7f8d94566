//! The log and its keeper.
ghost use Rattle.rb_causes.specs.Causes.{HasTrouble};
ghost use Rattle.rb_desk.specs.Ledgers.{IsLedger, LedgerState};
ghost use Rattle.std.specs.Prelude.{◌≡◌, ◌≤◌, ◌<◌, ◌+◌, ◌-◌, ◌++◌, ◌∷◌, [], length, OnOk, OnErr, IfSome};

use rb_causes::{Keeper, Row, Trouble};
use std::alloc::Global;
use std::marker::Model;

/// A log with the keeper of its rows.
#[derive(Drop)]
pub(crate) struct Ledger<K: Keeper> {
    keeper: K,
    log: Vec<Row>,
    saved: usize,
}

impl<K: Keeper> Model for Ledger<K> {
    ghost use Rattle.rb_desk.specs.Ledgers.{LedgerState, IsLedger};
    ghost use Rattle.std.specs.Prelude.{◌-◌, vec_len, vec_capacity};

    ghost Value = { LedgerState K };

    ghost view = { λ l. record {
      keeper = l.keeper;
      log = l.log.items;
      saved = l.saved;
      spare = vec_capacity l.log - vec_len l.log;
    } };

    ghost invariant = { λ l. IsLedger K.rows (record {
      keeper = l.keeper;
      log = l.log.items;
      saved = l.saved;
      spare = vec_capacity l.log - vec_len l.log;
    }) };
}

impl<K: Keeper> Ledger<K> {
    /// These rows, over a keeper that holds them.
    pub(crate) fn of(keeper: K, rows: Vec<Row>) -> Ledger<K>
        requires { IfSome (K.rows keeper) (λ held. held ≡ rows.items) }
        ensures keeper { result.keeper ≡ keeper }
        ensures log { result.log ≡ rows.items }
        ensures saved { result.saved ≡ length rows.items }
        ensures held { IsLedger K.rows result }
    {
        let saved = rows.len();
        Ledger {
            keeper,
            log: rows,
            saved,
        }
    }

    /// Adds a row, which the keeper then holds with all before it, and leaves memory for so many
    /// more.
    pub(crate) fn add(&mut self, row: Row, more: usize) -> Result<(), Trouble>
        ensures ok { OnOk result (self.new.log ≡ self.old.log ++ row ∷ []) }
        ensures saved { OnOk result (self.new.saved ≡ length self.new.log) }
        ensures spare { OnOk result (more ≤ self.new.spare) }
        ensures err { OnErr result
            ((self.new.log ≡ self.old.log) × (self.new.saved ≡ self.old.saved)) }
        ensures kept { OnErr result (K.rows self.new.keeper ≡ K.rows self.old.keeper) }
        ensures room { OnErr result (self.old.spare ≤ self.new.spare) }
        ensures cause { HasTrouble (K.faults self.old.keeper) (K.faults self.new.keeper) result }
        ensures held { IsLedger K.rows self.new }
    {
        self.log.reserve(more.saturating_add(1))?;
        self.log.push_reserved(row);
        match self.keeper.append(&self.log[self.saved..]) {
            Ok(()) => {
                self.saved = self.log.len();
                Ok(())
            }
            Err(trouble) => {
                self.log.pop();
                Err(trouble)
            }
        }
    }

    /// Adds a row for which there is memory. The keeper holds it where the answer says so, else it
    /// goes with the next one.
    pub(crate) fn add_owed(&mut self, row: Row) -> Result<(), Trouble>
        requires { 0 < self.old.spare }
        ensures log { self.new.log ≡ self.old.log ++ row ∷ [] }
        ensures ok { OnOk result (self.new.saved ≡ length self.new.log) }
        ensures err { OnErr result (self.new.saved ≡ self.old.saved) }
        ensures spare { self.old.spare ≤ self.new.spare + 1 }
        ensures cause { HasTrouble (K.faults self.old.keeper) (K.faults self.new.keeper) result }
        ensures held { IsLedger K.rows self.new }
    {
        self.log.push_reserved(row);
        self.keeper.append(&self.log[self.saved..])?;
        self.saved = self.log.len();
        Ok(())
    }

    /// Has the keeper hold all rows. It is not called where it does.
    pub(crate) fn save(&mut self) -> Result<(), Trouble>
        ensures log { self.new.log ≡ self.old.log }
        ensures ok { OnOk result (self.new.saved ≡ length self.new.log) }
        ensures err { OnErr result (self.new.saved ≡ self.old.saved) }
        ensures unsaved { OnErr result (self.old.saved < length self.old.log) }
        ensures spare { self.new.spare ≡ self.old.spare }
        ensures cause { HasTrouble (K.faults self.old.keeper) (K.faults self.new.keeper) result }
        ensures held { IsLedger K.rows self.new }
    {
        if self.saved < self.log.len() {
            self.keeper.append(&self.log[self.saved..])?;
            self.saved = self.log.len();
        }
        Ok(())
    }

    /// All rows, oldest first.
    pub(crate) fn log(&self) -> &[Row]
        ensures { result.now ≡ self.now.log }
    {
        self.log.as_slice()
    }

    /// How many rows the keeper holds.
    pub(crate) fn saved(&self) -> usize
        ensures { result ≡ self.now.saved }
    {
        self.saved
    }

    /// The keeper alone.
    pub(crate) fn into_keeper(self) -> K
        ensures { result ≡ self.keeper }
    {
        let Ledger {
            keeper,
            log: _,
            saved: _,
        } = self;
        keeper
    }

    /// All rows, oldest first.
    pub(crate) fn into_log(self) -> Vec<Row>
    where
        K: Drop,
        ensures { result.items ≡ self.log }
    {
        let Ledger {
            keeper: _,
            log,
            saved: _,
        } = self;
        log
    }
}
