ghost use Rattle.rb_causes.specs.Causes.{HasTrouble, has_failed};
ghost use Rattle.rb_causes.specs.Outside.{gained, is_to_fail, next_call};
ghost use Rattle.std.specs.Prelude.{◌≡◌, Some, IfSome, IfOk, OnOk, OnErr};

use crate::keeper::Keeper;
use crate::planned_faults::PlannedFaults;
use crate::row::{Row, add_rows, copy_rows};
use crate::trouble::Trouble;
use std::alloc::Global;

/// A keeper in memory some of whose calls fail.
#[derive(Drop)]
pub struct MemKeeper {
    rows: Vec<Row>,
    /// Which calls fail: reading and appending are counted together.
    pub planned: PlannedFaults,
    alloc: Global,
}

impl MemKeeper {
    /// A keeper of these rows whose calls with these numbers, from 1, fail.
    pub fn new(alloc: Global, rows: Vec<Row>, failing: Vec<u64>) -> MemKeeper
        ensures rows { ⟦<MemKeeper as Keeper>⟧.rows result ≡ Some rows.items }
        ensures failing { result.planned.failing ≡ failing }
        ensures calls { result.planned.calls ≡ 0 }
    {
        MemKeeper {
            rows,
            planned: PlannedFaults::new(failing),
            alloc,
        }
    }
}

impl Keeper for MemKeeper {
    ghost rows = { λ k. Some k.rows.items };

    ghost faults = { λ k. k.planned.faults };

    fn rows(&mut self, alloc: Global) -> Result<Vec<Row>, Trouble>
        ensures rows { let kept = ⟦<MemKeeper as Keeper>⟧.rows in
            IfOk result (λ found. IfSome (kept self.old) (λ rows. found.items ≡ rows)) }
        ensures same { let kept = ⟦<MemKeeper as Keeper>⟧.rows in kept self.new ≡ kept self.old }
        ensures cause { let faults = ⟦<MemKeeper as Keeper>⟧.faults in
            HasTrouble (faults self.old) (faults self.new) result }
        ensures fails { let planned = self.old.planned in
            has_failed result ≡ is_to_fail planned.failing.items planned.calls }
        ensures failing { self.new.planned.failing ≡ self.old.planned.failing }
        ensures calls { self.new.planned.calls ≡ next_call self.old.planned.calls }
    {
        if self.planned.next_fails() {
            return Err(Trouble::Failed);
        }
        match copy_rows(alloc, self.rows.as_slice()) {
            Ok(rows) => Ok(rows),
            Err(_) => Err(Trouble::NoMemory),
        }
    }

    fn append(&mut self, more: &[Row]) -> Result<(), Trouble>
        ensures ok { let kept = ⟦<MemKeeper as Keeper>⟧.rows in
            OnOk result (kept self.new ≡ gained (kept self.old) more.now) }
        ensures err { let kept = ⟦<MemKeeper as Keeper>⟧.rows in
            OnErr result (kept self.new ≡ kept self.old) }
        ensures cause { let faults = ⟦<MemKeeper as Keeper>⟧.faults in
            HasTrouble (faults self.old) (faults self.new) result }
        ensures fails { let planned = self.old.planned in
            has_failed result ≡ is_to_fail planned.failing.items planned.calls }
        ensures failing { self.new.planned.failing ≡ self.old.planned.failing }
        ensures calls { self.new.planned.calls ≡ next_call self.old.planned.calls }
    {
        if self.planned.next_fails() {
            return Err(Trouble::Failed);
        }
        match add_rows(self.alloc, &mut self.rows, more) {
            Ok(()) => Ok(()),
            Err(_) => Err(Trouble::NoMemory),
        }
    }
}
