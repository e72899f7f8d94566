ghost use Rattle.rb_causes.specs.Causes.{HasTrouble, has_failed};
ghost use Rattle.rb_causes.specs.Outside.{Fetched, is_to_fail, next_call};
ghost use Rattle.std.specs.Prelude.{◌≡◌, Some, IfOk, option_map};

use crate::planned_faults::PlannedFaults;
use crate::shelf::{File, Shelf, copy_at};
use crate::trouble::Trouble;
use std::alloc::Global;

/// A shelf in memory some of whose fetches fail.
#[derive(Drop)]
pub struct MemShelf {
    files: Vec<File>,
    /// Which fetches fail.
    pub planned: PlannedFaults,
}

impl MemShelf {
    /// A shelf of these files, whose fetches with these numbers, from 1, fail.
    pub fn new(files: Vec<File>, failing: Vec<u64>) -> MemShelf
        ensures files { ⟦<MemShelf as Shelf>⟧.files result ≡ Some files.items }
        ensures failing { result.planned.failing ≡ failing }
        ensures calls { result.planned.calls ≡ 0 }
    {
        MemShelf {
            files,
            planned: PlannedFaults::new(failing),
        }
    }
}

impl Shelf for MemShelf {
    ghost files = { λ s. Some s.files.items };

    ghost faults = { λ s. s.planned.faults };

    fn fetch(&mut self, alloc: Global, name: &str) -> Result<Option<Vec<u8>>, Trouble>
        ensures file { let files = ⟦<MemShelf as Shelf>⟧.files self.old in
            IfOk result (λ found. Fetched files name.now (option_map (λ v. v.items) found)) }
        ensures same { ⟦<MemShelf as Shelf>⟧.files self.new ≡ ⟦<MemShelf as Shelf>⟧.files self.old }
        ensures cause { let shelf = ⟦<MemShelf as Shelf>⟧ in
            HasTrouble (shelf.faults self.old) (shelf.faults self.new) result }
        ensures fails { let planned = self.old.planned in
            has_failed result ≡ is_to_fail planned.failing.items planned.calls }
        ensures failing { self.new.planned.failing ≡ self.old.planned.failing }
        ensures calls { self.new.planned.calls ≡ next_call self.old.planned.calls }
    {
        if self.planned.next_fails() {
            return Err(Trouble::Failed);
        }
        copy_at(alloc, self.files.as_slice(), name).map_err(|_| Trouble::NoMemory)
    }
}
