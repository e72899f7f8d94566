ghost use Rattle.rb_causes.specs.Callers.{unasked, taken_by_each, left_of, has_waiting, after_asking, after_read, after_fault, after_write};
ghost use Rattle.rb_causes.specs.Causes.{HasCause, HasTrouble, has_failed};
ghost use Rattle.rb_causes.specs.Outside.{is_to_fail, next_call};
ghost use Rattle.std.specs.Prelude.{◌≡◌, ◌≤◌, ◌<◌, [], Some, option_map, slice_get, take, length, is_err, IfOk, IfSome, OnErr};

use crate::items::Items;
use crate::line::Line;
use crate::mem_callers::MemCallers;
use crate::planned_faults::PlannedFaults;
use crate::trouble::{Failed, Trouble};
use std::alloc::Global;

/// A line in memory some of whose calls fail.
#[derive(Drop)]
pub struct MemLine {
    callers: MemCallers,
    /// A read gives at most so many bytes.
    pub piece: usize,
    /// Which calls fail: asking, reading and writing are counted together.
    pub planned: PlannedFaults,
    ghost piece_is_some: { 1 ≤ piece },
}

impl MemLine {
    /// A line of callers with these inputs.
    pub fn new(alloc: Global, callers: Vec<Items<u8>>, piece: usize, failing: Vec<u64>) -> MemLine
        requires { 1 ≤ piece }
        ensures callers { ⟦<MemLine as Line>⟧.callers result ≡ Some (unasked callers.items) }
        ensures piece { result.piece ≡ piece }
        ensures failing { result.planned.failing ≡ failing }
        ensures calls { result.planned.calls ≡ 0 }
    {
        MemLine {
            callers: MemCallers::new(alloc, callers),
            piece,
            planned: PlannedFaults::new(failing),
        }
    }

    /// What the caller of this number took, counted from 0, and None where there is no such
    /// caller; takes no memory.
    pub fn taken(&self, caller: usize) -> Option<&[u8]>
        ensures { IfSome (⟦<MemLine as Line>⟧.callers self.now) (λ told.
            option_map (λ bytes. bytes.now) result ≡ slice_get (taken_by_each told) caller) }
    {
        self.callers.taken(caller)
    }
}

impl Line for MemLine {
    ghost callers = { λ l. Some l.callers };

    ghost faults = { λ l. l.planned.faults };

    fn next_caller(&mut self) -> Result<bool, Failed>
        ensures waits { let callers = ⟦<MemLine as Line>⟧.callers in IfOk result (λ some.
            IfSome (callers self.old) (λ told. some ≡ has_waiting told)) }
        ensures ok { let callers = ⟦<MemLine as Line>⟧.callers in IfOk result (λ some.
            callers self.new ≡ option_map after_asking (callers self.old)) }
        ensures err { let callers = ⟦<MemLine as Line>⟧.callers in
            OnErr result (callers self.new ≡ callers self.old) }
        ensures cause { let faults = ⟦<MemLine as Line>⟧.faults in
            HasCause (faults self.old) (faults self.new) result }
        ensures piece { self.new.piece ≡ self.old.piece }
        ensures fails { let planned = self.old.planned in
            is_err result ≡ is_to_fail planned.failing.items planned.calls }
        ensures failing { self.new.planned.failing ≡ self.old.planned.failing }
        ensures calls { self.new.planned.calls ≡ next_call self.old.planned.calls }
    {
        if self.planned.next_fails() {
            return Err(Failed);
        }
        Ok(self.callers.ask())
    }

    fn read(&mut self, into: &mut [u8]) -> Result<usize, Failed>
        ensures count { IfOk result (λ n. n ≤ length into.new) }
        ensures next { let callers = ⟦<MemLine as Line>⟧.callers in IfOk result (λ n.
            IfSome (callers self.old) (λ told. take n into.new ≡ take n (left_of told))) }
        ensures end { let callers = ⟦<MemLine as Line>⟧.callers in IfOk result (λ n.
            IfSome (callers self.old) (λ told. 0 < length into.new → n ≡ 0 → left_of told ≡ [])) }
        ensures ok { let callers = ⟦<MemLine as Line>⟧.callers in IfOk result (λ n.
            callers self.new ≡ option_map (after_read n) (callers self.old)) }
        ensures err { let callers = ⟦<MemLine as Line>⟧.callers in OnErr result
            (callers self.new ≡ option_map after_fault (callers self.old)) }
        ensures cause { let faults = ⟦<MemLine as Line>⟧.faults in
            HasCause (faults self.old) (faults self.new) result }
        ensures most { IfOk result (λ n. n ≤ self.old.piece) }
        ensures piece { self.new.piece ≡ self.old.piece }
        ensures fails { let planned = self.old.planned in
            is_err result ≡ is_to_fail planned.failing.items planned.calls }
        ensures failing { self.new.planned.failing ≡ self.old.planned.failing }
        ensures calls { self.new.planned.calls ≡ next_call self.old.planned.calls }
    {
        if self.planned.next_fails() {
            self.callers.fail();
            return Err(Failed);
        }
        let piece = self.piece;
        Ok(self.callers.read(into, piece))
    }

    fn write(&mut self, from: &[u8]) -> Result<usize, Trouble>
        ensures count { IfOk result (λ n. (n ≤ length from.now) × (0 < length from.now → 0 < n)) }
        ensures ok { let callers = ⟦<MemLine as Line>⟧.callers in IfOk result (λ n.
            callers self.new ≡ option_map (after_write (take n from.now)) (callers self.old)) }
        ensures err { let callers = ⟦<MemLine as Line>⟧.callers in
            OnErr result (callers self.new ≡ callers self.old) }
        ensures cause { let faults = ⟦<MemLine as Line>⟧.faults in
            HasTrouble (faults self.old) (faults self.new) result }
        ensures piece { self.new.piece ≡ self.old.piece }
        ensures fails { let planned = self.old.planned in
            has_failed result ≡ is_to_fail planned.failing.items planned.calls }
        ensures failing { self.new.planned.failing ≡ self.old.planned.failing }
        ensures calls { self.new.planned.calls ≡ next_call self.old.planned.calls }
    {
        if self.planned.next_fails() {
            return Err(Trouble::Failed);
        }
        self.callers.write(from)?;
        Ok(from.len())
    }
}
