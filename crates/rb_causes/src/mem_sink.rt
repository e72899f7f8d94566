ghost use Rattle.rb_causes.specs.Causes.{has_failed};
ghost use Rattle.rb_causes.specs.Outside.{is_to_fail, next_call};
ghost use Rattle.rb_causes.specs.Sinks.{Takes};
ghost use Rattle.std.specs.Prelude.{◌≡◌, [], None, Some};

use crate::planned_faults::PlannedFaults;
use crate::sink::Sink;
use crate::trouble::Trouble;
use std::alloc::Global;

/// A sink in memory some of whose writes fail.
#[derive(Drop)]
pub struct MemSink {
    taken: Vec<u8>,
    /// Which writes fail.
    pub planned: PlannedFaults,
    // How many bytes had been taken at the first failed write.
    at_fault: Option<usize>,
    wants: u64,
}

impl MemSink {
    /// A sink whose writes with these numbers, from 1, fail.
    pub fn new(alloc: Global, failing: Vec<u64>) -> MemSink
        ensures taken { (⟦<MemSink as Sink>⟧.shown result).taken ≡ Some [] }
        ensures at_fault { (⟦<MemSink as Sink>⟧.shown result).at_fault ≡ None }
        ensures failing { result.planned.failing ≡ failing }
        ensures calls { result.planned.calls ≡ 0 }
    {
        MemSink {
            taken: Vec::new(alloc),
            planned: PlannedFaults::new(failing),
            at_fault: None,
            wants: 0,
        }
    }

    /// All bytes that were written; takes no memory.
    pub fn bytes(&self) -> &[u8]
        ensures { Some result.now ≡ (⟦<MemSink as Sink>⟧.shown self.now).taken }
    {
        self.taken.as_slice()
    }

    /// How many bytes had been written at the first failed write.
    pub fn at_fault(&self) -> Option<usize>
        ensures { result ≡ (⟦<MemSink as Sink>⟧.shown self.now).at_fault }
    {
        self.at_fault
    }
}

impl Sink for MemSink {
    ghost shown = { λ s. record {
      taken = Some s.taken.items;
      faults = s.planned.faults;
      wants = s.wants;
      at_fault = s.at_fault;
    } };

    fn write(&mut self, bytes: &[u8]) -> Result<usize, Trouble>
        ensures takes { let shown = ⟦<MemSink as Sink>⟧.shown in
            Takes bytes.now (shown self.old) (shown self.new) result }
        ensures fails { let planned = self.old.planned in
            has_failed result ≡ is_to_fail planned.failing.items planned.calls }
        ensures failing { self.new.planned.failing ≡ self.old.planned.failing }
        ensures calls { self.new.planned.calls ≡ next_call self.old.planned.calls }
    {
        if self.planned.next_fails() {
            if self.at_fault.is_none() {
                self.at_fault = Some(self.taken.len());
            }
            return Err(Trouble::Failed);
        }
        if self.taken.extend_from_slice(bytes).is_err() {
            self.wants = self.wants.saturating_add(1);
            return Err(Trouble::NoMemory);
        }
        Ok(bytes.len())
    }
}
