ghost use Rattle.std.specs.Prelude.{◌≡◌, [], None, Some};

use crate::sink::Sink;
use crate::trouble::Trouble;
use std::alloc::Global;

/// A sink in memory that never fails.
#[derive(Drop)]
pub struct SteadySink {
    taken: Vec<u8>,
    wants: u64,
}

impl SteadySink {
    /// A sink that has taken nothing.
    pub fn new(alloc: Global) -> SteadySink
        ensures { (⟦<SteadySink as Sink>⟧.shown result).taken ≡ Some [] }
    {
        SteadySink {
            taken: Vec::new(alloc),
            wants: 0,
        }
    }

    /// All bytes that were written; takes no memory.
    pub fn bytes(&self) -> &[u8]
        ensures { Some result.now ≡ (⟦<SteadySink as Sink>⟧.shown self.now).taken }
    {
        self.taken.as_slice()
    }
}

impl Sink for SteadySink {
    ghost shown = { λ s. record {
      taken = Some s.taken.items;
      faults = 0;
      wants = s.wants;
      at_fault = None;
    } };

    fn write(&mut self, bytes: &[u8]) -> Result<usize, Trouble> {
        if self.taken.extend_from_slice(bytes).is_err() {
            self.wants = self.wants.saturating_add(1);
            return Err(Trouble::NoMemory);
        }
        Ok(bytes.len())
    }
}
