ghost use Rattle.std.specs.Prelude.{None};

use rb_causes::{Sink, Trouble};
use std::io::{ErrorKind, Write};
use std::rt::Stderr;

// How often a write that a signal broke off is tried again.
const TRIES: u32 = 1000;

/// Standard error.
#[derive(Drop)]
pub struct ErrorSink {
    out: Stderr,
    faults: u64,
}

impl ErrorSink {
    pub fn new(out: Stderr) -> ErrorSink {
        ErrorSink { out, faults: 0 }
    }
}

impl Sink for ErrorSink {
    ghost shown = { λ s. record { taken = None; faults = s.faults; wants = 0; at_fault = None } };

    fn write(&mut self, bytes: &[u8]) -> Result<usize, Trouble> {
        if bytes.is_empty() {
            return Ok(0);
        }
        for _ in 0..TRIES {
            match self.out.write(bytes) {
                Ok(0) => break,
                Ok(count) => return Ok(count),
                Err(error) if error.kind() == ErrorKind::Interrupted => {}
                Err(_) => break,
            }
        }
        self.faults = self.faults.saturating_add(1);
        Err(Trouble::Failed)
    }
}
