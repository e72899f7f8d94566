ghost use Rattle.std.specs.Prelude.{None};

use rb_causes::{Sink, Trouble};
use std::io::{Eprint, ErrorKind};

// How often a write that a signal broke off is tried again.
const TRIES: u32 = 1000;

/// Standard output.
#[derive(Drop)]
pub struct PrintSink<'a, R: Print + Eprint> {
    out: &'a R,
    faults: u64,
}

impl<'a, R: Print + Eprint> PrintSink<'a, R> {
    pub fn new(out: &'a R) -> PrintSink<'a, R> {
        PrintSink { out, faults: 0 }
    }
}

impl<'a, R: Print + Eprint> Sink for PrintSink<'a, R> {
    ghost shown = { λ s. record { taken = None; faults = s.faults; wants = 0; at_fault = None } };

    fn write(&mut self, bytes: &[u8]) -> Result<usize, Trouble> {
        if bytes.is_empty() {
            return Ok(0);
        }
        for _ in 0..TRIES {
            match self.out.write_some(bytes) {
                Ok(0) => break,
                Ok(count) => return Ok(count),
                Err(error) if error.kind() == ErrorKind::Interrupted => {}
                Err(error) => {
                    let _told = eprintln!(self.out; "rundeskd: standard output: {error}");
                    break;
                }
            }
        }
        self.faults = self.faults.saturating_add(1);
        Err(Trouble::Failed)
    }
}
