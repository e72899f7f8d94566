ghost use Rattle.std.specs.Prelude.{None};

use rb_causes::{Failed, Line, Trouble};
use std::io::{Eprint, ErrorKind, Read, Write};
use std::rt::{Stdin, Stdout};

// How often a call that a signal broke off is tried again.
const TRIES: u32 = 1000;

/// One caller, who gives standard input and takes standard output.
#[derive(Drop)]
pub struct StdioLine<'a, R: Eprint> {
    rt: &'a R,
    input: Stdin,
    output: Stdout,
    asked: bool,
    faults: u64,
}

impl<'a, R: Eprint> StdioLine<'a, R> {
    pub fn new(rt: &'a R, input: Stdin, output: Stdout) -> StdioLine<'a, R> {
        StdioLine {
            rt,
            input,
            output,
            asked: false,
            faults: 0,
        }
    }
}

impl<'a, R: Eprint> Line for StdioLine<'a, R> {
    ghost callers = { λ _. None };

    ghost faults = { λ l. l.faults };

    fn next_caller(&mut self) -> Result<bool, Failed> {
        let some = !self.asked;
        self.asked = true;
        Ok(some)
    }

    fn read(&mut self, into: &mut [u8]) -> Result<usize, Failed> {
        for _ in 0..TRIES {
            match self.input.read(into) {
                Ok(count) => return Ok(count),
                Err(error) if error.kind() == ErrorKind::Interrupted => {}
                Err(error) => {
                    let _told = eprintln!(self.rt; "rundeskd: standard input: {error}");
                    break;
                }
            }
        }
        self.faults = self.faults.saturating_add(1);
        Err(Failed)
    }

    fn write(&mut self, from: &[u8]) -> Result<usize, Trouble> {
        if from.is_empty() {
            return Ok(0);
        }
        for _ in 0..TRIES {
            match self.output.write(from) {
                Ok(0) => break,
                Ok(count) => return Ok(count),
                Err(error) if error.kind() == ErrorKind::Interrupted => {}
                Err(error) => {
                    let _told = eprintln!(self.rt; "rundeskd: standard output: {error}");
                    break;
                }
            }
        }
        self.faults = self.faults.saturating_add(1);
        Err(Trouble::Failed)
    }
}
