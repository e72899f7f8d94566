//! Programs that end well.
use rb_causes::{Ending, Failed, NoMemory, Spawner, Text};

/// A spawner that takes no memory: each program ends with the code 0, and none is listed.
#[derive(Drop)]
pub(crate) struct QuietSpawner;

impl Spawner for QuietSpawner {
    ghost use Rattle.std.specs.Prelude.{None};

    ghost shown = { λ _. record { runs = None; faults = 0 } };

    ghost room = { λ _. 1 };

    fn ready(&mut self) -> Result<(), NoMemory> {
        Ok(())
    }

    fn run(&mut self, _words: Vec<Text>) -> Result<Ending, Failed> {
        Ok(Ending::Code(0))
    }
}
