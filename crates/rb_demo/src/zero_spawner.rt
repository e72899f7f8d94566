ghost use Rattle.rb_causes.specs.Spawners.{RunsWords};
ghost use Rattle.rb_demo.specs.Counting.{ends_with_zero};
ghost use Rattle.std.specs.List.{list_all};
ghost use Rattle.std.specs.Prelude.{◌≡◌, ◌-◌, ◌<◌, ◌≤◌, [], Some, IsTrue, OnOk, vec_len, vec_capacity};

use rb_causes::{Ending, Failed, Items, NoMemory, SpawnRun, Spawner, Text};
use std::alloc::Global;

/// A spawner in memory that never fails, and whose programs all end with the code 0.
#[derive(Drop)]
pub(crate) struct ZeroSpawner {
    runs: Vec<SpawnRun>,
    ghost zero: { IsTrue (list_all ends_with_zero runs.items) },
}

impl ZeroSpawner {
    /// A spawner that has run nothing.
    pub(crate) fn new(alloc: Global) -> ZeroSpawner
        ensures { (⟦<ZeroSpawner as Spawner>⟧.shown result).runs ≡ Some [] }
    {
        ZeroSpawner {
            runs: Vec::new(alloc),
        }
    }
}

impl Spawner for ZeroSpawner {
    ghost shown = { λ s. record { runs = Some s.runs.items; faults = 0 } };

    ghost room = { λ s. vec_capacity s.runs - vec_len s.runs };

    fn ready(&mut self) -> Result<(), NoMemory>
        ensures room { OnOk result (0 < ⟦<ZeroSpawner as Spawner>⟧.room self.new) }
        ensures kept { let room = ⟦<ZeroSpawner as Spawner>⟧.room in
            room self.old ≤ room self.new }
        ensures runs { let shown = ⟦<ZeroSpawner as Spawner>⟧.shown in
            (shown self.new).runs ≡ (shown self.old).runs }
        ensures faults { let shown = ⟦<ZeroSpawner as Spawner>⟧.shown in
            (shown self.new).faults ≡ (shown self.old).faults }
    {
        self.runs.reserve(1)?;
        Ok(())
    }

    fn run(&mut self, words: Vec<Text>) -> Result<Ending, Failed>
        requires { 0 < ⟦<ZeroSpawner as Spawner>⟧.room self.old }
        ensures { let spawner = ⟦<ZeroSpawner as Spawner>⟧ in
            RunsWords words.items (spawner.shown self.old) (spawner.shown self.new) result }
    {
        let words = Items::of(words);
        let ending = Ending::Code(0);
        self.runs.push_reserved(SpawnRun { words, ending });
        Ok(ending)
    }
}
