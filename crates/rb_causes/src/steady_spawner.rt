ghost use Rattle.rb_causes.specs.Outside.{ending_at, AreCodes};
ghost use Rattle.rb_causes.specs.Spawners.{RunsWords};
ghost use Rattle.std.specs.Prelude.{◌≡◌, ◌-◌, ◌<◌, ◌≤◌, [], Some, IfSome, OnOk, Ok, length, vec_len, vec_capacity};

use crate::ending::Ending;
use crate::items::Items;
use crate::spawner::{SpawnRun, Spawner, ending_at};
use crate::text::Text;
use crate::trouble::{Failed, NoMemory};
use std::alloc::Global;

/// A spawner in memory that never fails.
#[derive(Drop)]
pub struct SteadySpawner {
    /// How the runs end, one after another.
    pub endings: Vec<Ending>,
    runs: Vec<SpawnRun>,
    ghost codes: { AreCodes endings.items },
}

impl SteadySpawner {
    /// A spawner whose runs end so, one after another, and those behind the list with the code 0.
    pub fn new(alloc: Global, endings: Vec<Ending>) -> SteadySpawner
        requires { AreCodes endings.items }
        ensures runs { (⟦<SteadySpawner as Spawner>⟧.shown result).runs ≡ Some [] }
        ensures endings { result.endings ≡ endings }
    {
        SteadySpawner {
            endings,
            runs: Vec::new(alloc),
        }
    }

    /// All runs that were asked for; takes no memory.
    pub fn runs(&self) -> &[SpawnRun]
        ensures { Some result.now ≡ (⟦<SteadySpawner as Spawner>⟧.shown self.now).runs }
    {
        self.runs.as_slice()
    }
}

impl Spawner for SteadySpawner {
    ghost shown = { λ s. record { runs = Some s.runs.items; faults = 0 } };

    ghost room = { λ s. vec_capacity s.runs - vec_len s.runs };

    fn ready(&mut self) -> Result<(), NoMemory>
        ensures room { OnOk result (0 < ⟦<SteadySpawner as Spawner>⟧.room self.new) }
        ensures kept { let room = ⟦<SteadySpawner as Spawner>⟧.room in
            room self.old ≤ room self.new }
        ensures runs { let shown = ⟦<SteadySpawner as Spawner>⟧.shown in
            (shown self.new).runs ≡ (shown self.old).runs }
        ensures faults { let shown = ⟦<SteadySpawner as Spawner>⟧.shown in
            (shown self.new).faults ≡ (shown self.old).faults }
        ensures endings { self.new.endings ≡ self.old.endings }
    {
        self.runs.reserve(1)?;
        Ok(())
    }

    fn run(&mut self, words: Vec<Text>) -> Result<Ending, Failed>
        requires { 0 < ⟦<SteadySpawner as Spawner>⟧.room self.old }
        ensures runs { let spawner = ⟦<SteadySpawner as Spawner>⟧ in
            RunsWords words.items (spawner.shown self.old) (spawner.shown self.new) result }
        ensures ending { IfSome (⟦<SteadySpawner as Spawner>⟧.shown self.old).runs (λ runs.
            result ≡ Ok (ending_at self.old.endings.items (length runs))) }
        ensures endings { self.new.endings ≡ self.old.endings }
    {
        let ending = ending_at(self.endings.as_slice(), self.runs.len());
        let words = Items::of(words);
        self.runs.push_reserved(SpawnRun { words, ending });
        Ok(ending)
    }
}
