ghost use Rattle.rb_causes.specs.Outside.{next_call, AreCodes};
ghost use Rattle.rb_causes.specs.Spawners.{RunsWords, planned_ending};
ghost use Rattle.std.specs.Prelude.{◌≡◌, ◌-◌, ◌<◌, ◌≤◌, [], Some, IfSome, OnOk, length, vec_len, vec_capacity};

use crate::ending::Ending;
use crate::items::Items;
use crate::planned_faults::PlannedFaults;
use crate::spawner::{SpawnRun, Spawner, ending_at};
use crate::text::Text;
use crate::trouble::{Failed, NoMemory};
use std::alloc::Global;

/// A spawner in memory some of whose runs fail.
#[derive(Drop)]
pub struct MemSpawner {
    /// How the runs end that do not fail, one after another.
    pub endings: Vec<Ending>,
    runs: Vec<SpawnRun>,
    /// Which runs fail.
    pub planned: PlannedFaults,
    ghost codes: { AreCodes endings.items },
}

impl MemSpawner {
    /// A spawner whose runs end so, one after another, and those behind the list with the code 0;
    /// those with these numbers, from 1, fail in place of that.
    pub fn new(alloc: Global, endings: Vec<Ending>, failing: Vec<u64>) -> MemSpawner
        requires { AreCodes endings.items }
        ensures runs { (⟦<MemSpawner as Spawner>⟧.shown result).runs ≡ Some [] }
        ensures endings { result.endings ≡ endings }
        ensures failing { result.planned.failing ≡ failing }
        ensures calls { result.planned.calls ≡ 0 }
    {
        MemSpawner {
            endings,
            runs: Vec::new(alloc),
            planned: PlannedFaults::new(failing),
        }
    }

    /// All runs that were asked for; takes no memory.
    pub fn runs(&self) -> &[SpawnRun]
        ensures { Some result.now ≡ (⟦<MemSpawner as Spawner>⟧.shown self.now).runs }
    {
        self.runs.as_slice()
    }
}

impl Spawner for MemSpawner {
    ghost shown = { λ s. record { runs = Some s.runs.items; faults = s.planned.faults } };

    ghost room = { λ s. vec_capacity s.runs - vec_len s.runs };

    fn ready(&mut self) -> Result<(), NoMemory>
        ensures room { OnOk result (0 < ⟦<MemSpawner as Spawner>⟧.room self.new) }
        ensures kept { let room = ⟦<MemSpawner as Spawner>⟧.room in room self.old ≤ room self.new }
        ensures runs { let shown = ⟦<MemSpawner as Spawner>⟧.shown in
            (shown self.new).runs ≡ (shown self.old).runs }
        ensures faults { let shown = ⟦<MemSpawner as Spawner>⟧.shown in
            (shown self.new).faults ≡ (shown self.old).faults }
        ensures endings { self.new.endings ≡ self.old.endings }
        ensures planned { self.new.planned ≡ self.old.planned }
    {
        self.runs.reserve(1)?;
        Ok(())
    }

    fn run(&mut self, words: Vec<Text>) -> Result<Ending, Failed>
        requires { 0 < ⟦<MemSpawner as Spawner>⟧.room self.old }
        ensures runs { let spawner = ⟦<MemSpawner as Spawner>⟧ in
            RunsWords words.items (spawner.shown self.old) (spawner.shown self.new) result }
        ensures ending { IfSome (⟦<MemSpawner as Spawner>⟧.shown self.old).runs (λ runs.
            let failing = self.old.planned.failing.items in
            let calls = self.old.planned.calls in
            result ≡ planned_ending self.old.endings.items failing calls (length runs)) }
        ensures endings { self.new.endings ≡ self.old.endings }
        ensures failing { self.new.planned.failing ≡ self.old.planned.failing }
        ensures calls { self.new.planned.calls ≡ next_call self.old.planned.calls }
    {
        let words = Items::of(words);
        if self.planned.next_fails() {
            self.runs.push_reserved(SpawnRun {
                words,
                ending: Ending::NotStarted,
            });
            return Err(Failed);
        }
        let ending = ending_at(self.endings.as_slice(), self.runs.len());
        self.runs.push_reserved(SpawnRun { words, ending });
        Ok(ending)
    }
}
