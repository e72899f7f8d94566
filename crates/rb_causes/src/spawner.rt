ghost use Rattle.rb_causes.specs.Outside.{ending_at, is_code, AreCodes, IsCode};
ghost use Rattle.rb_causes.specs.Spawners.{ShownRuns, RunsWords};
ghost use Rattle.std.specs.List.{list_all};
ghost use Rattle.std.specs.Prelude.{◌≡◌, ◌≤◌, ◌<◌, ℕ, OnOk};

use crate::ending::Ending;
use crate::items::Items;
use crate::text::Text;
use crate::trouble::{Failed, NoMemory};

/// One run of a program: its words, and how it ended.
#[derive(Drop)]
pub struct SpawnRun {
    pub words: Items<Text>,
    pub ending: Ending,
}

/// What starts programs: child processes, or a list of endings in memory.
pub trait Spawner {
    /// All runs that were asked for, in order, where this object tells them, and its count of
    /// faults. One that failed is listed as not started.
    ghost shown: { Self → ShownRuns };

    /// For how many more runs there is room.
    ghost room: { Self → ℕ };

    /// Makes room for one more run. It loses none, whether that succeeds or not, and is no fault.
    fn ready(&mut self) -> Result<(), NoMemory>
        ensures room { OnOk result (0 < room self.new) }
        ensures kept { room self.old ≤ room self.new }
        ensures runs { (shown self.new).runs ≡ (shown self.old).runs }
        ensures faults { (shown self.new).faults ≡ (shown self.old).faults };

    /// Runs the program named by the first word with the others as its arguments, and waits for its
    /// end. `Failed` where it could not be started.
    fn run(&mut self, words: Vec<Text>) -> Result<Ending, Failed>
        requires { 0 < room self.old }
        ensures { RunsWords words.items (shown self.old) (shown self.new) result };
}

/// Whether each of the endings is a code, as the spawners in memory ask of theirs.
pub fn are_codes(endings: &[Ending]) -> bool
    ensures { result ≡ list_all is_code endings.now }
{
    endings.iter().all(|ending| ending.is_code())
}

/// The ending at this place, counted from 0, and the code 0 behind the last.
pub(crate) fn ending_at(endings: &[Ending], place: usize) -> Ending
    requires { AreCodes endings.now }
    ensures code { IsCode result }
    ensures place { result ≡ ending_at endings.now place }
{
    match endings.get(place) {
        Some(ending) => *ending,
        None => Ending::Code(0),
    }
}
