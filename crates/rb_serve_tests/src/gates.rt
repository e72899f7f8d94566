//! Lines and spawners in memory some of whose calls wait for calls of other threads.
ghost use Rattle.rb_causes.specs.Callers.{has_waiting, after_asking, after_read, after_fault, after_write, left_of};
ghost use Rattle.rb_causes.specs.Causes.{HasCause, HasTrouble};
ghost use Rattle.rb_causes.specs.Spawners.{RunsWords};
ghost use Rattle.std.specs.Prelude.{◌≡◌, ◌≤◌, ◌<◌, [], option_map, take, length, IfOk, IfSome, OnErr, OnOk};

use rb_causes::{Ending, Failed, Line, MemLine, MemSpawner, NoMemory, Spawner, Text, Trouble};
use std::sync::atomic::AtomicU64;
use std::sync::atomic::Ordering::SeqCst;
use std::thread::yield_now;

/// How often one thread lets others run before it gives up waiting for them.
const TURNS: u32 = 100_000;

/// What has happened so far, in whichever thread.
#[derive(Drop)]
pub(crate) struct Gates {
    /// Programs that have begun.
    begun: AtomicU64,
    /// Reads of the first line.
    reads: AtomicU64,
    /// Times that the second line was asked for a caller.
    asks: AtomicU64,
    /// Waits that were given up.
    late: AtomicU64,
}

impl Gates {
    pub(crate) fn new() -> Gates {
        Gates {
            begun: AtomicU64::new(0),
            reads: AtomicU64::new(0),
            asks: AtomicU64::new(0),
            late: AtomicU64::new(0),
        }
    }

    /// How many waits were given up.
    pub(crate) fn late(&self) -> u64 {
        self.late.load(SeqCst)
    }

    /// Waits until so many of these things have happened.
    fn pass(&self, happened: &AtomicU64, wanted: u64) {
        for _turn in 0..TURNS {
            if happened.load(SeqCst) >= wanted {
                return;
            }
            yield_now();
        }
        self.late.fetch_add(1, SeqCst);
    }
}

/// Which calls of a line wait.
#[derive(Clone, Copy, Drop)]
pub(crate) enum Place {
    /// None.
    Any,
    /// The read that tells the end, until the second line was asked for a caller and a program has
    /// begun.
    First,
    /// Being asked for a caller, until the first line was read.
    Second,
}

#[derive(Drop)]
pub(crate) struct GatedLine<'g> {
    pub(crate) line: MemLine,
    pub(crate) gates: &'g Gates,
    pub(crate) place: Place,
}

impl<'g> Line for GatedLine<'g> {
    ghost callers = { λ l. ⟦<MemLine as Line>⟧.callers l.line };

    ghost faults = { λ l. ⟦<MemLine as Line>⟧.faults l.line };

    fn next_caller(&mut self) -> Result<bool, Failed> {
        if let Place::Second = self.place {
            self.gates.asks.fetch_add(1, SeqCst);
            self.gates.pass(&self.gates.reads, 1);
        }
        self.line.next_caller()
    }

    fn read(&mut self, into: &mut [u8]) -> Result<usize, Failed> {
        if let Place::First = self.place {
            self.gates.reads.fetch_add(1, SeqCst);
        }
        let count = self.line.read(into)?;
        if let (Place::First, 0) = (self.place, count) {
            self.gates.pass(&self.gates.asks, 1);
            self.gates.pass(&self.gates.begun, 1);
        }
        Ok(count)
    }

    fn write(&mut self, from: &[u8]) -> Result<usize, Trouble> {
        self.line.write(from)
    }
}

/// A spawner whose programs end when so many have begun, of all spawners together.
#[derive(Drop)]
pub(crate) struct GatedSpawner<'g> {
    pub(crate) spawner: MemSpawner,
    pub(crate) gates: &'g Gates,
    pub(crate) together: u64,
}

impl<'g> Spawner for GatedSpawner<'g> {
    ghost shown = { λ s. ⟦<MemSpawner as Spawner>⟧.shown s.spawner };

    ghost room = { λ s. ⟦<MemSpawner as Spawner>⟧.room s.spawner };

    fn ready(&mut self) -> Result<(), NoMemory> {
        self.spawner.ready()
    }

    fn run(&mut self, words: Vec<Text>) -> Result<Ending, Failed> {
        self.gates.begun.fetch_add(1, SeqCst);
        self.gates.pass(&self.gates.begun, self.together);
        self.spawner.run(words)
    }
}
