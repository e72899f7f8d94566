ghost use Rattle.rb_causes.specs.Causes.{Rose};
ghost use Rattle.rb_causes.specs.Outside.{is_to_fail, next_call};
ghost use Rattle.std.specs.Prelude.{◌≡◌, ◌≤◌, true, false};

/// Which calls of an object in memory fail.
#[derive(Drop)]
pub struct PlannedFaults {
    /// The numbers, from 1, of the calls that fail.
    pub failing: Vec<u64>,
    /// How many calls there have been.
    pub calls: u64,
    /// How many of them failed.
    pub faults: u64,
}

impl PlannedFaults {
    /// The calls with these numbers, from 1, fail.
    pub fn new(failing: Vec<u64>) -> PlannedFaults
        ensures failing { result.failing ≡ failing }
        ensures calls { result.calls ≡ 0 }
        ensures faults { result.faults ≡ 0 }
    {
        PlannedFaults {
            failing,
            calls: 0,
            faults: 0,
        }
    }

    /// Counts the next call, and tells whether it fails; counts that fault too.
    pub(crate) fn next_fails(&mut self) -> bool
        ensures fails { result ≡ is_to_fail self.old.failing.items self.old.calls }
        ensures failing { self.new.failing ≡ self.old.failing }
        ensures calls { self.new.calls ≡ next_call self.old.calls }
        ensures later { self.old.faults ≤ self.new.faults }
        ensures fault { result ≡ true → Rose self.old.faults self.new.faults }
        ensures steady { result ≡ false → self.new.faults ≡ self.old.faults }
    {
        self.calls = self.calls.saturating_add(1);
        let fails = self.failing.contains(&self.calls);
        if fails {
            self.faults = self.faults.saturating_add(1);
        }
        fails
    }
}
