ghost use Rattle.rb_causes.specs.Spawners.{Ran};
ghost use Rattle.std.specs.Prelude.{◌≡◌, ◌<◌, ◌∷◌, [], IsTrue};

use rb_causes::{Ending, Failed, Items, Spawner, Text};
use rb_marks::Leaf;
use std::marker::Model;

/// A leaf that has begun and has not ended, with the worker that claimed it.
#[derive(Clone, Copy, Debug, PartialEq, Eq)]
pub struct OpenLeaf {
    pub execution: u64,
    pub leaf: Leaf,
    pub worker: u32,
}

/// Words to be run once, for a leaf. It has to be spent: only `start` does that.
pub struct Task {
    claimed: OpenLeaf,
    words: Items<Text>,
}

impl Model for Task {
    ghost use Rattle.rb_log.specs.Tasks.{TaskValue};

    ghost Value = { TaskValue };

    ghost view = { λ t. record { claimed = t.claimed; words = t.words } };
}

/// A task that was run, and how it ended. Only a task makes one.
pub struct Done {
    claimed: OpenLeaf,
    ending: Ending,
}

impl Model for Done {
    ghost use Rattle.rb_log.specs.Tasks.{DoneValue, is_ending};
    ghost use Rattle.std.specs.Prelude.{IsTrue};

    ghost Value = { DoneValue };

    ghost view = { λ d. record { claimed = d.claimed; ending = d.ending } };

    ghost invariant = { λ d. IsTrue (is_ending d.ending) };
}

impl Task {
    /// The task for a leaf that was claimed.
    pub fn new(claimed: OpenLeaf, words: Items<Text>) -> Task
        ensures { result ≡ record { claimed = claimed; words = words } }
    {
        Task { claimed, words }
    }

    /// The leaf for which it was claimed.
    pub fn claimed(&self) -> OpenLeaf
        ensures { result ≡ self.now.claimed }
    {
        self.claimed
    }

    /// The words that are to be run.
    pub fn words(&self) -> &[Text]
        ensures { result.now ≡ self.now.words }
    {
        self.words.as_slice()
    }

    /// Runs the words once. The spawner has to have room for the run.
    pub fn start<S: Spawner>(self, spawner: &mut S) -> Done
        requires { 0 < S.room spawner.old }
        ensures claimed { result.claimed ≡ self.claimed }
        ensures ran { Ran (record { words = self.words; ending = result.ending } ∷ [])
            (S.shown spawner.old) (S.shown spawner.new) }
    {
        let Task { claimed, words } = self;
        let ending = match spawner.run(words.into_vec()) {
            Ok(ending) => ending,
            Err(Failed) => Ending::NotStarted,
        };
        Done { claimed, ending }
    }
}

impl Done {
    ghost use Rattle.rb_log.specs.Tasks.{is_ending};

    /// The leaf that was run.
    pub fn claimed(&self) -> OpenLeaf
        ensures { result ≡ self.now.claimed }
    {
        self.claimed
    }

    /// The leaf that was run, and how it ended.
    pub fn into_parts(self) -> (OpenLeaf, Ending)
        ensures parts { result ≡ (self.claimed, self.ending) }
        ensures ending { IsTrue (is_ending result.1) }
    {
        let Done { claimed, ending } = self;
        (claimed, ending)
    }
}
