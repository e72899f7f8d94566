ghost use Rattle.std.specs.Prelude.{◌≤◌, length};

use rb_causes::{Items, NoMemory, Text};
use std::alloc::Global;
use std::marker::Model;

/// How many lines are told at most.
const MOST_LINES: usize = 100;

/// The lines that are told, of which there are at most 100.
#[derive(Drop)]
pub(crate) struct Told {
    lines: Items<Text>,
}

impl Model for Told {
    ghost use Rattle.std.specs.Prelude.{List, ℕ, ◌≤◌, length};

    ghost Value = { List (List ℕ) };

    ghost view = { λ t. t.lines };

    ghost invariant = { λ t. length t.lines ≤ 100 };
}

impl Told {
    /// No line; takes no memory.
    pub fn new(alloc: Global) -> Told {
        Told {
            lines: Items::new(alloc),
        }
    }

    pub fn is_empty(&self) -> bool {
        self.lines.is_empty()
    }

    pub fn is_full(&self) -> bool {
        self.lines.len() >= MOST_LINES
    }

    /// Adds a line, unless as many are told as may be.
    pub fn add(&mut self, line: Text) -> Result<(), NoMemory> {
        if self.lines.len() < MOST_LINES {
            self.lines.push(line)?;
        }
        Ok(())
    }

    pub fn into_vec(self) -> Vec<Text>
        ensures { length result.items ≤ 100 }
    {
        let Told { lines } = self;
        lines.into_vec()
    }
}
