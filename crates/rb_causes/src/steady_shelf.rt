ghost use Rattle.std.specs.Prelude.{◌≡◌, Some};

use crate::shelf::{File, Shelf, copy_at};
use crate::trouble::Trouble;
use std::alloc::Global;

/// A shelf in memory that never fails.
#[derive(Drop)]
pub struct SteadyShelf {
    files: Vec<File>,
}

impl SteadyShelf {
    /// A shelf of these files.
    pub fn new(files: Vec<File>) -> SteadyShelf
        ensures { ⟦<SteadyShelf as Shelf>⟧.files result ≡ Some files.items }
    {
        SteadyShelf { files }
    }
}

impl Shelf for SteadyShelf {
    ghost files = { λ s. Some s.files.items };

    ghost faults = { λ _. 0 };

    fn fetch(&mut self, alloc: Global, name: &str) -> Result<Option<Vec<u8>>, Trouble> {
        copy_at(alloc, self.files.as_slice(), name).map_err(|_| Trouble::NoMemory)
    }
}
