ghost use Rattle.std.specs.Prelude.{None};

use rb_causes::{Shelf, Trouble};
use std::alloc::Global;
use std::io::{Eprint, ErrorKind, Read};
use std::rt::Files;
use std::{fs, io};

// One byte more than the largest file that any reader takes, so that a larger one is seen to be
// larger.
const MOST_BYTES: u64 = 1_048_577;

/// The files of the system, each under its path. Of a file that is too large for every reader only
/// so much is read that it is seen to be.
#[derive(Drop)]
pub struct FileShelf<'a, R: Files + Eprint> {
    rt: &'a R,
    faults: u64,
    last: Option<Vec<u8>>,
}

impl<'a, R: Files + Eprint> FileShelf<'a, R> {
    pub fn new(rt: &'a R) -> FileShelf<'a, R> {
        FileShelf {
            rt,
            faults: 0,
            last: None,
        }
    }

    /// The bytes of the last file that was fetched, for those who explain what is wrong with them.
    pub fn last(&self) -> Option<&[u8]> {
        self.last.as_ref().map(|bytes| bytes.as_slice())
    }

    // The bytes of the file at this path, up to the limit.
    fn read(&self, alloc: Global, path: &str) -> io::Result<Vec<u8>> {
        let file = fs::open(self.rt, path)?;
        let mut bytes = Vec::new(alloc);
        file.take(MOST_BYTES).read_to_end(&mut bytes)?;
        Ok(bytes)
    }
}

impl<'a, R: Files + Eprint> Shelf for FileShelf<'a, R> {
    ghost files = { λ _. None };

    ghost faults = { λ s. s.faults };

    fn fetch(&mut self, alloc: Global, name: &str) -> Result<Option<Vec<u8>>, Trouble> {
        let error = match self.read(alloc, name) {
            Ok(bytes) => {
                // Without memory for a copy nothing is explained.
                self.last = Vec::from_slice(alloc, bytes.as_slice()).ok();
                return Ok(Some(bytes));
            }
            Err(error) => error,
        };
        match error.kind() {
            ErrorKind::NotFound => Ok(None),
            ErrorKind::OutOfMemory => Err(Trouble::NoMemory),
            _ => {
                let _told = eprintln!(self.rt; "rundeskd: {name}: {error}");
                self.faults = self.faults.saturating_add(1);
                Err(Trouble::Failed)
            }
        }
    }
}
