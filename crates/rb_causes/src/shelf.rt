ghost use Rattle.rb_causes.specs.Causes.{HasTrouble};
ghost use Rattle.rb_causes.specs.Outside.{Fetched, bytes_at};
ghost use Rattle.rb_causes.specs.declared.shelf.File.{File};
ghost use Rattle.std.specs.Prelude.{◌≡◌, ℕ, List, Option, option_map, IfOk};

use crate::items::Items;
use crate::text::Text;
use crate::trouble::{NoMemory, Trouble};
use std::alloc::Global;

/// A file of a shelf in memory: its name and its bytes.
#[derive(Drop)]
pub struct File {
    pub name: Text,
    pub bytes: Items<u8>,
}

/// Where files come from: a folder, or a list in memory. Of two files with one name the first
/// counts.
pub trait Shelf {
    /// The files, where this object tells them.
    ghost files: { Self → Option (List File) };

    /// How many faults there have been.
    ghost faults: { Self → ℕ };

    /// The bytes of the file of this name, or None where there is none.
    fn fetch(&mut self, alloc: Global, name: &str) -> Result<Option<Vec<u8>>, Trouble>
        ensures file { IfOk result (λ found.
            Fetched (files self.old) name.now (option_map (λ v. v.items) found)) }
        ensures same { files self.new ≡ files self.old }
        ensures cause { HasTrouble (faults self.old) (faults self.new) result };
}

/// A copy of the bytes of the first file of this name, or None where there is none.
pub(crate) fn copy_at(
    alloc: Global,
    files: &[File],
    name: &str,
) -> Result<Option<Vec<u8>>, NoMemory>
    ensures { IfOk result (λ found. option_map (λ v. v.items) found ≡ bytes_at files.now name.now) }
{
    for file in files {
        if file.name.as_str() == name {
            let bytes = Vec::from_slice(alloc, file.bytes.as_slice())?;
            return Ok(Some(bytes));
        }
    }
    Ok(None)
}
