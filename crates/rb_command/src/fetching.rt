ghost use Rattle.rb_causes.specs.Outside.{Fetched};
ghost use Rattle.rb_command.specs.Told.{IsNotFetched};
ghost use Rattle.std.specs.Prelude.{◌≡◌, ◌≤◌, Some, IfOk, IfErr, OnOk};

use crate::status::{NO_MEMORY, REFUSED, SHELF_FAILED};
use crate::telling::{tell_absent, tell_memory, tell_shelf};
use rb_causes::{Shelf, Sink, Trouble};
use std::alloc::Global;

/// The bytes of the file of this name, fetched without a fault. Where there are none to be had, why
/// is told, and the status is answered: 3 for a file that is not there, 4 for a shelf that failed,
/// 7 for want of memory.
pub fn fetch_or_tell<F: Shelf, O: Sink>(
    alloc: Global,
    name: &str,
    shelf: &mut F,
    out: &mut O,
) -> Result<Vec<u8>, u8>
    ensures bytes { IfOk result (λ bytes.
        Fetched (F.files shelf.old) name.now (Some bytes.items)) }
    ensures silent { OnOk result (O.shown out.new ≡ O.shown out.old) }
    ensures told { IfErr result (λ status.
        IsNotFetched (F.files shelf.old) name.now (F.faults shelf.old) (F.faults shelf.new)
        status (O.shown out.old) (O.shown out.new)) }
    ensures files { F.files shelf.new ≡ F.files shelf.old }
    ensures faults { F.faults shelf.old ≤ F.faults shelf.new }
    ensures steady { OnOk result (F.faults shelf.new ≡ F.faults shelf.old) }
{
    match shelf.fetch(alloc, name) {
        Ok(Some(bytes)) => Ok(bytes),
        Ok(None) => {
            tell_absent(out, name);
            Err(REFUSED)
        }
        Err(Trouble::Failed) => {
            tell_shelf(out);
            Err(SHELF_FAILED)
        }
        Err(Trouble::NoMemory) => {
            tell_memory(out);
            Err(NO_MEMORY)
        }
    }
}
