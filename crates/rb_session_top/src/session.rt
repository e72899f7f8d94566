//! A session, from its words to its status.
ghost use Rattle.rb_desk.specs.DeskState.{IsDesk};
ghost use Rattle.rb_session.specs.Fetching.{EndsBy, sight};
ghost use Rattle.rb_session_top.specs.Sessions.{Session};
ghost use Rattle.rb_session_top.specs.Sights.{callers_sight, given_of, kept_sight, keeper_of, sights};
ghost use Rattle.rb_session_top.specs.Stories.{stop_unopened};
ghost use Rattle.std.specs.Prelude.{◌<◌, ◌^◌, IfOk};

use crate::owned::Owned;
use crate::serving::serve;
use crate::tools::Tools;
use crate::words::manifest_in;
use rb_causes::{Clock, Keeper, Line, Shelf, Sink, Spawner, Text};
use rb_command::status::{NO_FORM, NO_MEMORY};
use rb_command::{tell_memory, tell_usage};
use rb_desk::{Desk, OpenErr};
use rb_session::status::{BAD_STORE, STORE_FAILED, STORE_FULL};
use rb_session::{fetch_all, tell_full, tell_row, tell_store};
use std::alloc::Global;

/// The greatest room of a desk, in rows.
const MOST_ROWS: u64 = 2_000_000;

/// Serves the callers of the line with the documents of a manifest, and gives the status with the
/// desk; where none was opened, with the keeper, and then neither line nor spawner was called.
pub fn session_top<F: Shelf, L: Line, S: Spawner, K: Keeper, C: Clock, O: Sink>(
    alloc: Global,
    words: &[Text],
    shelf: &mut F,
    line: &mut L,
    spawner: &mut S,
    keeper: K,
    clock: &C,
    draw: u64,
    out: &mut O,
) -> (u8, Result<Desk<K>, K>)
    requires { draw < 2 ^ 63 }
    ensures session { Session (C.may_be clock.now) words.now draw
        (sights (sight (F.files shelf.old) (F.faults shelf.old))
        (callers_sight (L.callers line.old) (L.faults line.old)) (S.shown spawner.old)
        (kept_sight (K.rows keeper) (K.faults keeper)) (O.shown out.old))
        (sights (sight (F.files shelf.new) (F.faults shelf.new))
        (callers_sight (L.callers line.new) (L.faults line.new)) (S.shown spawner.new)
        (kept_sight (K.rows (keeper_of result.1)) (K.faults (keeper_of result.1)))
        (O.shown out.new))
        result.0 (given_of result.1) }
    ensures desk { IfOk result.1 (IsDesk K.rows) }
{
    let Some(name) = manifest_in(words) else {
        tell_usage(out);
        return (NO_FORM, Err(keeper));
    };
    let (manifest, documents) = match fetch_all(alloc, name, shelf, out) {
        Ok(had) => had,
        Err(status) => return (status, Err(keeper)),
    };
    let Ok(mut tools) = Tools::new(alloc) else {
        tell_memory(out);
        return (NO_MEMORY, Err(keeper));
    };
    match Desk::open(alloc, keeper, 1, 1, draw, MOST_ROWS, clock.now()) {
        Ok(desk) => {
            let mut clerk = Owned { desk, alloc };
            let status = serve(
                alloc, &mut clerk, line, spawner, clock, &manifest, documents, &mut tools, out,
            );
            let Owned { desk, alloc: _ } = clerk;
            // That its rows are a legal log, and which of them are kept, is known of each desk.
            let _log = desk.log();
            (status, Ok(desk))
        }
        Err((keeper, error)) => (tell_unopened(out, error), Err(keeper)),
    }
}

/// Tells why no desk was opened, and gives the status.
pub fn tell_unopened<O: Sink>(out: &mut O, error: OpenErr) -> u8
    ensures { EndsBy (stop_unopened error) result (O.shown out.old) (O.shown out.new) }
{
    match error {
        OpenErr::StoreFault => {
            tell_store(out);
            STORE_FAILED
        }
        OpenErr::BadStore(row) => {
            tell_row(out, row);
            BAD_STORE
        }
        OpenErr::Full => {
            tell_full(out);
            STORE_FULL
        }
        OpenErr::NoMemory => {
            tell_memory(out);
            NO_MEMORY
        }
    }
}
