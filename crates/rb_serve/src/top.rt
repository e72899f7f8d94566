//! A server of several doors and workers, from its words to its status.
ghost use Rattle.rb_causes.specs.Causes.{Rose};
ghost use Rattle.rb_desk.specs.DeskState.{IsDesk};
ghost use Rattle.rb_log.specs.Rows.{is_clean_caller};
ghost use Rattle.rb_serve.specs.Crews.{Happened, OpensOrNot, Reach, crew_sight};
ghost use Rattle.rb_serve.specs.Roles.{NoneFell, OneRose, senses_of};
ghost use Rattle.rb_serve.specs.Serving.{AreEnough, IsServeStatus};
ghost use Rattle.rb_serve.specs.Words.{crew_words};
ghost use Rattle.rb_session.specs.Fetching.{sight};
ghost use Rattle.rb_session_top.specs.Sights.{keeper_of};
ghost use Rattle.std.specs.List.{list_all};
ghost use Rattle.std.specs.Prelude.{◌≡◌, ◌≤◌, ◌<◌, ◌^◌, ◌↔◌, IfOk, None, OnErr, length, true};

use crate::serving::serve;
use crate::stage::{count_of, new_stage};
use crate::words::crew_in;
use rb_causes::{Clock, Keeper, Line, Shelf, Sink, Spawner, Text};
use rb_command::status::{NO_FORM, NO_MEMORY};
use rb_command::{tell_memory, tell_usage};
use rb_desk::Desk;
use rb_manifest::Manifest;
use rb_session::{Document, fetch_all};
use rb_session_top::tell_unopened;
use std::alloc::Global;
use std::sync::Wait;
use std::thread::Threads;
use std::time;

/// The greatest room of a desk, in rows.
const MOST_ROWS: u64 = 2_000_000;

/// Serves the callers of the lines, each at a door of its own, with the documents of a manifest,
/// while a worker for each spawner works tasks off; gives the status with the desk, and where none
/// was opened with the keeper, and then neither a line nor a spawner was called. There are as many
/// lines as the words have addresses, and as many spawners as they have workers.
pub fn serve_top<
    R: Threads + Wait + time::Clock + Sync,
    F: Shelf,
    L: Line + Send + Drop,
    S: Spawner + Send + Drop,
    K: Keeper + Send + Sync,
    C: Clock + Sync,
    O: Sink,
>(
    rt: &R,
    alloc: Global,
    words: &[Text],
    shelf: &mut F,
    lines: &mut Vec<L>,
    spawners: &mut Vec<S>,
    keeper: K,
    clock: &C,
    draw: u64,
    out: &mut O,
) -> (u8, Result<Desk<K>, K>)
    requires draw { draw < 2 ^ 63 }
    requires enough { AreEnough (crew_words words.now) lines.old.items spawners.old.items }
    ensures happened { (reach : Reach) × Happened K.rows K.faults
        (λ tokens. senses_of (C.may_be clock.now) tokens L.callers L.faults S.shown)
        words.now draw keeper result.1
        (crew_sight (sight (F.files shelf.old) (F.faults shelf.old)) lines.old.items
        spawners.old.items (O.shown out.old))
        (crew_sight (sight (F.files shelf.new) (F.faults shelf.new)) lines.new.items
        spawners.new.items (O.shown out.new))
        result.0 reach }
    ensures desk { IfOk result.1 (IsDesk K.rows) }
    ensures untouched { OnErr result.1
        ((lines.new.items ≡ lines.old.items) × (spawners.new.items ≡ spawners.old.items)) }
    ensures words { result.0 ≡ 2 ↔ crew_words words.now ≡ None }
    ensures status { IsServeStatus result.0 }
    ensures shelf_fault { result.0 ≡ 4 → Rose (F.faults shelf.old) (F.faults shelf.new) }
    ensures line { result.0 ≡ 5 → OneRose L.faults lines.old.items lines.new.items }
    ensures store { result.0 ≡ 6 → Rose (K.faults keeper) (K.faults (keeper_of result.1)) }
    ensures lines { NoneFell L.faults lines.old.items lines.new.items }
    ensures spawners { NoneFell (λ s. (S.shown s).faults) spawners.old.items spawners.new.items }
    ensures keeper { K.faults keeper ≤ K.faults (keeper_of result.1) }
    ensures files { F.files shelf.new ≡ F.files shelf.old }
    ensures shelf { F.faults shelf.old ≤ F.faults shelf.new }
{
    let Some(crew) = crew_in(words) else {
        tell_usage(out);
        return (NO_FORM, Err(keeper));
    };
    let (manifest, documents) = match fetch_all(alloc, crew.manifest, shelf, out) {
        Ok(had) => had,
        Err(status) => return (status, Err(keeper)),
    };
    serve_opened(
        rt, alloc, &manifest, documents, lines, spawners, keeper, clock, draw, out,
    )
}

/// Opens a desk, and serves on it; gives the status with the desk, and where none was opened with
/// the keeper.
fn serve_opened<
    R: Threads + Wait + time::Clock + Sync,
    L: Line + Send + Drop,
    S: Spawner + Send + Drop,
    K: Keeper + Send + Sync,
    C: Clock + Sync,
    O: Sink,
>(
    rt: &R,
    alloc: Global,
    manifest: &Manifest,
    documents: Vec<Document>,
    lines: &mut Vec<L>,
    spawners: &mut Vec<S>,
    keeper: K,
    clock: &C,
    draw: u64,
    out: &mut O,
) -> (u8, Result<Desk<K>, K>)
    requires owner { is_clean_caller manifest.now.owner ≡ true }
    requires tokens { list_all (λ t. is_clean_caller t.caller) manifest.now.tokens ≡ true }
    requires lines { (1 ≤ length lines.old.items) × (length lines.old.items ≤ 16) }
    requires spawners { (1 ≤ length spawners.old.items) × (length spawners.old.items ≤ 64) }
    requires draw { draw < 2 ^ 63 }
    ensures happened { OpensOrNot K.rows K.faults (senses_of (C.may_be clock.now)
        manifest.now.tokens L.callers L.faults S.shown) manifest.now.owner documents.items draw
        keeper result.1 lines.old.items lines.new.items spawners.old.items spawners.new.items
        result.0 (O.shown out.old) (O.shown out.new) }
    ensures desk { IfOk result.1 (IsDesk K.rows) }
    ensures untouched { OnErr result.1
        ((lines.new.items ≡ lines.old.items) × (spawners.new.items ≡ spawners.old.items)) }
    ensures form { result.0 ≡ 2 → ⊥ }
    ensures status { IsServeStatus result.0 }
    ensures no_shelf { result.0 ≡ 4 → ⊥ }
    ensures line { result.0 ≡ 5 → OneRose L.faults lines.old.items lines.new.items }
    ensures store { result.0 ≡ 6 → Rose (K.faults keeper) (K.faults (keeper_of result.1)) }
    ensures lines { NoneFell L.faults lines.old.items lines.new.items }
    ensures spawners { NoneFell (λ s. (S.shown s).faults) spawners.old.items spawners.new.items }
    ensures keeper { K.faults keeper ≤ K.faults (keeper_of result.1) }
{
    let doors = count_of(lines);
    let workers = count_of(spawners);
    let Ok(stage) = new_stage(alloc, doors, workers) else {
        tell_memory(out);
        return (NO_MEMORY, Err(keeper));
    };
    match Desk::open(alloc, keeper, doors, workers, draw, MOST_ROWS, clock.now()) {
        Ok(desk) => {
            let (status, desk) = serve(
                rt, alloc, desk, clock, manifest, documents, stage, lines, spawners, out,
            );
            // That its rows are a legal log is known of each desk.
            let _log = desk.log();
            (status, Ok(desk))
        }
        Err((keeper, error)) => (tell_unopened(out, error), Err(keeper)),
    }
}
