//! A server behind the opening of its desk.
ghost use Rattle.rb_causes.specs.Causes.{Rose};
ghost use Rattle.rb_log.specs.Rows.{is_clean_caller};
ghost use Rattle.rb_board.specs.Plays.{opening_of};
ghost use Rattle.rb_serve.specs.Passes.{IsJustOpened};
ghost use Rattle.rb_serve.specs.Roles.{AreAll, AreReady, NoneFell, OneRose, senses_of};
ghost use Rattle.rb_serve.specs.Served.{ByLast, HasServed, HasStopped, IsUncalled, Serves, ServesOn, StopsOn, WantsBoard, crew_stop};
ghost use Rattle.rb_serve.specs.Serving.{IsEndStatus};
ghost use Rattle.rb_session.specs.Statuses.{EndsAsTold};
ghost use Rattle.rb_session.specs.declared.saving.Saving.{Saving};
ghost use Rattle.rb_session_top.specs.Sessions.{IsSaved};
ghost use Rattle.std.specs.List.{list_all};
ghost use Rattle.std.specs.Prelude.{◌≡◌, ◌≤◌, ◌+◌, ◌⊎◌, [], IfErr, IfOk, OnOk, length, map, true, vec_capacity};

use crate::crew_end::CrewEnd;
use crate::importing::import_by;
use crate::performing::perform;
use crate::stage::{Stage, count_of};
use rb_board::{Board, Pass};
use rb_causes::{Clock, Keeper, Line, NoMemory, Sink, Spawner};
use rb_command::status::{DONE, NO_MEMORY};
use rb_command::tell_memory;
use rb_desk::Desk;
use rb_log::{Call, Clerk};
use rb_manifest::Manifest;
use rb_session::status::{LINE_FAILED, STORE_FAILED};
use rb_session::{Document, Saving, saving_of, tell_line, tell_store};
use rb_session_top::Owned;
use std::alloc::Global;
use std::sync::Wait;
use std::thread::Threads;
use std::time;

/// Puts the desk on a board, imports the documents, serves the callers of all lines, and saves the
/// log; gives the status.
pub(crate) fn serve<
    R: Threads + Wait + time::Clock + Sync,
    K: Keeper + Send + Sync,
    L: Line + Send + Drop,
    S: Spawner + Send + Drop,
    T: Clock + Sync,
    O: Sink,
>(
    rt: &R,
    alloc: Global,
    desk: Desk<K>,
    clock: &T,
    manifest: &Manifest,
    documents: Vec<Document>,
    stage: Stage<L, S>,
    lines: &mut Vec<L>,
    spawners: &mut Vec<S>,
    out: &mut O,
) -> (u8, Desk<K>)
    requires owner { is_clean_caller manifest.now.owner ≡ true }
    requires tokens { list_all (λ t. is_clean_caller t.caller) manifest.now.tokens ≡ true }
    requires lines { (1 ≤ length lines.old.items) × (length lines.old.items ≤ 16) }
    requires spawners { (1 ≤ length spawners.old.items) × (length spawners.old.items ≤ 64) }
    requires opened { IsJustOpened (length lines.old.items) (length spawners.old.items) desk.log }
    requires buffers { length stage.buffers.items ≡ length lines.old.items }
    requires roles { stage.roles.items ≡ [] }
    requires room { length lines.old.items + length spawners.old.items
        ≤ vec_capacity stage.roles }
    ensures serves { Serves K.faults (senses_of (T.may_be clock.now) manifest.now.tokens L.callers
        L.faults S.shown) manifest.now.owner documents.items desk result.1
        lines.old.items lines.new.items spawners.old.items spawners.new.items result.0
        (O.shown out.old) (O.shown out.new) }
    ensures status { IsEndStatus result.0 }
    ensures lines { NoneFell L.faults lines.old.items lines.new.items }
    ensures spawners { NoneFell (λ s. (S.shown s).faults) spawners.old.items spawners.new.items }
    ensures cause { result.0 ≡ 5 → OneRose L.faults lines.old.items lines.new.items }
    ensures store { result.0 ≡ 6 → Rose (K.faults desk.keeper) (K.faults result.1.keeper) }
    ensures keeper { K.faults desk.keeper ≤ K.faults result.1.keeper }
{
    match Board::open(alloc, desk) {
        Ok(board) => {
            let (ended, desk) = serve_on(
                rt, alloc, board, clock, manifest, documents, stage, lines, spawners, out,
            );
            match ended {
                Ok(end) => save_all(alloc, desk, end, out),
                Err(status) => (status, desk),
            }
        }
        Err((desk, NoMemory)) => {
            tell_memory(out);
            (NO_MEMORY, desk)
        }
    }
}

/// Does all that is done on a board, and closes it. Where the lines were not called, why is told,
/// and the status is answered.
fn serve_on<
    R: Threads + Wait + time::Clock + Sync,
    K: Keeper + Send + Sync,
    L: Line + Send + Drop,
    S: Spawner + Send + Drop,
    T: Clock + Sync,
    O: Sink,
>(
    rt: &R,
    alloc: Global,
    mut board: Board<K>,
    clock: &T,
    manifest: &Manifest,
    documents: Vec<Document>,
    stage: Stage<L, S>,
    lines: &mut Vec<L>,
    spawners: &mut Vec<S>,
    out: &mut O,
) -> (Result<CrewEnd, u8>, Desk<K>)
    requires owner { is_clean_caller manifest.now.owner ≡ true }
    requires tokens { list_all (λ t. is_clean_caller t.caller) manifest.now.tokens ≡ true }
    requires lines { (1 ≤ length lines.old.items) × (length lines.old.items ≤ 16) }
    requires spawners { (1 ≤ length spawners.old.items) × (length spawners.old.items ≤ 64) }
    requires opened { IsJustOpened (length lines.old.items) (length spawners.old.items)
        board.opening.log }
    requires none { board.made ≡ 0 }
    requires buffers { length stage.buffers.items ≡ length lines.old.items }
    requires roles { stage.roles.items ≡ [] }
    requires room { length lines.old.items + length spawners.old.items
        ≤ vec_capacity stage.roles }
    ensures served { IfOk result.0 (λ said. ServesOn K.faults (senses_of (T.may_be clock.now)
        manifest.now.tokens L.callers L.faults S.shown) manifest.now.owner documents.items
        board.opening
        lines.old.items lines.new.items spawners.old.items spawners.new.items said result.1) }
    ensures silent { OnOk result.0 (O.shown out.new ≡ O.shown out.old) }
    ensures stopped { IfErr result.0 (λ status.
        WantsBoard board.opening lines.old.items lines.new.items spawners.old.items
        spawners.new.items result.1 status (O.shown out.old) (O.shown out.new)
        ⊎ StopsOn K.faults (senses_of (T.may_be clock.now) manifest.now.tokens L.callers
        L.faults S.shown) manifest.now.owner documents.items board.opening
        lines.old.items lines.new.items spawners.old.items spawners.new.items result.1 status
        (O.shown out.old) (O.shown out.new)) }
    ensures status { IfErr result.0 IsEndStatus }
    ensures early { IfErr result.0 (λ status. status ≡ 5 → ⊥) }
    ensures lines { NoneFell L.faults lines.old.items lines.new.items }
    ensures spawners { NoneFell (λ s. (S.shown s).faults) spawners.old.items spawners.new.items }
    ensures cause { IfOk result.0 (λ end. end.line_failed ≡ true
        → OneRose L.faults lines.old.items lines.new.items) }
    ensures store { IfErr result.0 (λ status. status ≡ 6
        → Rose board.opening.faults (K.faults result.1.keeper)) }
    ensures keeper { board.opening.faults ≤ K.faults result.1.keeper }
{
    let doors = count_of(lines);
    let workers = count_of(spawners);
    match board.passes(doors + workers) {
        Ok(mut passes) => {
            let ended = serve_by(
                rt,
                alloc,
                &board,
                clock,
                manifest,
                documents,
                stage,
                &mut passes,
                lines,
                spawners,
                out,
            );
            (ended, board.close(passes))
        }
        Err(NoMemory) => {
            tell_memory(out);
            (Err(NO_MEMORY), board.close(Vec::new(alloc)))
        }
    }
}

/// Imports the documents and serves the callers, by these passes.
fn serve_by<
    R: Threads + Wait + time::Clock + Sync,
    K: Keeper + Send + Sync,
    L: Line + Send + Drop,
    S: Spawner + Send + Drop,
    T: Clock + Sync,
    O: Sink,
>(
    rt: &R,
    alloc: Global,
    board: &Board<K>,
    clock: &T,
    manifest: &Manifest,
    documents: Vec<Document>,
    stage: Stage<L, S>,
    passes: &mut Vec<Pass>,
    lines: &mut Vec<L>,
    spawners: &mut Vec<S>,
    out: &mut O,
) -> Result<CrewEnd, u8>
    requires owner { is_clean_caller manifest.now.owner ≡ true }
    requires tokens { list_all (λ t. is_clean_caller t.caller) manifest.now.tokens ≡ true }
    requires ready { AreReady board.now (length lines.old.items) (length spawners.old.items)
        passes.old.items }
    requires lines { (1 ≤ length lines.old.items) × (length lines.old.items ≤ 16) }
    requires spawners { length spawners.old.items ≤ 64 }
    requires buffers { length stage.buffers.items ≡ length lines.old.items }
    requires roles { stage.roles.items ≡ [] }
    requires room { length lines.old.items + length spawners.old.items
        ≤ vec_capacity stage.roles }
    ensures served { IfOk result (λ said. HasServed (senses_of (T.may_be clock.now)
        manifest.now.tokens L.callers L.faults S.shown) manifest.now.owner documents.items
        passes.old.items passes.new.items lines.old.items lines.new.items
        spawners.old.items spawners.new.items said) }
    ensures silent { OnOk result (O.shown out.new ≡ O.shown out.old) }
    ensures stopped { IfErr result (λ status. HasStopped (senses_of (T.may_be clock.now)
        manifest.now.tokens L.callers L.faults S.shown) manifest.now.owner documents.items
        passes.old.items passes.new.items status (O.shown out.old) (O.shown out.new)
        × IsUncalled lines.old.items lines.new.items spawners.old.items spawners.new.items) }
    ensures status { IfErr result IsEndStatus }
    ensures early { IfErr result (λ status. status ≡ 5 → ⊥) }
    ensures all { AreAll board.now passes.new.items }
    ensures lines { NoneFell L.faults lines.old.items lines.new.items }
    ensures spawners { NoneFell (λ s. (S.shown s).faults) spawners.old.items spawners.new.items }
    ensures cause { IfOk result (λ end. end.line_failed ≡ true
        → OneRose L.faults lines.old.items lines.new.items) }
    ensures store { IfErr result (λ status. status ≡ 6
        → ByLast passes.old.items passes.new.items (λ old new. Rose old.faults new.faults)) }
{
    let owner = &manifest.owner;
    match import_by(rt, alloc, board, passes, clock, owner, documents, out) {
        Ok(()) => {
            let tokens = manifest.tokens.as_slice();
            let end = perform(
                rt, alloc, board, clock, tokens, stage, passes, lines, spawners,
            );
            Ok(end)
        }
        Err(status) => Err(status),
    }
}

/// Has the keeper hold the whole log, and tells how all ended.
fn save_all<K: Keeper, O: Sink>(
    alloc: Global,
    desk: Desk<K>,
    end: CrewEnd,
    out: &mut O,
) -> (u8, Desk<K>)
    ensures saved { (saving : Saving) × IsSaved K.faults desk result.1 saving
        × EndsAsTold (crew_stop end saving) result.0 (O.shown out.old) (O.shown out.new) }
    ensures status { IsEndStatus result.0 }
    ensures line { result.0 ≡ 5 → end.line_failed ≡ true }
    ensures keeper { K.faults desk.keeper ≤ K.faults result.1.keeper }
{
    let mut clerk = Owned { desk, alloc };
    let saving = saving_of(clerk.act(Call::Save));
    let Owned { desk, alloc: _ } = clerk;
    (tell_end(out, end, saving), desk)
}

/// Tells what ended the server, unless it went well, and gives the status: a fault of a line; of
/// the store, as a worker said last or in Save; or want of memory.
fn tell_end<O: Sink>(out: &mut O, end: CrewEnd, saving: Saving) -> u8
    ensures ends { EndsAsTold (crew_stop end saving) result (O.shown out.old) (O.shown out.new) }
    ensures status { IsEndStatus result }
    ensures line { result ≡ 5 → end.line_failed ≡ true }
{
    if end.line_failed {
        tell_line(out);
        LINE_FAILED
    } else if end.store_failed || saving == Saving::StoreFault {
        tell_store(out);
        STORE_FAILED
    } else if end.wanting || saving != Saving::Saved {
        tell_memory(out);
        NO_MEMORY
    } else {
        DONE
    }
}
