//! What the words ask for, over the world's files, programs and clock.
ghost use Rattle.rb_desk.specs.DeskState.{IsDesk};
ghost use Rattle.rb_forms.specs.Forms.{lines_sight, top_sights};
ghost use Rattle.rb_session.specs.Fetching.{sight};
ghost use Rattle.rb_session_top.specs.Sights.{given_of, keeper_of, kept_sight};
ghost use Rattle.rundeskd.specs.Answer.{own_text, AnswersWords};
ghost use Rattle.std.specs.Prelude.{◌≡◌, ◌<◌, ◌^◌, [], ◌∷◌, IfOk, length, map};

use crate::child_spawner::ChildSpawner;
use crate::explaining::tell_remark;
use crate::file_shelf::FileShelf;
use crate::own_text::{own_text, text_of};
use crate::store::Store;
use crate::system_clock::SystemClock;
use rb_causes::{Clock, Keeper, Line, NoMemory, Shelf, Sink, Spawner, Text};
use rb_command::status::NO_MEMORY;
use rb_command::tell_memory;
use rb_desk::Desk;
use rb_forms::desk_top;
use rb_tools::print_text;
use std::alloc::Global;

/// Does what the words say over this line and this sink, with the rows in this file, or in memory
/// where there is none, and explains the status. The clock's moment is the number for draws.
pub fn answer_over<L: Line + Drop, O: Sink>(
    rt: &HostRuntime,
    words: &[Text],
    file: Option<&str>,
    line: L,
    out: &mut O,
) -> u8 {
    let alloc = rt.alloc();
    let Ok((store, mut lines, mut spawners)) = objects(rt, file, line) else {
        tell_memory(out);
        return NO_MEMORY;
    };
    let mut shelf = FileShelf::new(rt);
    let clock = SystemClock::new(rt);
    let draw = clock.now() as u64;
    let (status, _desk) = answer(
        alloc,
        words,
        store,
        &clock,
        draw,
        &mut shelf,
        &mut lines,
        &mut spawners,
        out,
    );
    tell_remark(rt, alloc, status, words, shelf.last());
    status
}

// The store of this file, this line alone, and one spawner. Nothing of them is opened.
fn objects<'a, L: Line + Drop>(
    rt: &'a HostRuntime,
    file: Option<&str>,
    line: L,
) -> Result<(Store, Vec<L>, Vec<ChildSpawner<'a, HostRuntime>>), NoMemory>
    ensures line { IfOk result (λ made. 0 < length made.1.items) }
    ensures spawner { IfOk result (λ made. 0 < length made.2.items) }
{
    let alloc = rt.alloc();
    let store = Store::new(*rt, file)?;
    let lines = alone(alloc, line)?;
    let spawners = alone(alloc, ChildSpawner::new(rt, alloc, rt.stderr()))?;
    Ok((store, lines, spawners))
}

// A list of this alone.
fn alone<T: Drop>(alloc: Global, item: T) -> Result<Vec<T>, NoMemory>
    ensures { IfOk result (λ list. list.items ≡ item ∷ []) }
{
    let mut list = Vec::new(alloc);
    list.push(item)?;
    Ok(list)
}

// Answers the words, and gives the status, with the desk that was opened, or else the keeper: with
// a text of the program's own, or by the top call.
fn answer<F: Shelf, L: Line, S: Spawner, K: Keeper, C: Clock, O: Sink>(
    alloc: Global,
    words: &[Text],
    keeper: K,
    clock: &C,
    draw: u64,
    shelf: &mut F,
    lines: &mut Vec<L>,
    spawners: &mut Vec<S>,
    out: &mut O,
) -> (u8, Result<Desk<K>, K>)
    requires line { 0 < length lines.old.items }
    requires spawner { 0 < length spawners.old.items }
    requires draw { draw < 2 ^ 63 }
    ensures answer { AnswersWords (own_text words.now) (C.may_be clock.now) words.now draw
        (top_sights (sight (F.files shelf.old) (F.faults shelf.old))
        (lines_sight L.callers L.faults lines.old.items) (map S.shown spawners.old.items)
        (kept_sight (K.rows keeper) (K.faults keeper)) (O.shown out.old))
        (top_sights (sight (F.files shelf.new) (F.faults shelf.new))
        (lines_sight L.callers L.faults lines.new.items) (map S.shown spawners.new.items)
        (kept_sight (K.rows (keeper_of result.1)) (K.faults (keeper_of result.1)))
        (O.shown out.new))
        result.0 (given_of result.1) }
    ensures desk { IfOk result.1 (IsDesk K.rows) }
{
    match own_text(words) {
        Some(own) => (print_text(out, text_of(own)), Err(keeper)),
        None => desk_top(
            alloc, words, shelf, lines, spawners, keeper, clock, draw, out,
        ),
    }
}
