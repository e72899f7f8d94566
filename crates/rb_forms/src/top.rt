//! One top call for all forms.
ghost use Rattle.rb_desk.specs.DeskState.{IsDesk};
ghost use Rattle.rb_forms.specs.Forms.{DeskTop, lines_sight, top_sights};
ghost use Rattle.rb_session.specs.Fetching.{sight};
ghost use Rattle.rb_session_top.specs.Sights.{given_of, keeper_of, kept_sight};
ghost use Rattle.std.specs.Prelude.{◌<◌, ◌^◌, IfOk, length, map};

use crate::forms::{is_for_tools, is_session};
use rb_causes::{Clock, Keeper, Line, Shelf, Sink, Spawner, Text};
use rb_desk::Desk;
use rb_session_top::session_top;
use rb_tools::tool_top;
use rb_top::drill_top;
use std::alloc::Global;

/// Does what the words say, and gives the status. A session takes the first line and the first
/// spawner, and gives its desk, or the keeper where none was opened; a drill takes the first
/// spawner; all others stand untouched. Words of no form are told as such: status 2.
pub fn desk_top<F: Shelf, L: Line, S: Spawner, K: Keeper, C: Clock, O: Sink>(
    alloc: Global,
    words: &[Text],
    shelf: &mut F,
    lines: &mut Vec<L>,
    spawners: &mut Vec<S>,
    keeper: K,
    clock: &C,
    draw: u64,
    out: &mut O,
) -> (u8, Result<Desk<K>, K>)
    requires line { 0 < length lines.old.items }
    requires spawner { 0 < length spawners.old.items }
    requires draw { draw < 2 ^ 63 }
    ensures does { DeskTop (C.may_be clock.now) words.now draw
        (top_sights (sight (F.files shelf.old) (F.faults shelf.old))
        (lines_sight L.callers L.faults lines.old.items) (map S.shown spawners.old.items)
        (kept_sight (K.rows keeper) (K.faults keeper)) (O.shown out.old))
        (top_sights (sight (F.files shelf.new) (F.faults shelf.new))
        (lines_sight L.callers L.faults lines.new.items) (map S.shown spawners.new.items)
        (kept_sight (K.rows (keeper_of result.1)) (K.faults (keeper_of result.1)))
        (O.shown out.new))
        result.0 (given_of result.1) }
    ensures desk { IfOk result.1 (IsDesk K.rows) }
{
    if is_session(words) {
        let line = &mut lines[0];
        let spawner = &mut spawners[0];
        return session_top(alloc, words, shelf, line, spawner, keeper, clock, draw, out);
    }
    if is_for_tools(words) {
        return (tool_top(alloc, words, shelf, out), Err(keeper));
    }
    let spawner = &mut spawners[0];
    (drill_top(alloc, words, shelf, spawner, out), Err(keeper))
}
