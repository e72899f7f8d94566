//! All parts at once, each in a thread.
ghost use Rattle.rb_log.specs.Rows.{is_clean_caller};
ghost use Rattle.rb_serve.specs.Roles.{AllPlayed, AreAll, AreReady, CanPlay, HasPlayed, HavePlayed, IsOf, NoneFell, OneRose, senses_of};
ghost use Rattle.std.specs.List.{list_all};
ghost use Rattle.std.specs.Prelude.{◌≡◌, ◌≤◌, ◌<◌, ◌+◌, All, [], length, true, vec_capacity};

use crate::casting::{cast_all, dismiss};
use crate::crew_end::{CrewEnd, crew_end};
use crate::playing::play;
use crate::role::Role;
use crate::stage::{Stage, count_of};
use rb_api::Token;
use rb_board::{Board, Pass};
use rb_causes::{Clock, Keeper, Line, Spawner};
use std::alloc::Global;
use std::sync::Wait;
use std::thread::Threads;
use std::time::Duration;
use std::{thread, time};

/// Has all lines and spawners played with, to their ends, and tells how these were.
pub(crate) fn perform<
    R: Threads + Wait + time::Clock + Sync,
    K: Keeper + Send + Sync,
    L: Line + Send + Drop,
    S: Spawner + Send + Drop,
    T: Clock + Sync,
>(
    rt: &R,
    alloc: Global,
    board: &Board<K>,
    clock: &T,
    tokens: &[Token],
    stage: Stage<L, S>,
    passes: &mut Vec<Pass>,
    lines: &mut Vec<L>,
    spawners: &mut Vec<S>,
) -> CrewEnd
    requires tokens { list_all (λ t. is_clean_caller t.caller) tokens.now ≡ true }
    requires ready { AreReady board.now (length lines.old.items) (length spawners.old.items)
        passes.old.items }
    requires lines { (1 ≤ length lines.old.items) × (length lines.old.items ≤ 16) }
    requires spawners { length spawners.old.items ≤ 64 }
    requires buffers { length stage.buffers.items ≡ length lines.old.items }
    requires roles { stage.roles.items ≡ [] }
    requires room { length lines.old.items + length spawners.old.items
        ≤ vec_capacity stage.roles }
    ensures all { AreAll board.now passes.new.items }
    ensures played { HavePlayed (senses_of (T.may_be clock.now) tokens.now L.callers L.faults
        S.shown) passes.old.items passes.new.items
        lines.old.items lines.new.items spawners.old.items spawners.new.items result }
    ensures lines { NoneFell L.faults lines.old.items lines.new.items }
    ensures spawners { NoneFell (λ s. (S.shown s).faults) spawners.old.items spawners.new.items }
    ensures cause { result.line_failed ≡ true
        → OneRose L.faults lines.old.items lines.new.items }
{
    let rest = Duration::from_millis(10 * u64::from(count_of(spawners)));
    let mut roles = cast_all(stage, passes, lines, spawners);
    play_crew(rt, alloc, board, clock, tokens, rest, &mut roles);
    let end = crew_end(roles.as_slice());
    dismiss(passes, lines, spawners, roles);
    end
}

/// All of these parts, doors before workers.
fn play_crew<
    R: Threads + Wait + time::Clock + Sync,
    K: Keeper + Send + Sync,
    L: Line + Send + Drop,
    S: Spawner + Send + Drop,
    T: Clock + Sync,
>(
    rt: &R,
    alloc: Global,
    board: &Board<K>,
    clock: &T,
    tokens: &[Token],
    rest: Duration,
    roles: &mut Vec<Role<L, S>>,
)
    requires tokens { list_all (λ t. is_clean_caller t.caller) tokens.now ≡ true }
    requires some { 0 < length roles.old.items }
    requires boards { All (IsOf board.now.id) roles.old.items }
    requires parts { All CanPlay roles.old.items }
    ensures { AllPlayed (senses_of (T.may_be clock.now) tokens.now L.callers L.faults
        S.shown) roles.old.items roles.new.items }
{
    // Where a thread is refused, what stands first of the parts that were to share it is played last. A
    // worker goes on until all doors are closed, so no door may wait for one: workers come first.
    let parts = roles.as_mut_slice();
    parts.reverse();
    play_all(rt, alloc, board, clock, tokens, rest, parts);
    parts.reverse();
}

/// Each part is played in a thread of its own, or where none can be had one after another.
fn play_all<
    K: Keeper + Send + Sync,
    R: Threads + Wait + time::Clock + Sync,
    L: Line + Send + Drop,
    S: Spawner + Send + Drop,
    T: Clock + Sync,
>(
    rt: &R,
    alloc: Global,
    board: &Board<K>,
    clock: &T,
    tokens: &[Token],
    rest: Duration,
    roles: &mut [Role<L, S>],
)
    requires tokens { list_all (λ t. is_clean_caller t.caller) tokens.now ≡ true }
    requires some { 0 < length roles.old }
    requires boards { All (IsOf board.now.id) roles.old }
    requires parts { All CanPlay roles.old }
    ensures { AllPlayed (senses_of (T.may_be clock.now) tokens.now L.callers L.faults
        S.shown) roles.old roles.new }
{
    let threads = roles.len();
    let part = |_place: usize, role: &mut Role<L, S>|
        requires { (list_all (λ t. is_clean_caller t.caller) tokens.now ≡ true)
            × IsOf board.now.id role.now × CanPlay role.now }
        ensures { HasPlayed (senses_of (T.may_be clock.entry.now) tokens.entry.now L.callers
            L.faults S.shown) role.entry.now role.exit.now }
    { play(rt, alloc, board, clock, tokens, rest, role) };
    thread::for_each_mut(rt, roles, threads, &part);
}
