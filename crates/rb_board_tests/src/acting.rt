//! What doors and workers do with their passes.
ghost use Rattle.rb_board.specs.Boards.{HasActed};
ghost use Rattle.rb_board.specs.History.{told_of_seen};
ghost use Rattle.rb_board_tests.specs.Kept.{IsKept, IsOpenToAll, IsSame, MayClose, MayWork};
ghost use Rattle.rb_log.specs.Legal.{MayAsk};
ghost use Rattle.std.specs.Prelude.{◌≡◌};

use crate::calls::{AT, Asked, asked_in, call_of};
use crate::diary::{Diary, Heard, heard_of, named_in};
use crate::quiet::QuietSpawner;
use rb_board::{Board, Pass};
use rb_causes::Keeper;
use rb_desk::{Answer, Call};
use std::alloc::Global;
use std::sync::Wait;
use std::thread::yield_now;

/// After so many claims a worker gives up.
const TRIES: u32 = 10_000_000;

/// Acts with a pass, and notes what is answered.
fn act<K: Keeper, R: Wait>(
    rt: &R,
    board: &Board<K>,
    pass: &mut Pass,
    diary: &mut Diary,
    call: Call,
) -> Answer
    requires board { pass.old.id ≡ board.now.id }
    requires may { MayAsk (told_of_seen pass.old.seen).rights call }
    ensures board { pass.new.id ≡ pass.old.id }
    ensures acted { HasActed pass.old.seen pass.new.seen call result }
{
    let named = named_in(&call);
    let answer = board.act(rt, pass, call);
    diary.note(named, &answer);
    answer
}

/// Asks what anybody may ask.
fn say<K: Keeper, R: Wait>(
    rt: &R,
    board: &Board<K>,
    pass: &mut Pass,
    diary: &mut Diary,
    call: Call,
) -> Heard
    requires board { pass.old.id ≡ board.now.id }
    requires open { IsOpenToAll call }
    ensures kept { IsKept pass.old pass.new }
{
    let answer = act(rt, board, pass, diary, call);
    heard_of(answer)
}

/// Asks this at a door, in this turn.
pub(crate) fn ask<K: Keeper, R: Wait>(
    rt: &R,
    board: &Board<K>,
    pass: &mut Pass,
    diary: &mut Diary,
    alloc: Global,
    asked: (Asked, u32, u32),
) -> Heard
    requires board { pass.old.id ≡ board.now.id }
    ensures kept { IsKept pass.old pass.new }
{
    match call_of(alloc, asked.0, asked.1, asked.2) {
        Ok(call) => say(rt, board, pass, diary, call),
        Err(_) => Heard::Other,
    }
}

/// Claims a task, runs it and reports it.
fn work_one<K: Keeper, R: Wait>(
    rt: &R,
    board: &Board<K>,
    pass: &mut Pass,
    diary: &mut Diary,
    worker: u32,
) -> Heard
    requires board { pass.old.id ≡ board.now.id }
    requires worker { MayWork pass.old worker }
    ensures kept { IsKept pass.old pass.new }
{
    match act(rt, board, pass, diary, Call::Claim { worker, at: AT }) {
        Answer::Task(task) => {
            let done = task.start(&mut QuietSpawner);
            heard_of(act(rt, board, pass, diary, Call::Report { done, at: AT }))
        }
        other => heard_of(other),
    }
}

/// Claims, runs and reports tasks until there is no more to do.
pub(crate) fn work<K: Keeper, R: Wait>(
    rt: &R,
    board: &Board<K>,
    pass: &mut Pass,
    diary: &mut Diary,
    worker: u32,
)
    requires board { pass.old.id ≡ board.now.id }
    requires worker { MayWork pass.old worker }
    ensures kept { IsKept pass.old pass.new }
{
    for _try in 0..TRIES {
        let heard = work_one(rt, board, pass, diary, worker);
        if heard == Heard::Closed {
            return;
        }
        if heard == Heard::Idle {
            yield_now();
        }
    }
}

/// Closes a door.
fn close<K: Keeper, R: Wait>(
    rt: &R,
    board: &Board<K>,
    pass: &mut Pass,
    diary: &mut Diary,
    door: u32,
) -> Heard
    requires board { pass.old.id ≡ board.now.id }
    requires door { MayClose pass.old door }
    ensures same { IsSame pass.old pass.new }
{
    let answer = act(rt, board, pass, diary, Call::CloseDoor { door, at: AT });
    heard_of(answer)
}

/// Asks in all turns from 1 to below so many.
fn ask_all<K: Keeper, R: Wait>(
    rt: &R,
    board: &Board<K>,
    pass: &mut Pass,
    diary: &mut Diary,
    alloc: Global,
    turns: (u32, u32),
)
    requires board { pass.old.id ≡ board.now.id }
    ensures kept { IsKept pass.old pass.new }
{
    let (door, count) = turns;
    let mut last = 0u64;
    for turn in 1..count {
        let asked = (asked_in(turn, last), door, turn);
        if let Heard::Accepted(number) = ask(rt, board, pass, diary, alloc, asked) {
            last = number;
        }
    }
}

/// Asks in all these turns, and closes the door.
pub(crate) fn serve<K: Keeper, R: Wait>(
    rt: &R,
    board: &Board<K>,
    pass: &mut Pass,
    diary: &mut Diary,
    alloc: Global,
    turns: (u32, u32),
)
    requires board { pass.old.id ≡ board.now.id }
    requires door { MayClose pass.old turns.0 }
    ensures same { IsSame pass.old pass.new }
{
    ask_all(rt, board, pass, diary, alloc, turns);
    let _ = close(rt, board, pass, diary, turns.0);
}
