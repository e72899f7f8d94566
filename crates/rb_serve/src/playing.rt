//! What a part does on its board.
ghost use Rattle.rb_log.specs.Rows.{is_clean_caller};
ghost use Rattle.rb_serve.specs.Roles.{CanPlay, HasPlayed, IsOf, IsTaken, MayTake, senses_of};
ghost use Rattle.std.specs.List.{list_all};
ghost use Rattle.std.specs.Prelude.{◌≡◌, ◌≤◌, true};

use crate::doors::serve_door;
use crate::role::{Post, Role};
use rb_api::Token;
use rb_board::{Board, Hand};
use rb_causes::{Clock, Keeper, Line, Spawner};
use rb_log::Clerk;
use rb_work::work;
use std::alloc::Global;
use std::sync::Wait;
use std::time;
use std::time::Duration;

/// Plays a part to its end: a door until its line has no caller left, a worker until no door is
/// open and nothing runs.
pub(crate) fn play<R: Wait + time::Clock, K: Keeper, L: Line + Drop, S: Spawner + Drop, T: Clock>(
    rt: &R,
    alloc: Global,
    board: &Board<K>,
    clock: &T,
    tokens: &[Token],
    rest: Duration,
    role: &mut Role<L, S>,
)
    requires tokens { list_all (λ t. is_clean_caller t.caller) tokens.now ≡ true }
    requires board { IsOf board.now.id role.old }
    requires part { CanPlay role.old }
    ensures { HasPlayed (senses_of (T.may_be clock.now) tokens.now L.callers L.faults
        S.shown) role.old role.new }
{
    if let Some(pass) = role.pass.take() {
        let mut hand = Hand::new(board, pass, rt);
        fill(rt, alloc, &mut hand, clock, tokens, rest, &mut role.post);
        role.pass = Some(hand.into_pass());
    }
}

/// Does what the post asks for.
fn fill<R: Wait + time::Clock, C: Clerk, L: Line + Drop, S: Spawner + Drop, T: Clock>(
    rt: &R,
    alloc: Global,
    clerk: &mut C,
    clock: &T,
    tokens: &[Token],
    rest: Duration,
    post: &mut Post<L, S>,
)
    requires tokens { list_all (λ t. is_clean_caller t.caller) tokens.now ≡ true }
    requires post { MayTake (C.told clerk.old) post.old }
    ensures who { (C.told clerk.new).who ≡ (C.told clerk.old).who }
    ensures clerk { (C.told clerk.old).faults ≤ (C.told clerk.new).faults }
    ensures taken { IsTaken (senses_of (T.may_be clock.now) tokens.now L.callers L.faults
        S.shown) (C.told clerk.old) (C.told clerk.new) post.old post.new }
{
    match post {
        Post::Door {
            line,
            buffer,
            number,
            end,
        } => {
            *end = serve_door(rt, alloc, clerk, line, clock, tokens, buffer, *number);
        }
        Post::Worker {
            spawner,
            number,
            said,
        } => {
            *said = work(rt, clerk, spawner, clock, *number, rest);
        }
    }
}
