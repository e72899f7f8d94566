//! The course of a session behind its imports.
ghost use Rattle.rb_causes.specs.Causes.{Rose};
ghost use Rattle.rb_door.specs.Exchanges.{ended_of};
ghost use Rattle.rb_door.specs.Standing.{GoesOn};
ghost use Rattle.rb_log.specs.Rows.{is_clean_caller};
ghost use Rattle.rb_log.specs.Records.{Record};
ghost use Rattle.rb_session.specs.Courses.{ClosesDoor, Course, RunsCourse};
ghost use Rattle.rb_session.specs.Line.{ServesLine};
ghost use Rattle.rb_session.specs.Statuses.{farewell_of};
ghost use Rattle.rb_session.specs.Visits.{Handles, Handling, Pump, PumpsBehind, ServesStay, Stay, scene, standing};
ghost use Rattle.rb_wire.specs.Hearing.{nothing_pending};
ghost use Rattle.rb_wire.specs.Requests.{most_requests};
ghost use Rattle.std.specs.List.{list_all};
ghost use Rattle.std.specs.Prelude.{◌≡◌, ◌≤◌, ◌<◌, ◌≢◌, true, Contains, Option};

use crate::farewell::{CallersEnd, Farewell};
use crate::saving::{Saving, saving_of};
use rb_api::{ApiRouter, Ended, Token};
use rb_causes::{Clock, Line, Spawner};
use rb_door::serve_next;
use rb_log::{Call, Clerk};
use rb_wire::{DoorBuffer, next_turn};
use rb_work::{Pumped, pump};
use std::alloc::Global;

/// How many callers a session serves at most.
const MOST_CALLERS: u64 = 1_000_000;

/// The one door, and the one worker.
const DOOR: u32 = 0;

const WORKER: u32 = 0;

/// Pumps, serves the callers of the line one after another, closes the door, and pumps once more.
/// All pumps but the last have this limit.
pub fn run_course<C: Clerk, L: Line, S: Spawner, T: Clock>(
    alloc: Global,
    clerk: &mut C,
    line: &mut L,
    spawner: &mut S,
    clock: &T,
    router: &ApiRouter,
    tokens: &[Token],
    limit: Option<u64>,
    buffer: &mut DoorBuffer,
) -> Farewell
    requires tokens { list_all (λ t. is_clean_caller t.caller) tokens.now ≡ true }
    requires worker { Contains (C.told clerk.old).rights.workers 0 }
    requires door { Contains (C.told clerk.old).rights.doors 0 }
    ensures runs { (c : Course) × RunsCourse (T.may_be clock.now) tokens.now limit
        (scene (C.told clerk.old) (S.shown spawner.old) (L.callers line.old) buffer.old)
        (scene (C.told clerk.new) (S.shown spawner.new) (L.callers line.new) buffer.new) c
        × (result ≡ farewell_of c) }
    ensures cause { result.callers.line_failed ≡ true
        → Rose (L.faults line.old) (L.faults line.new) }
    ensures store { result.last ≡ Pumped.StoreFault
        → Rose (C.told clerk.old).faults (C.told clerk.new).faults }
    ensures later { L.faults line.old ≤ L.faults line.new }
    ensures spawner { (S.shown spawner.old).faults ≤ (S.shown spawner.new).faults }
    ensures clerk { (C.told clerk.old).faults ≤ (C.told clerk.new).faults }
{
    let _first = pump(clerk, spawner, clock, WORKER, limit);
    let callers = serve_line(
        alloc, clerk, line, spawner, clock, router, tokens, limit, buffer,
    );
    close_door(clerk, clock);
    let last = pump(clerk, spawner, clock, WORKER, None);
    Farewell { callers, last }
}

/// Asks the line for callers, one after another, and serves each.
fn serve_line<C: Clerk, L: Line, S: Spawner, T: Clock>(
    alloc: Global,
    clerk: &mut C,
    line: &mut L,
    spawner: &mut S,
    clock: &T,
    router: &ApiRouter,
    tokens: &[Token],
    limit: Option<u64>,
    buffer: &mut DoorBuffer,
) -> CallersEnd
    requires tokens { list_all (λ t. is_clean_caller t.caller) tokens.now ≡ true }
    requires worker { Contains (C.told clerk.old).rights.workers 0 }
    ensures served { ServesLine (T.may_be clock.now) tokens.now limit
        (scene (C.told clerk.old) (S.shown spawner.old) (L.callers line.old) buffer.old)
        (scene (C.told clerk.new) (S.shown spawner.new) (L.callers line.new) buffer.new) result }
    ensures goes { GoesOn (C.told clerk.old) (C.told clerk.new) }
    ensures cause { result.line_failed ≡ true → Rose (L.faults line.old) (L.faults line.new) }
    ensures later { L.faults line.old ≤ L.faults line.new }
    ensures spawner { (S.shown spawner.old).faults ≤ (S.shown spawner.new).faults }
{
    let mut callers = CallersEnd::new();
    for _served in 0..MOST_CALLERS {
        match line.next_caller() {
            Ok(true) => {
                let ended = serve_stay(
                    alloc, clerk, line, spawner, clock, router, tokens, limit, buffer,
                );
                callers = callers.with(ended);
            }
            Ok(false) => return callers,
            Err(_) => return callers.failed(),
        }
    }
    match line.next_caller() {
        Ok(true) => callers.one_too_many(),
        Ok(false) => callers,
        Err(_) => callers.failed(),
    }
}

/// Serves a caller to the end.
fn serve_stay<C: Clerk, L: Line, S: Spawner, T: Clock>(
    alloc: Global,
    clerk: &mut C,
    line: &mut L,
    spawner: &mut S,
    clock: &T,
    router: &ApiRouter,
    tokens: &[Token],
    limit: Option<u64>,
    buffer: &mut DoorBuffer,
) -> Ended
    requires tokens { list_all (λ t. is_clean_caller t.caller) tokens.now ≡ true }
    requires worker { Contains (C.told clerk.old).rights.workers 0 }
    ensures stay { (v : Stay) × ServesStay (T.may_be clock.now) tokens.now limit
        (scene (C.told clerk.old) (S.shown spawner.old) (L.callers line.old) nothing_pending)
        (scene (C.told clerk.new) (S.shown spawner.new) (L.callers line.new) buffer.new) v
        result }
    ensures goes { GoesOn (C.told clerk.old) (C.told clerk.new) }
    ensures last { result ≢ Ended.More }
    ensures cause { result ≡ Ended.LineFault → Rose (L.faults line.old) (L.faults line.new) }
    ensures later { L.faults line.old ≤ L.faults line.new }
    ensures spawner { (S.shown spawner.old).faults ≤ (S.shown spawner.new).faults }
{
    next_turn(buffer);
    let mut ended = Ended::More;
    while ended == Ended::More {
        ended = handle_next(
            alloc, clerk, line, spawner, clock, router, tokens, limit, buffer,
        );
    }
    ended
}

/// Serves one request; behind it, whatever became of the reply, a pump works off what may start.
fn handle_next<C: Clerk, L: Line, S: Spawner, T: Clock>(
    alloc: Global,
    clerk: &mut C,
    line: &mut L,
    spawner: &mut S,
    clock: &T,
    router: &ApiRouter,
    tokens: &[Token],
    limit: Option<u64>,
    buffer: &mut DoorBuffer,
) -> Ended
    requires worker { Contains (C.told clerk.old).rights.workers 0 }
    requires tokens { list_all (λ t. is_clean_caller t.caller) tokens.now ≡ true }
    ensures handled { (r : Handling) × Handles (T.may_be clock.now) tokens.now limit
        (scene (C.told clerk.old) (S.shown spawner.old) (L.callers line.old) buffer.old)
        (scene (C.told clerk.new) (S.shown spawner.new) (L.callers line.new) buffer.new) r
        × (result ≡ ended_of r.exchange) }
    ensures goes { GoesOn (C.told clerk.old) (C.told clerk.new) }
    ensures more { result ≡ Ended.More
        → (buffer.old.given < buffer.new.given) × (buffer.new.given < most_requests) }
    ensures cause { result ≡ Ended.LineFault → Rose (L.faults line.old) (L.faults line.new) }
    ensures later { L.faults line.old ≤ L.faults line.new }
    ensures spawner { (S.shown spawner.old).faults ≤ (S.shown spawner.new).faults }
{
    let heeded = serve_next(alloc, clerk, line, clock, router, tokens, buffer);
    pump_if(heeded.asked, clerk, spawner, clock, limit);
    heeded.ended
}

/// Behind a request, works off what may start.
fn pump_if<C: Clerk, S: Spawner, T: Clock>(
    asked: bool,
    clerk: &mut C,
    spawner: &mut S,
    clock: &T,
    limit: Option<u64>,
)
    requires worker { Contains (C.told clerk.old).rights.workers 0 }
    ensures pumped { (p : Option Pump) × PumpsBehind asked (T.may_be clock.now) limit
        (standing (C.told clerk.old) (S.shown spawner.old))
        (standing (C.told clerk.new) (S.shown spawner.new)) p }
    ensures goes { GoesOn (C.told clerk.old) (C.told clerk.new) }
    ensures spawner { (S.shown spawner.old).faults ≤ (S.shown spawner.new).faults }
{
    if !asked {
        return;
    }
    let _said = pump(clerk, spawner, clock, WORKER, limit);
}

/// Closes the one door. Whether the row is kept, Save tells.
fn close_door<C: Clerk, T: Clock>(clerk: &mut C, clock: &T)
    requires door { Contains (C.told clerk.old).rights.doors 0 }
    ensures closed { (r : Record) × ClosesDoor (T.may_be clock.now)
        (C.told clerk.old) (C.told clerk.new) r }
    ensures workers { (C.told clerk.new).rights.workers ≡ (C.told clerk.old).rights.workers }
    ensures faults { (C.told clerk.old).faults ≤ (C.told clerk.new).faults }
{
    let at = clock.now();
    let _kept = saving_of(clerk.act(Call::CloseDoor { door: DOOR, at }));
}
