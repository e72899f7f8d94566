//! A door: the callers of a line, one after another, and then its end.
ghost use Rattle.rb_causes.specs.Causes.{Rose};
ghost use Rattle.rb_door.specs.Standing.{GoesOn};
ghost use Rattle.rb_log.specs.Records.{Record};
ghost use Rattle.rb_log.specs.Rows.{is_clean_caller};
ghost use Rattle.rb_serve.specs.Doors.{Closes, IsDoor, ServesLine, ServesNone};
ghost use Rattle.rb_serve.specs.declared.door_end.DoorEnd.TheVariants as end;
ghost use Rattle.std.specs.List.{list_all};
ghost use Rattle.std.specs.Prelude.{◌≡◌, ◌≤◌, ◌⊎◌, Contains, true};

use crate::door_end::DoorEnd;
use rb_api::{ApiRouter, Token};
use rb_causes::{Clock, Line};
use rb_door::serve_caller;
use rb_log::{Call, Clerk};
use rb_session::saving_of;
use rb_wire::{DoorBuffer, next_turn};
use std::alloc::Global;
use std::sync::Wait;

/// Serves the callers of the line, and closes the door, however they ended.
pub(crate) fn serve_door<R: Wait, C: Clerk, L: Line, T: Clock>(
    rt: &R,
    alloc: Global,
    clerk: &mut C,
    line: &mut L,
    clock: &T,
    tokens: &[Token],
    buffer: &mut DoorBuffer,
    door: u32,
) -> DoorEnd
    requires tokens { list_all (λ t. is_clean_caller t.caller) tokens.now ≡ true }
    requires door { Contains (C.told clerk.old).rights.doors door }
    ensures served { IsDoor (T.may_be clock.now) tokens.now door
        (C.told clerk.old) (C.told clerk.new) (L.callers line.old) (L.callers line.new) result }
    ensures who { (C.told clerk.new).who ≡ (C.told clerk.old).who }
    ensures clerk { (C.told clerk.old).faults ≤ (C.told clerk.new).faults }
    ensures cause { result ≡ end.Failed → Rose (L.faults line.old) (L.faults line.new) }
    ensures later { L.faults line.old ≤ L.faults line.new }
{
    let end = serve_line(rt, alloc, clerk, line, clock, tokens, buffer);
    close_door(clerk, clock, door);
    end
}

/// Serves the callers of the line, with a router of its own; none, where memory for that is
/// wanting.
fn serve_line<R: Wait, C: Clerk, L: Line, T: Clock>(
    rt: &R,
    alloc: Global,
    clerk: &mut C,
    line: &mut L,
    clock: &T,
    tokens: &[Token],
    buffer: &mut DoorBuffer,
) -> DoorEnd
    requires { list_all (λ t. is_clean_caller t.caller) tokens.now ≡ true }
    ensures served { ServesLine (T.may_be clock.now) tokens.now (C.told clerk.old)
        (C.told clerk.new) (L.callers line.old) (L.callers line.new) result
        ⊎ ServesNone (C.told clerk.old) (C.told clerk.new) (L.callers line.old)
        (L.callers line.new) result }
    ensures goes { GoesOn (C.told clerk.old) (C.told clerk.new) }
    ensures cause { result ≡ end.Failed → Rose (L.faults line.old) (L.faults line.new) }
    ensures later { L.faults line.old ≤ L.faults line.new }
{
    match ApiRouter::new(alloc) {
        Ok(router) => serve_callers(rt, alloc, clerk, line, clock, &router, tokens, buffer),
        Err(_) => DoorEnd::Wanting,
    }
}

/// Serves the callers of the line, one after another, until it has none left or fails.
fn serve_callers<R: Wait, C: Clerk, L: Line, T: Clock>(
    rt: &R,
    alloc: Global,
    clerk: &mut C,
    line: &mut L,
    clock: &T,
    router: &ApiRouter,
    tokens: &[Token],
    buffer: &mut DoorBuffer,
) -> DoorEnd
    requires { list_all (λ t. is_clean_caller t.caller) tokens.now ≡ true }
    ensures served { ServesLine (T.may_be clock.now) tokens.now (C.told clerk.old)
        (C.told clerk.new) (L.callers line.old) (L.callers line.new) result }
    ensures goes { GoesOn (C.told clerk.old) (C.told clerk.new) }
    ensures cause { result ≡ end.Failed → Rose (L.faults line.old) (L.faults line.new) }
    ensures later { L.faults line.old ≤ L.faults line.new }
{
    let mut end = DoorEnd::Well;
    for _ in rt.forever() {
        match line.next_caller() {
            Ok(true) => {
                next_turn(buffer);
                let ended = serve_caller(alloc, clerk, line, clock, router, tokens, buffer);
                end = end.with(ended);
            }
            Ok(false) => return end,
            Err(_) => return DoorEnd::Failed,
        }
    }
    unreachable!()
}

/// Closes the door. Whether the row is kept, Save tells.
fn close_door<C: Clerk, T: Clock>(clerk: &mut C, clock: &T, door: u32)
    requires { Contains (C.told clerk.old).rights.doors door }
    ensures closed { (r : Record) × Closes (T.may_be clock.now) door (C.told clerk.old)
        (C.told clerk.new) r }
    ensures who { (C.told clerk.new).who ≡ (C.told clerk.old).who }
    ensures clerk { (C.told clerk.old).faults ≤ (C.told clerk.new).faults }
{
    let at = clock.now();
    let _kept = saving_of(clerk.act(Call::CloseDoor { door, at }));
}
